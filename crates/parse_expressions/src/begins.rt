//! What begins at a place of the tokens.

ghost use Rattle.std.specs.Prelude.{◌≡◌};
ghost use Rattle.sql_lex.specs.declared.sign.Sign.TheVariants as signs;
ghost use Rattle.sql_lex.specs.declared.token.TokenKind.TheVariants as kinds;
ghost use Rattle.grammar_algebra.specs.Reading.{begins, first};
ghost use Rattle.grammar_sql.specs.Expressions as expressions;
ghost use Rattle.grammar_sql.specs.Queries as queries;

use grammar_algebra::Input;
use sql_lex::{Sign, TokenKind, Word};

/// Whether an expression begins, and so a list of them. It reads nothing.
#[tactic(auto, unfolding(grammar_algebra::specs::Reading::same_kind, grammar_sql::specs::Expressions::exprs, grammar_sql::specs::Expressions::expr, grammar_sql::specs::Expressions::conjunction, grammar_sql::specs::Expressions::negation, grammar_sql::specs::Expressions::not_word, grammar_sql::specs::Expressions::predicate, grammar_sql::specs::Expressions::sum, grammar_sql::specs::Expressions::term, grammar_sql::specs::Expressions::factor, grammar_sql::specs::Expressions::unary_sign, grammar_sql::specs::Expressions::primary, grammar_sql::specs::Expressions::literal, grammar_sql::specs::Expressions::constant, grammar_sql::specs::Expressions::named, grammar_sql::specs::Expressions::case_expression, grammar_sql::specs::Expressions::exists, grammar_sql::specs::Expressions::function, grammar_sql::specs::Expressions::aggregate, grammar_sql::specs::Expressions::function_call, grammar_sql::specs::Trees::ident, grammar_sql::specs::Trees::bracketed))]
pub fn begins_expr(input: &Input<'_>) -> bool
    ensures one { result ≡ begins (first expressions.expr) input.now.rest.now }
    ensures list { result ≡ begins (first expressions.exprs) input.now.rest.now }
{
    input.sees_any(&[
        TokenKind::Word(Word::Not),
        TokenKind::Sign(Sign::Plus),
        TokenKind::Sign(Sign::Minus),
        TokenKind::Number,
        TokenKind::Text,
        TokenKind::Word(Word::True),
        TokenKind::Word(Word::False),
        TokenKind::Word(Word::Unknown),
        TokenKind::Word(Word::Null),
        TokenKind::Name,
        TokenKind::Sign(Sign::LeftParen),
        TokenKind::Word(Word::Case),
        TokenKind::Word(Word::Exists),
        TokenKind::Word(Word::Coalesce),
        TokenKind::Word(Word::Mod),
        TokenKind::Word(Word::CharLength),
        TokenKind::Word(Word::Substring),
        TokenKind::Word(Word::Cast),
        TokenKind::Word(Word::Count),
        TokenKind::Word(Word::Sum),
        TokenKind::Word(Word::Avg),
        TokenKind::Word(Word::Min),
        TokenKind::Word(Word::Max),
    ])
}

/// Whether a query begins. It reads nothing.
#[tactic(auto, unfolding(grammar_sql::specs::Queries::query, grammar_sql::specs::Queries::select, grammar_sql::specs::Queries::select_word, grammar_sql::specs::Queries::values, grammar_sql::specs::Queries::values_word))]
pub fn begins_query(input: &Input<'_>) -> bool
    ensures { result ≡ begins (first queries.query) input.now.rest.now }
{
    input.sees_any(&[TokenKind::Word(Word::Select), TokenKind::Word(Word::Values)])
}

/// Whether what stands after the left side of a predicate begins. It reads nothing.
#[tactic(auto, unfolding(grammar_sql::specs::Expressions::predicate_part, grammar_sql::specs::Expressions::compared, grammar_sql::specs::Expressions::comparison, grammar_sql::specs::Expressions::comparison_sign, grammar_sql::specs::Expressions::tested, grammar_sql::specs::Expressions::among, grammar_sql::specs::Expressions::in_word))]
pub fn begins_predicate_part(input: &Input<'_>) -> bool
    ensures { result ≡ begins (first expressions.predicate_part) input.now.rest.now }
{
    input.sees_any(&[
        TokenKind::Sign(Sign::Equals),
        TokenKind::Sign(Sign::NotEquals),
        TokenKind::Sign(Sign::LessThan),
        TokenKind::Sign(Sign::LessThanOrEquals),
        TokenKind::Sign(Sign::GreaterThan),
        TokenKind::Sign(Sign::GreaterThanOrEquals),
        TokenKind::Word(Word::Is),
        TokenKind::Word(Word::In),
        TokenKind::Word(Word::Not),
    ])
}

/// Whether a clause of WHEN begins. It reads nothing.
#[tactic(auto, unfolding(grammar_sql::specs::Expressions::when_clause, grammar_sql::specs::Expressions::after))]
pub fn begins_when_clause(input: &Input<'_>) -> bool
    ensures { result ≡ begins (first expressions.when_clause) input.now.rest.now }
{
    input.sees(TokenKind::Word(Word::When))
}

/// Whether an expression after a comma begins. It reads nothing.
#[tactic(auto, unfolding(grammar_sql::specs::Expressions::after))]
pub fn begins_more(input: &Input<'_>) -> bool
    ensures { result ≡ begins (first (expressions.after (kinds.Sign signs.Comma)))
        input.now.rest.now }
{
    input.sees(TokenKind::Sign(Sign::Comma))
}
