//! Words and signs of expressions that hold no expression themselves.

ghost use Rattle.std.specs.Prelude.{◌≡◌, ◌&&◌, ◌∷◌, [], drop, false, true, ℕ, Ok};
ghost use Rattle.grammar_sql.specs.declared.function_word.FunctionWord.TheVariants as function_words;
ghost use Rattle.sql_lex.specs.declared.sign.Sign.TheVariants as signs;
ghost use Rattle.sql_lex.specs.declared.token.TokenKind.TheVariants as kinds;
ghost use Rattle.syntax_trees.specs.declared.expr.Expr.TheVariants as tree;
ghost use Rattle.grammar_algebra.specs.Grammar.{optional};
ghost use Rattle.grammar_algebra.specs.Notation.{◌=>◌};
ghost use Rattle.grammar_algebra.specs.Reading.{begins, first, mapped, reading};
ghost use Rattle.grammar_algebra.specs.Reads.{Reads};
ghost use Rattle.grammar_sql.specs.Trees as trees;
ghost use Rattle.grammar_sql.specs.Expressions as expressions;
ghost use Rattle.grammar_sql.specs.Sql.{rules};

use crate::place::{anchor, anchor_in, choice, ident};
use crate::types::data_type;
use grammar_algebra::{Input, ParseError, number_in, text_in};
use grammar_sql::{ChainLevel, FunctionWord};
use parse_nodes::is_or_not;
use sql_lex::{Sign, TokenKind, Word};
use sql_values::{Comparison, FoldKind, Operator};
use syntax_trees::{Anchor, ChainOperator, DataType, Ident, Literal, Operation, TruthTest};

// TRUE, FALSE, UNKNOWN or NULL, with its anchor.
#[tactic(auto, unfolding(grammar_sql::specs::Expressions::constant))]
fn constant(input: &mut Input<'_>, room: u32) -> Result<(Literal, Anchor), ParseError>
    ensures { Reads (reading rules room expressions.constant input.old.rest.now) result
        input.new.rest.now }
{
    let anchor = anchor(input);
    if input.eat(TokenKind::Word(Word::True)) {
        return Ok((Literal::True, anchor));
    }
    if input.eat(TokenKind::Word(Word::False)) {
        return Ok((Literal::False, anchor));
    }
    if input.eat(TokenKind::Word(Word::Unknown)) {
        return Ok((Literal::Unknown, anchor));
    }
    input.expect(TokenKind::Word(Word::Null))?;
    Ok((Literal::Null, anchor))
}

/// A literal, with its anchor. On Ok the input stands after it, else at the token that does not go
/// on.
#[tactic(auto, unfolding(grammar_sql::specs::Expressions::literal))]
pub fn literal(input: &mut Input<'_>, room: u32) -> Result<(Literal, Anchor), ParseError>
    ensures { Reads (reading rules room expressions.literal input.old.rest.now) result
        input.new.rest.now }
{
    if input.sees(TokenKind::Number) {
        let token = input.expect(TokenKind::Number)?;
        return Ok((Literal::Number(number_in(token)), anchor_in(token)));
    }
    if input.sees(TokenKind::Text) {
        let token = input.expect(TokenKind::Text)?;
        return Ok((Literal::Text(text_in(token).copied()?), anchor_in(token)));
    }
    constant(input, room)
}

/// Whether a literal begins. It reads nothing.
#[tactic(auto, unfolding(grammar_sql::specs::Expressions::literal, grammar_sql::specs::Expressions::constant))]
pub fn begins_literal(input: &Input<'_>) -> bool
    ensures { result ≡ begins (first expressions.literal) input.now.rest.now }
{
    input.sees_any(&[
        TokenKind::Number,
        TokenKind::Text,
        TokenKind::Word(Word::True),
        TokenKind::Word(Word::False),
        TokenKind::Word(Word::Unknown),
        TokenKind::Word(Word::Null),
    ])
}

/// Whether a literal stands here before a comma or a closing bracket: then the expression that is
/// read here is that literal. Rows of VALUES are made of these mostly, and to read one level by
/// level tests the same two tokens some twenty times. It reads nothing.
pub fn is_lone_literal(input: &Input<'_>) -> bool
    ensures here { result ≡ (begins (kinds.Sign signs.Comma ∷ kinds.Sign signs.RightParen ∷ [])
        (drop 1 input.now.rest.now) && begins (first expressions.literal) input.now.rest.now) }
    ensures alone { result ≡ true → (room : ℕ) →
        reading rules room expressions.expr input.now.rest.now ≡ mapped (λ p. tree.Literal p.1 p.0)
        (reading rules room expressions.literal input.now.rest.now) }
{
    let mut after = Input { rest: input.rest };
    after.take();
    after.sees_any(&[
        TokenKind::Sign(Sign::Comma),
        TokenKind::Sign(Sign::RightParen),
    ]) && begins_literal(input)
}

#[tactic(auto, unfolding(grammar_sql::specs::Expressions::unary_sign))]
fn unary_sign(input: &mut Input<'_>, room: u32) -> Result<(Operation, Anchor), ParseError>
    ensures { Reads (reading rules room expressions.unary_sign input.old.rest.now) result
        input.new.rest.now }
{
    let anchor = anchor(input);
    if input.eat(TokenKind::Sign(Sign::Plus)) {
        return Ok((Operation::Plus, anchor));
    }
    input.expect(TokenKind::Sign(Sign::Minus))?;
    Ok((Operation::Minus, anchor))
}

/// A sign, with its anchor, if one stands here. Where none stands here nothing is read.
#[tactic(auto, unfolding(grammar_sql::specs::Expressions::unary_sign))]
pub fn if_sign(input: &mut Input<'_>, room: u32) -> Result<Option<(Operation, Anchor)>, ParseError>
    ensures { Reads (reading rules room (optional expressions.unary_sign) input.old.rest.now) result
        input.new.rest.now }
{
    if input.sees_any(&[TokenKind::Sign(Sign::Plus), TokenKind::Sign(Sign::Minus)]) {
        Ok(Some(unary_sign(input, room)?))
    } else {
        Ok(None)
    }
}

/// NOT, with its anchor, if it stands here. Where none stands here nothing is read.
#[tactic(auto, unfolding(grammar_sql::specs::Expressions::not_word))]
pub fn if_not(input: &mut Input<'_>, room: u32) -> Result<Option<(Operation, Anchor)>, ParseError>
    ensures { Reads (reading rules room (optional expressions.not_word) input.old.rest.now) result
        input.new.rest.now }
{
    let anchor = anchor(input);
    if input.eat(TokenKind::Word(Word::Not)) {
        Ok(Some((Operation::Not, anchor)))
    } else {
        Ok(None)
    }
}

/// The sign of a comparison, with its anchor, by the rule `comparison_sign`. On Ok the input stands
/// after it, else at the token that does not go on.
#[tactic(auto, unfolding(grammar_sql::specs::Expressions::comparison_sign))]
pub fn comparison_sign(input: &mut Input<'_>, room: u32) -> Result<(Comparison, Anchor), ParseError>
    ensures { Reads (reading rules room expressions.comparison_sign input.old.rest.now) result
        input.new.rest.now }
{
    choice(
        input,
        room,
        TokenKind::Sign(Sign::Equals),
        Comparison::Equals,
        &[
            (TokenKind::Sign(Sign::NotEquals), Comparison::NotEquals),
            (TokenKind::Sign(Sign::LessThan), Comparison::LessThan),
            (
                TokenKind::Sign(Sign::LessThanOrEquals),
                Comparison::LessThanOrEquals,
            ),
            (TokenKind::Sign(Sign::GreaterThan), Comparison::GreaterThan),
            (
                TokenKind::Sign(Sign::GreaterThanOrEquals),
                Comparison::GreaterThanOrEquals,
            ),
        ],
    )
}

/// Whether a comparison and what it compares with begin. It reads nothing.
#[tactic(auto, unfolding(grammar_sql::specs::Expressions::compared, grammar_sql::specs::Expressions::comparison, grammar_sql::specs::Expressions::comparison_sign))]
pub fn begins_compared(input: &Input<'_>) -> bool
    ensures { result ≡ begins (first expressions.compared) input.now.rest.now }
{
    input.sees_any(&[
        TokenKind::Sign(Sign::Equals),
        TokenKind::Sign(Sign::NotEquals),
        TokenKind::Sign(Sign::LessThan),
        TokenKind::Sign(Sign::LessThanOrEquals),
        TokenKind::Sign(Sign::GreaterThan),
        TokenKind::Sign(Sign::GreaterThanOrEquals),
    ])
}

// NULL, TRUE, FALSE or UNKNOWN as what IS asks for, with its anchor.
#[tactic(auto, unfolding(grammar_sql::specs::Expressions::truth_test))]
fn truth_test(input: &mut Input<'_>, room: u32) -> Result<(TruthTest, Anchor), ParseError>
    ensures { Reads (reading rules room expressions.truth_test input.old.rest.now) result
        input.new.rest.now }
{
    choice(
        input,
        room,
        TokenKind::Word(Word::Null),
        TruthTest::Null,
        &[
            (TokenKind::Word(Word::True), TruthTest::True),
            (TokenKind::Word(Word::False), TruthTest::False),
            (TokenKind::Word(Word::Unknown), TruthTest::Unknown),
        ],
    )
}

// What IS asks for, or IS NOT.
#[tactic(auto, unfolding(grammar_sql::specs::Expressions::asked))]
fn asked(input: &mut Input<'_>, room: u32) -> Result<Operation, ParseError>
    ensures { Reads (reading rules room expressions.asked input.old.rest.now) result
        input.new.rest.now }
{
    let not = if_not(input, room)?;
    let test = truth_test(input, room)?;
    Ok(is_or_not(not, test.0))
}

/// IS and what it asks for, with its anchor. On Ok the input stands after it, else at the token
/// that does not go on.
#[tactic(auto, unfolding(grammar_sql::specs::Expressions::tested))]
pub fn tested(input: &mut Input<'_>, room: u32) -> Result<(Operation, Anchor), ParseError>
    ensures { Reads (reading rules room expressions.tested input.old.rest.now) result
        input.new.rest.now }
{
    let token = input.expect(TokenKind::Word(Word::Is))?;
    let anchor = anchor_in(token);
    let operation = asked(input, room)?;
    Ok((operation, anchor))
}

/// IN or NOT IN: whether NOT stands before it, and the anchor of IN. On Ok the input stands after
/// it, else at the token that does not go on.
#[tactic(auto, unfolding(grammar_sql::specs::Expressions::in_word))]
pub fn in_word(input: &mut Input<'_>, room: u32) -> Result<(bool, Anchor), ParseError>
    ensures { Reads (reading rules room expressions.in_word input.old.rest.now) result
        input.new.rest.now }
{
    if input.sees(TokenKind::Word(Word::In)) {
        let token = input.expect(TokenKind::Word(Word::In))?;
        return Ok((false, anchor_in(token)));
    }
    input.expect(TokenKind::Word(Word::Not))?;
    let token = input.expect(TokenKind::Word(Word::In))?;
    Ok((true, anchor_in(token)))
}

/// An operator of a level, with its anchor. On Ok the input stands after it, else at the token
/// that does not go on.
#[tactic(auto, unfolding(grammar_sql::specs::Expressions::operator))]
pub fn operator(
    input: &mut Input<'_>,
    room: u32,
    level: ChainLevel,
) -> Result<(ChainOperator, Anchor), ParseError>
    ensures { Reads (reading rules room (expressions.operator level) input.old.rest.now) result
        input.new.rest.now }
{
    match level {
        ChainLevel::Or => choice(
            input,
            room,
            TokenKind::Word(Word::Or),
            ChainOperator::Or,
            &[],
        ),
        ChainLevel::And => choice(
            input,
            room,
            TokenKind::Word(Word::And),
            ChainOperator::And,
            &[],
        ),
        ChainLevel::Additive => choice(
            input,
            room,
            TokenKind::Sign(Sign::Plus),
            ChainOperator::Value(Operator::Add),
            &[
                (
                    TokenKind::Sign(Sign::Minus),
                    ChainOperator::Value(Operator::Subtract),
                ),
                (
                    TokenKind::Sign(Sign::Concatenation),
                    ChainOperator::Value(Operator::Concatenate),
                ),
            ],
        ),
        ChainLevel::Multiplicative => choice(
            input,
            room,
            TokenKind::Sign(Sign::Asterisk),
            ChainOperator::Value(Operator::Multiply),
            &[(
                TokenKind::Sign(Sign::Solidus),
                ChainOperator::Value(Operator::Divide),
            )],
        ),
    }
}

/// Whether a link of a level begins. It reads nothing.
#[tactic(auto, unfolding(grammar_sql::specs::Expressions::operator))]
pub fn begins_link(input: &Input<'_>, level: ChainLevel) -> bool
    ensures { result ≡ begins (first (expressions.link_at level)) input.now.rest.now }
{
    match level {
        ChainLevel::Or => input.sees(TokenKind::Word(Word::Or)),
        ChainLevel::And => input.sees(TokenKind::Word(Word::And)),
        ChainLevel::Additive => input.sees_any(&[
            TokenKind::Sign(Sign::Plus),
            TokenKind::Sign(Sign::Minus),
            TokenKind::Sign(Sign::Concatenation),
        ]),
        ChainLevel::Multiplicative => {
            input.sees_any(&[
                TokenKind::Sign(Sign::Asterisk),
                TokenKind::Sign(Sign::Solidus),
            ])
        }
    }
}

fn aggregate_word(kind: FoldKind) -> Word
    ensures { result ≡ expressions.aggregate_word kind }
{
    match kind {
        FoldKind::Count => Word::Count,
        FoldKind::Sum => Word::Sum,
        FoldKind::Avg => Word::Avg,
        FoldKind::Min => Word::Min,
        FoldKind::Max => Word::Max,
    }
}

/// The word of a function, as it is spelled. It reads nothing.
pub fn word_of(function: FunctionWord) -> Word
    ensures { result ≡ expressions.word_of function }
{
    match function {
        FunctionWord::Coalesce => Word::Coalesce,
        FunctionWord::Modulo => Word::Mod,
        FunctionWord::CharLength => Word::CharLength,
        FunctionWord::Substring => Word::Substring,
        FunctionWord::Cast => Word::Cast,
        FunctionWord::Aggregate(kind) => aggregate_word(kind),
    }
}

// The aggregate whose word stands here, or MAX where none does.
#[tactic(auto, unfolding(grammar_sql::specs::Expressions::aggregate, grammar_sql::specs::Expressions::function_call))]
fn aggregate_kind(input: &Input<'_>) -> FoldKind
    ensures { (room : ℕ) → reading rules room expressions.aggregate input.now.rest.now ≡
        reading rules room (expressions.function_call (function_words.Aggregate result))
        input.now.rest.now }
{
    if input.sees(TokenKind::Word(Word::Count)) {
        return FoldKind::Count;
    }
    if input.sees(TokenKind::Word(Word::Sum)) {
        return FoldKind::Sum;
    }
    if input.sees(TokenKind::Word(Word::Avg)) {
        return FoldKind::Avg;
    }
    if input.sees(TokenKind::Word(Word::Min)) {
        return FoldKind::Min;
    }
    FoldKind::Max
}

/// The function whose word stands here, or MAX where none does: what is read here as a function is
/// a call of it. It reads nothing.
#[tactic(auto, unfolding(grammar_sql::specs::Expressions::function, grammar_sql::specs::Expressions::function_call))]
pub fn function_word(input: &Input<'_>) -> FunctionWord
    ensures { (room : ℕ) → reading rules room expressions.function input.now.rest.now ≡
        reading rules room (expressions.function_call result) input.now.rest.now }
{
    if input.sees(TokenKind::Word(Word::Coalesce)) {
        return FunctionWord::Coalesce;
    }
    if input.sees(TokenKind::Word(Word::Mod)) {
        return FunctionWord::Modulo;
    }
    if input.sees(TokenKind::Word(Word::CharLength)) {
        return FunctionWord::CharLength;
    }
    if input.sees(TokenKind::Word(Word::Substring)) {
        return FunctionWord::Substring;
    }
    if input.sees(TokenKind::Word(Word::Cast)) {
        return FunctionWord::Cast;
    }
    FunctionWord::Aggregate(aggregate_kind(input))
}

/// A period and the name after it. On Ok the input stands after it, else at the token that does
/// not go on.
#[tactic(auto, unfolding(grammar_sql::specs::Expressions::dotted))]
pub fn dotted(input: &mut Input<'_>, room: u32) -> Result<Ident, ParseError>
    ensures { Reads (reading rules room expressions.dotted input.old.rest.now) result
        input.new.rest.now }
{
    input.expect(TokenKind::Sign(Sign::Period))?;
    ident(input, room)
}

/// The same, if it stands here.
#[tactic(auto, unfolding(grammar_sql::specs::Expressions::dotted))]
pub(crate) fn if_dotted(input: &mut Input<'_>, room: u32) -> Result<Option<Ident>, ParseError>
    ensures { Reads (reading rules room (optional expressions.dotted) input.old.rest.now) result
        input.new.rest.now }
{
    if input.sees(TokenKind::Sign(Sign::Period)) {
        Ok(Some(dotted(input, room)?))
    } else {
        Ok(None)
    }
}

/// Whether the argument that stands here is the `*` of COUNT. Any other is an expression. It reads
/// nothing.
#[tactic(auto, unfolding(grammar_sql::specs::Expressions::argument, grammar_sql::specs::Expressions::all_rows))]
pub fn is_all_rows(input: &Input<'_>, kind: FoldKind) -> bool
    ensures all { result ≡ true → (room : ℕ) →
        reading rules room (expressions.argument kind) input.now.rest.now ≡
        Ok ([], drop 1 input.now.rest.now) }
    ensures one { result ≡ false → (room : ℕ) →
        reading rules room (expressions.argument kind) input.now.rest.now ≡ reading rules room
        (trees.only => expressions.expr) input.now.rest.now }
{
    match kind {
        FoldKind::Count => input.sees(TokenKind::Sign(Sign::Asterisk)),
        FoldKind::Sum => false,
        FoldKind::Avg => false,
        FoldKind::Min => false,
        FoldKind::Max => false,
    }
}

/// AS with the type after it. On Ok the input stands after it, else at the token that does not go
/// on.
#[tactic(auto, unfolding(grammar_sql::specs::Expressions::as_type))]
pub fn as_type(input: &mut Input<'_>, room: u32) -> Result<DataType, ParseError>
    ensures { Reads (reading rules room expressions.as_type input.old.rest.now) result
        input.new.rest.now }
{
    input.expect(TokenKind::Word(Word::As))?;
    data_type(input, room)
}
