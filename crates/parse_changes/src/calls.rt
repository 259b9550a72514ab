//! CALL.

ghost use Rattle.std.specs.Prelude.{◌≡◌};
ghost use Rattle.grammar_algebra.specs.Reading.{begins, first, reading};
ghost use Rattle.grammar_algebra.specs.Reads.{Reads};
ghost use Rattle.grammar_sql.specs.Trees as trees;
ghost use Rattle.grammar_sql.specs.Writing as writing;
ghost use Rattle.grammar_sql.specs.Sql.{rules};

use grammar_algebra::{Input, ParseError};
use parse_expressions::{ListItem, anchor_in, begins_expr, comma_list, ident};
use parse_queries::expr;
use sql_lex::{Sign, TokenKind, Word};
use sqlite_items::Items;
use statement_trees::{Argument, Call};
use std::alloc::Global;
use syntax_trees::Anchor;

// The `?` that stands for a value which is given back.
#[tactic(auto, unfolding(grammar_sql::specs::Writing::parameter_argument))]
fn parameter_argument(input: &mut Input<'_>, room: u32) -> Result<Argument, ParseError>
    ensures { Reads (reading rules room writing.parameter_argument input.old.rest.now) result
        input.new.rest.now }
{
    let token = input.expect(TokenKind::Sign(Sign::QuestionMark))?;
    Ok(Argument::Parameter(anchor_in(token)))
}

// An expression, or `?`.
#[tactic(auto, unfolding(grammar_sql::specs::Writing::call_argument))]
fn call_argument(alloc: Global, input: &mut Input<'_>, room: u32) -> Result<Argument, ParseError>
    ensures { Reads (reading rules room writing.call_argument input.old.rest.now) result
        input.new.rest.now }
{
    if begins_expr(input) {
        return Ok(Argument::Value(expr(alloc, input, room)?));
    }
    parameter_argument(input, room)
}

// The arguments of CALL.
struct CallArguments;

impl ListItem for CallArguments {
    type Tree = Argument;

    ghost item = { writing.call_argument };

    fn read(alloc: Global, input: &mut Input<'_>, room: u32) -> Result<Argument, ParseError> {
        call_argument(alloc, input, room)
    }
}

#[tactic(auto, unfolding(grammar_sql::specs::Writing::call_arguments, grammar_sql::specs::Writing::more_call_arguments))]
fn call_arguments(
    alloc: Global,
    input: &mut Input<'_>,
    room: u32,
) -> Result<Items<Argument>, ParseError>
    ensures { Reads (reading rules room writing.call_arguments input.old.rest.now) result
        input.new.rest.now }
{
    comma_list::<CallArguments>(alloc, input, room)
}

// Whether an argument begins, and so a list of them.
#[tactic(auto, unfolding(grammar_algebra::specs::Reading::same_kind, grammar_sql::specs::Writing::call_arguments, grammar_sql::specs::Writing::call_argument, grammar_sql::specs::Writing::parameter_argument, grammar_sql::specs::Expressions::expr, grammar_sql::specs::Expressions::conjunction, grammar_sql::specs::Expressions::negation, grammar_sql::specs::Expressions::not_word, grammar_sql::specs::Expressions::predicate, grammar_sql::specs::Expressions::sum, grammar_sql::specs::Expressions::term, grammar_sql::specs::Expressions::factor, grammar_sql::specs::Expressions::unary_sign, grammar_sql::specs::Expressions::primary, grammar_sql::specs::Expressions::literal, grammar_sql::specs::Expressions::constant, grammar_sql::specs::Expressions::named, grammar_sql::specs::Expressions::case_expression, grammar_sql::specs::Expressions::exists, grammar_sql::specs::Expressions::function, grammar_sql::specs::Expressions::aggregate, grammar_sql::specs::Expressions::function_call, grammar_sql::specs::Trees::ident, grammar_sql::specs::Trees::bracketed))]
fn begins_call_arguments(input: &Input<'_>) -> bool
    ensures { result ≡ begins (first writing.call_arguments) input.now.rest.now }
{
    input.sees_any(&[
        TokenKind::Word(Word::Not),
        TokenKind::Sign(Sign::Plus),
        TokenKind::Sign(Sign::Minus),
        TokenKind::Number,
        TokenKind::Text,
        TokenKind::Word(Word::True),
        TokenKind::Word(Word::False),
        TokenKind::Word(Word::Unknown),
        TokenKind::Word(Word::Null),
        TokenKind::Name,
        TokenKind::Sign(Sign::LeftParen),
        TokenKind::Word(Word::Case),
        TokenKind::Word(Word::Exists),
        TokenKind::Word(Word::Coalesce),
        TokenKind::Word(Word::Mod),
        TokenKind::Word(Word::CharLength),
        TokenKind::Word(Word::Substring),
        TokenKind::Word(Word::Cast),
        TokenKind::Word(Word::Count),
        TokenKind::Word(Word::Sum),
        TokenKind::Word(Word::Avg),
        TokenKind::Word(Word::Min),
        TokenKind::Word(Word::Max),
        TokenKind::Sign(Sign::QuestionMark),
    ])
}

// The same, or no argument where none stands here.
#[tactic(auto, unfolding(grammar_sql::specs::Writing::if_call_arguments))]
fn if_call_arguments(
    alloc: Global,
    input: &mut Input<'_>,
    room: u32,
) -> Result<Items<Argument>, ParseError>
    ensures { Reads (reading rules room writing.if_call_arguments input.old.rest.now) result
        input.new.rest.now }
{
    if begins_call_arguments(input) {
        call_arguments(alloc, input, room)
    } else {
        Ok(Items::new(alloc))
    }
}

#[tactic(auto, unfolding(grammar_sql::specs::Trees::bracketed))]
fn bracketed_arguments(
    alloc: Global,
    input: &mut Input<'_>,
    room: u32,
) -> Result<Items<Argument>, ParseError>
    ensures { Reads (reading rules room (trees.bracketed trees.CallArguments) input.old.rest.now)
        result input.new.rest.now }
{
    let left = input.open(room, TokenKind::Sign(Sign::LeftParen))?;
    let inner = if_call_arguments(alloc, input, left)?;
    input.close(TokenKind::Sign(Sign::RightParen), inner)
}

#[tactic(auto, unfolding(grammar_sql::specs::Writing::call_word))]
fn call_word(input: &mut Input<'_>, room: u32) -> Result<Anchor, ParseError>
    ensures { Reads (reading rules room writing.call_word input.old.rest.now) result
        input.new.rest.now }
{
    let token = input.expect(TokenKind::Word(Word::Call))?;
    Ok(anchor_in(token))
}

/// CALL with its name and its arguments (ISO/IEC 9075-2, 15.1), by the rule `call`. On Ok the input
/// stands after the closing bracket, else at the token that does not go on.
#[tactic(auto, unfolding(grammar_sql::specs::Writing::call))]
pub fn call(alloc: Global, input: &mut Input<'_>, room: u32) -> Result<Call, ParseError>
    ensures { Reads (reading rules room writing.call input.old.rest.now) result input.new.rest.now }
{
    let anchor = call_word(input, room)?;
    let name = ident(input, room)?;
    let arguments = bracketed_arguments(alloc, input, room)?;
    Ok(Call {
        anchor,
        name,
        arguments,
    })
}
