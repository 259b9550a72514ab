//! The parts of a compound statement's declarations that hold no expression.

ghost use Rattle.std.specs.Prelude.{◌≡◌};
ghost use Rattle.grammar_algebra.specs.Reading.{begins, first, reading};
ghost use Rattle.grammar_algebra.specs.Reads.{Reads};
ghost use Rattle.grammar_sql.specs.Declarations as declarations;
ghost use Rattle.grammar_sql.specs.Queries as queries;
ghost use Rattle.grammar_sql.specs.Sql.{rules};

use crate::conditions::{condition_values, sqlstate};
use grammar_algebra::{Input, ParseError};
use parse_expressions::{choice, ident};
use sql_lex::{Sign, TokenKind, Word};
use sqlite_items::Items;
use statement_trees::{ConditionValue, HandlerType, SqlstateValue};
use std::alloc::Global;
use syntax_trees::{Anchor, Ident};

/// Whether ATOMIC stands here (ISO/IEC 9075-4, 14.1), by the rule `atomic`; NOT ATOMIC says what is
/// so where neither stands. On Ok the input stands after it, else at the token that does not go
/// on.
#[tactic(auto, unfolding(grammar_sql::specs::Declarations::atomic))]
pub fn atomic(input: &mut Input<'_>, room: u32) -> Result<bool, ParseError>
    ensures { Reads (reading rules room declarations.atomic input.old.rest.now) result
        input.new.rest.now }
{
    if input.eat(TokenKind::Word(Word::Not)) {
        input.expect(TokenKind::Word(Word::Atomic))?;
        return Ok(false);
    }
    Ok(input.eat(TokenKind::Word(Word::Atomic)))
}

// ---- variables and conditions

/// The names after the first one, each after its comma, by the rule `more_idents`. On Ok the input
/// stands after the last one, else at the token that does not go on.
#[tactic(auto, unfolding(grammar_sql::specs::Queries::more_idents))]
pub fn more_names(
    alloc: Global,
    input: &mut Input<'_>,
    room: u32,
) -> Result<Items<Ident>, ParseError>
    ensures { Reads (reading rules room queries.more_idents input.old.rest.now) result
        input.new.rest.now }
{
    let mut found = Items::new(alloc);
    'more: while input.eat(TokenKind::Sign(Sign::Comma)) {
        match ident(input, room) {
            Ok(next) => found.push(next)?,
            Err(error) => return Err(error),
        }
    }
    Ok(found)
}

/// Whether what stands after the first name of variables begins. It reads nothing.
#[tactic(auto, unfolding(grammar_sql::specs::Declarations::variables, grammar_sql::specs::Queries::more_idents, grammar_sql::specs::Trees::data_type, grammar_sql::specs::Trees::plain_type, grammar_sql::specs::Trees::varchar))]
pub fn begins_variables(input: &Input<'_>) -> bool
    ensures { result ≡ begins (first declarations.variables) input.now.rest.now }
{
    input.sees_any(&[
        TokenKind::Sign(Sign::Comma),
        TokenKind::Word(Word::Integer),
        TokenKind::Word(Word::Int),
        TokenKind::Word(Word::Boolean),
        TokenKind::Word(Word::Varchar),
    ])
}

/// CONDITION FOR with its state (ISO/IEC 9075-4, 14.3), by the rule `condition`. On Ok the input
/// stands after it, else at the token that does not go on.
#[tactic(auto, unfolding(grammar_sql::specs::Declarations::condition))]
pub fn condition(input: &mut Input<'_>, room: u32) -> Result<SqlstateValue, ParseError>
    ensures { Reads (reading rules room declarations.condition input.old.rest.now) result
        input.new.rest.now }
{
    input.expect(TokenKind::Word(Word::Condition))?;
    input.expect(TokenKind::Word(Word::For))?;
    sqlstate(input, room)
}

// ---- handlers

/// The type of a handler, with its anchor (ISO/IEC 9075-4, 14.2), by the rule `handler_type`. On Ok
/// the input stands after it, else at the token that is no such word.
#[tactic(auto, unfolding(grammar_sql::specs::Declarations::handler_type))]
pub fn handler_type(input: &mut Input<'_>, room: u32) -> Result<(HandlerType, Anchor), ParseError>
    ensures { Reads (reading rules room declarations.handler_type input.old.rest.now) result
        input.new.rest.now }
{
    choice(
        input,
        room,
        TokenKind::Word(Word::Continue),
        HandlerType::Continue,
        &[
            (TokenKind::Word(Word::Exit), HandlerType::Exit),
            (TokenKind::Word(Word::Undo), HandlerType::Undo),
        ],
    )
}

/// HANDLER FOR with what the handler waits for (ISO/IEC 9075-4, 14.2), by the rule `handled`. On Ok
/// the input stands after it, else at the token that does not go on.
#[tactic(auto, unfolding(grammar_sql::specs::Declarations::handled))]
pub fn handled(
    alloc: Global,
    input: &mut Input<'_>,
    room: u32,
) -> Result<Items<ConditionValue>, ParseError>
    ensures { Reads (reading rules room declarations.handled input.old.rest.now) result
        input.new.rest.now }
{
    input.expect(TokenKind::Word(Word::Handler))?;
    input.expect(TokenKind::Word(Word::For))?;
    condition_values(alloc, input, room)
}
