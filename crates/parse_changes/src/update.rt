//! UPDATE.

ghost use Rattle.std.specs.Prelude.{◌≡◌};
ghost use Rattle.grammar_algebra.specs.Notation.{◌~◌};
ghost use Rattle.grammar_algebra.specs.Reading.{reading};
ghost use Rattle.grammar_algebra.specs.Reads.{Reads};
ghost use Rattle.grammar_sql.specs.Queries as queries;
ghost use Rattle.grammar_sql.specs.Writing as writing;
ghost use Rattle.grammar_sql.specs.Sql.{rules};

use crate::filter::filter;
use grammar_algebra::{Input, ParseError};
use parse_expressions::{ListItem, anchor_in, comma_list, ident};
use parse_nodes::update_of;
use parse_queries::after;
use sql_lex::{Sign, TokenKind, Word};
use sqlite_items::Items;
use statement_trees::{Assignment, Update};
use std::alloc::Global;
use syntax_trees::{Anchor, Expr};

/// A name and the value that is assigned to it.
#[tactic(auto, unfolding(grammar_sql::specs::Writing::assignment))]
pub(crate) fn assignment(
    alloc: Global,
    input: &mut Input<'_>,
    room: u32,
) -> Result<Assignment, ParseError>
    ensures { Reads (reading rules room writing.assignment input.old.rest.now) result
        input.new.rest.now }
{
    let target = ident(input, room)?;
    let value = after(alloc, input, room, TokenKind::Sign(Sign::Equals))?;
    Ok(Assignment { target, value })
}

// The assignments of SET.
struct SetAssignments;

impl ListItem for SetAssignments {
    type Tree = Assignment;

    ghost item = { writing.assignment };

    fn read(alloc: Global, input: &mut Input<'_>, room: u32) -> Result<Assignment, ParseError> {
        assignment(alloc, input, room)
    }
}

#[tactic(auto, unfolding(grammar_sql::specs::Writing::assignments, grammar_sql::specs::Writing::more_assignments))]
fn assignments(
    alloc: Global,
    input: &mut Input<'_>,
    room: u32,
) -> Result<Items<Assignment>, ParseError>
    ensures { Reads (reading rules room writing.assignments input.old.rest.now) result
        input.new.rest.now }
{
    comma_list::<SetAssignments>(alloc, input, room)
}

#[tactic(auto, unfolding(grammar_sql::specs::Writing::set_clause))]
fn set_clause(
    alloc: Global,
    input: &mut Input<'_>,
    room: u32,
) -> Result<Items<Assignment>, ParseError>
    ensures { Reads (reading rules room writing.set_clause input.old.rest.now) result
        input.new.rest.now }
{
    input.expect(TokenKind::Word(Word::Set))?;
    assignments(alloc, input, room)
}

// SET with its assignments, and the condition of WHERE if there is one.
fn changes(
    alloc: Global,
    input: &mut Input<'_>,
    room: u32,
) -> Result<(Items<Assignment>, Option<Expr>), ParseError>
    ensures { Reads (reading rules room (writing.set_clause ~ queries.filter) input.old.rest.now)
        result input.new.rest.now }
{
    let assignments = set_clause(alloc, input, room)?;
    let filter = filter(alloc, input, room)?;
    Ok((assignments, filter))
}

#[tactic(auto, unfolding(grammar_sql::specs::Writing::update_word))]
fn update_word(input: &mut Input<'_>, room: u32) -> Result<Anchor, ParseError>
    ensures { Reads (reading rules room writing.update_word input.old.rest.now) result
        input.new.rest.now }
{
    let token = input.expect(TokenKind::Word(Word::Update))?;
    Ok(anchor_in(token))
}

/// UPDATE with its table, its assignments and its condition.
#[tactic(auto, unfolding(grammar_sql::specs::Writing::update))]
pub(crate) fn update(alloc: Global, input: &mut Input<'_>, room: u32) -> Result<Update, ParseError>
    ensures { Reads (reading rules room writing.update input.old.rest.now) result input.new.rest.now }
{
    let anchor = update_word(input, room)?;
    let table = ident(input, room)?;
    let changes = changes(alloc, input, room)?;
    Ok(update_of(anchor, table, changes))
}
