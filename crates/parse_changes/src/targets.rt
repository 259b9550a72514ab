//! SET and SELECT INTO, which store into variables.

ghost use Rattle.std.specs.Prelude.{◌≡◌};
ghost use Rattle.grammar_algebra.specs.Notation.{◌~◌};
ghost use Rattle.grammar_algebra.specs.Reading.{reading};
ghost use Rattle.grammar_algebra.specs.Reads.{Reads};
ghost use Rattle.grammar_sql.specs.Queries as queries;
ghost use Rattle.grammar_sql.specs.Statements as statements;
ghost use Rattle.grammar_sql.specs.Sql.{rules};

use crate::update::assignment;
use grammar_algebra::{Input, ParseError};
use parse_expressions::{anchor_in, idents, select_word};
use parse_nodes::selected_into;
use parse_queries::{select_list, table_expression};
use sql_lex::{TokenKind, Word};
use sqlite_items::Items;
use statement_trees::{SelectInto, Stmt};
use std::alloc::Global;
use syntax_trees::{Anchor, ColumnName, Expr, FromItem, Ident};

#[tactic(auto, unfolding(grammar_sql::specs::Statements::set_word))]
fn set_word(input: &mut Input<'_>, room: u32) -> Result<Anchor, ParseError>
    ensures { Reads (reading rules room statements.set_word input.old.rest.now) result
        input.new.rest.now }
{
    let token = input.expect(TokenKind::Word(Word::Set))?;
    Ok(anchor_in(token))
}

/// SET with its variable and the value.
#[tactic(auto, unfolding(grammar_sql::specs::Statements::set_statement))]
pub(crate) fn set_statement(
    alloc: Global,
    input: &mut Input<'_>,
    room: u32,
) -> Result<Stmt, ParseError>
    ensures { Reads (reading rules room statements.set_statement input.old.rest.now) result
        input.new.rest.now }
{
    let anchor = set_word(input, room)?;
    let assignment = assignment(alloc, input, room)?;
    Ok(Stmt::Set(anchor, assignment))
}

/// INTO with its targets.
#[tactic(auto, unfolding(grammar_sql::specs::Statements::targets))]
pub(crate) fn targets(
    alloc: Global,
    input: &mut Input<'_>,
    room: u32,
) -> Result<Items<Ident>, ParseError>
    ensures { Reads (reading rules room statements.targets input.old.rest.now) result
        input.new.rest.now }
{
    input.expect(TokenKind::Word(Word::Into))?;
    idents(alloc, input, room)
}

// The targets of SELECT INTO, the items of FROM, the condition of WHERE, and the grouping.
type StoredParts = (
    Items<Ident>,
    (
        Items<FromItem>,
        (Option<Expr>, (Items<ColumnName>, Option<Expr>)),
    ),
);

// INTO with its targets, and what stands after them.
fn stored(alloc: Global, input: &mut Input<'_>, room: u32) -> Result<StoredParts, ParseError>
    ensures { Reads (reading rules room (statements.targets ~ queries.from_clause ~ queries.filter ~
        queries.grouping) input.old.rest.now) result input.new.rest.now }
{
    let targets = targets(alloc, input, room)?;
    let tables = table_expression(alloc, input, room)?;
    Ok((targets, tables))
}

/// SELECT with the targets of its one row.
#[tactic(auto, unfolding(grammar_sql::specs::Statements::select_into))]
pub(crate) fn select_into(
    alloc: Global,
    input: &mut Input<'_>,
    room: u32,
) -> Result<SelectInto, ParseError>
    ensures { Reads (reading rules room statements.select_into input.old.rest.now) result
        input.new.rest.now }
{
    let anchor = select_word(input, room)?;
    let items = select_list(alloc, input, room)?;
    let parts = stored(alloc, input, room)?;
    Ok(selected_into(anchor, items, parts))
}
