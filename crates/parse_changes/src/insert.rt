//! INSERT.

ghost use Rattle.std.specs.Prelude.{◌≡◌};
ghost use Rattle.grammar_algebra.specs.Notation.{◌~◌};
ghost use Rattle.grammar_algebra.specs.Reading.{reading};
ghost use Rattle.grammar_algebra.specs.Reads.{Reads};
ghost use Rattle.grammar_sql.specs.Queries as queries;
ghost use Rattle.grammar_sql.specs.Writing as writing;
ghost use Rattle.grammar_sql.specs.Sql.{rules};

use grammar_algebra::{Input, ParseError};
use parse_expressions::{anchor_in, column_list, ident};
use parse_nodes::insert_of;
use parse_queries::query;
use sql_lex::{TokenKind, Word};
use sqlite_items::Items;
use statement_trees::Insert;
use std::alloc::Global;
use syntax_trees::{Anchor, Ident, Query};

// The columns that are listed, and the query whose rows are put in.
fn rows(
    alloc: Global,
    input: &mut Input<'_>,
    room: u32,
) -> Result<(Items<Ident>, Query), ParseError>
    ensures { Reads (reading rules room (queries.column_list ~ queries.query) input.old.rest.now)
        result input.new.rest.now }
{
    let columns = column_list(alloc, input, room)?;
    let source = query(alloc, input, room)?;
    Ok((columns, source))
}

// A table, and what is put into it.
#[tactic(auto, unfolding(grammar_sql::specs::Writing::insertion))]
fn insertion(
    alloc: Global,
    input: &mut Input<'_>,
    room: u32,
) -> Result<(Ident, (Items<Ident>, Query)), ParseError>
    ensures { Reads (reading rules room writing.insertion input.old.rest.now) result
        input.new.rest.now }
{
    let table = ident(input, room)?;
    let rows = rows(alloc, input, room)?;
    Ok((table, rows))
}

#[tactic(auto, unfolding(grammar_sql::specs::Writing::into_table))]
fn into_table(
    alloc: Global,
    input: &mut Input<'_>,
    room: u32,
) -> Result<(Ident, (Items<Ident>, Query)), ParseError>
    ensures { Reads (reading rules room writing.into_table input.old.rest.now) result
        input.new.rest.now }
{
    input.expect(TokenKind::Word(Word::Into))?;
    insertion(alloc, input, room)
}

#[tactic(auto, unfolding(grammar_sql::specs::Writing::insert_word))]
fn insert_word(input: &mut Input<'_>, room: u32) -> Result<Anchor, ParseError>
    ensures { Reads (reading rules room writing.insert_word input.old.rest.now) result
        input.new.rest.now }
{
    let token = input.expect(TokenKind::Word(Word::Insert))?;
    Ok(anchor_in(token))
}

/// INSERT with its table, its columns and its source.
#[tactic(auto, unfolding(grammar_sql::specs::Writing::insert))]
pub(crate) fn insert(alloc: Global, input: &mut Input<'_>, room: u32) -> Result<Insert, ParseError>
    ensures { Reads (reading rules room writing.insert input.old.rest.now) result input.new.rest.now }
{
    let anchor = insert_word(input, room)?;
    let insertion = into_table(alloc, input, room)?;
    Ok(insert_of(anchor, insertion))
}
