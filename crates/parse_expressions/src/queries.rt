//! The parts of queries that hold no expression.

ghost use Rattle.std.specs.Prelude.{◌≡◌};
ghost use Rattle.grammar_algebra.specs.Notation.{◌~◌};
ghost use Rattle.grammar_algebra.specs.Reading.{begins, first, reading};
ghost use Rattle.grammar_algebra.specs.Reads.{Reads};
ghost use Rattle.grammar_sql.specs.Queries as queries;
ghost use Rattle.grammar_sql.specs.Sql.{rules};

use crate::names::{alias, column_list, column_names};
use crate::place::anchor_in;
use grammar_algebra::{Input, ParseError};
use sql_lex::{Sign, TokenKind, Word};
use sqlite_items::Items;
use std::alloc::Global;
use syntax_trees::{Anchor, ColumnName, Ident};

// ---- the words that queries begin with

/// The word SELECT, by the rule `select_word`. On Ok the input stands after it, else at the token
/// that is another.
#[tactic(auto, unfolding(grammar_sql::specs::Queries::select_word))]
pub fn select_word(input: &mut Input<'_>, room: u32) -> Result<Anchor, ParseError>
    ensures { Reads (reading rules room queries.select_word input.old.rest.now) result
        input.new.rest.now }
{
    let token = input.expect(TokenKind::Word(Word::Select))?;
    Ok(anchor_in(token))
}

/// The word VALUES, by the rule `values_word`. On Ok the input stands after it, else at the token
/// that is another.
#[tactic(auto, unfolding(grammar_sql::specs::Queries::values_word))]
pub fn values_word(input: &mut Input<'_>, room: u32) -> Result<Anchor, ParseError>
    ensures { Reads (reading rules room queries.values_word input.old.rest.now) result
        input.new.rest.now }
{
    let token = input.expect(TokenKind::Word(Word::Values))?;
    Ok(anchor_in(token))
}

// ---- FROM

/// Whether an item of FROM goes on with those before it. It reads nothing.
#[tactic(auto, unfolding(grammar_sql::specs::Queries::from_item, grammar_sql::specs::Queries::comma_item, grammar_sql::specs::Queries::cross_join, grammar_sql::specs::Queries::left_join, grammar_sql::specs::Queries::inner_join, grammar_sql::specs::Queries::joined_on))]
pub fn begins_from_item(input: &Input<'_>) -> bool
    ensures { result ≡ begins (first queries.from_item) input.now.rest.now }
{
    input.sees_any(&[
        TokenKind::Sign(Sign::Comma),
        TokenKind::Word(Word::Cross),
        TokenKind::Word(Word::Left),
        TokenKind::Word(Word::Inner),
        TokenKind::Word(Word::Join),
    ])
}

/// The name of a derived table, and the names of its columns, of which there are none where none
/// are written (ISO/IEC 9075-2, 7.6), by the rules `alias` and `column_list`. On Ok the input
/// stands after them, else at the token that does not go on.
pub fn naming(
    alloc: Global,
    input: &mut Input<'_>,
    room: u32,
) -> Result<(Ident, Items<Ident>), ParseError>
    ensures { Reads (reading rules room (queries.alias ~ queries.column_list) input.old.rest.now)
        result input.new.rest.now }
{
    let name = alias(input, room)?;
    let columns = column_list(alloc, input, room)?;
    Ok((name, columns))
}

// ---- GROUP BY

// GROUP BY with its columns.
#[tactic(auto, unfolding(grammar_sql::specs::Queries::group_clause))]
fn group_clause(
    alloc: Global,
    input: &mut Input<'_>,
    room: u32,
) -> Result<Items<ColumnName>, ParseError>
    ensures { Reads (reading rules room queries.group_clause input.old.rest.now) result
        input.new.rest.now }
{
    input.expect(TokenKind::Word(Word::Group))?;
    input.expect(TokenKind::Word(Word::By))?;
    column_names(alloc, input, room)
}

/// GROUP BY with its columns (ISO/IEC 9075-2, 7.13), or no column where no GROUP BY stands here, by
/// the rule `group_by`. On Ok the input stands after the last column, if there is one, else at the
/// token that does not go on.
#[tactic(auto, unfolding(grammar_sql::specs::Queries::group_by, grammar_sql::specs::Queries::group_clause))]
pub fn group_by(
    alloc: Global,
    input: &mut Input<'_>,
    room: u32,
) -> Result<Items<ColumnName>, ParseError>
    ensures { Reads (reading rules room queries.group_by input.old.rest.now) result
        input.new.rest.now }
{
    if input.sees(TokenKind::Word(Word::Group)) {
        group_clause(alloc, input, room)
    } else {
        Ok(Items::new(alloc))
    }
}
