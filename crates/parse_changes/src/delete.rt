//! DELETE.

ghost use Rattle.std.specs.Prelude.{◌≡◌};
ghost use Rattle.grammar_algebra.specs.Reading.{reading};
ghost use Rattle.grammar_algebra.specs.Reads.{Reads};
ghost use Rattle.grammar_sql.specs.Writing as writing;
ghost use Rattle.grammar_sql.specs.Sql.{rules};

use crate::filter::filter;
use grammar_algebra::{Input, ParseError};
use parse_expressions::{anchor_in, ident};
use sql_lex::{TokenKind, Word};
use statement_trees::Delete;
use std::alloc::Global;
use syntax_trees::{Anchor, Ident};

#[tactic(auto, unfolding(grammar_sql::specs::Writing::from_table))]
fn from_table(input: &mut Input<'_>, room: u32) -> Result<Ident, ParseError>
    ensures { Reads (reading rules room writing.from_table input.old.rest.now) result
        input.new.rest.now }
{
    input.expect(TokenKind::Word(Word::From))?;
    ident(input, room)
}

#[tactic(auto, unfolding(grammar_sql::specs::Writing::delete_word))]
fn delete_word(input: &mut Input<'_>, room: u32) -> Result<Anchor, ParseError>
    ensures { Reads (reading rules room writing.delete_word input.old.rest.now) result
        input.new.rest.now }
{
    let token = input.expect(TokenKind::Word(Word::Delete))?;
    Ok(anchor_in(token))
}

/// DELETE with its table and its condition.
#[tactic(auto, unfolding(grammar_sql::specs::Writing::delete))]
pub(crate) fn delete(alloc: Global, input: &mut Input<'_>, room: u32) -> Result<Delete, ParseError>
    ensures { Reads (reading rules room writing.delete input.old.rest.now) result input.new.rest.now }
{
    let anchor = delete_word(input, room)?;
    let table = from_table(input, room)?;
    let filter = filter(alloc, input, room)?;
    Ok(Delete {
        anchor,
        table,
        filter,
    })
}
