//! WHERE of a statement that changes data.

ghost use Rattle.std.specs.Prelude.{◌≡◌};
ghost use Rattle.grammar_algebra.specs.Reading.{reading};
ghost use Rattle.grammar_algebra.specs.Reads.{Reads};
ghost use Rattle.grammar_sql.specs.Queries as queries;
ghost use Rattle.grammar_sql.specs.Sql.{rules};

use grammar_algebra::{Input, ParseError};
use parse_queries::if_after;
use sql_lex::{TokenKind, Word};
use std::alloc::Global;
use syntax_trees::Expr;

/// The condition of WHERE, if WHERE stands here.
#[tactic(auto, unfolding(grammar_sql::specs::Queries::filter))]
pub(crate) fn filter(
    alloc: Global,
    input: &mut Input<'_>,
    room: u32,
) -> Result<Option<Expr>, ParseError>
    ensures { Reads (reading rules room queries.filter input.old.rest.now) result input.new.rest.now }
{
    if_after(alloc, input, room, TokenKind::Word(Word::Where))
}
