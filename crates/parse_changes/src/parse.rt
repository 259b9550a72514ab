//! A query, or a statement that changes data, in a list of tokens.

ghost use Rattle.std.specs.Prelude.{◌≡◌, ◌≤◌, ◌-◌, length};
ghost use Rattle.grammar_algebra.specs.Statement.{PartAnswers, most_open};
ghost use Rattle.grammar_sql.specs.Queries as queries;
ghost use Rattle.grammar_sql.specs.Writing as writing;
ghost use Rattle.grammar_sql.specs.Constructs.{DeepExactly};
ghost use Rattle.grammar_sql.specs.Sql.{rules};

use crate::simple::dml;
use grammar_algebra::{Input, ParseFault};
use parse_answers::{answered, room_left};
use parse_queries::query;
use sql_lex::Tokens;
use statement_trees::Stmt;
use std::alloc::Global;
use syntax_trees::Query;

/// The query that stands from a token on, where so many constructs are open before it, and the
/// token after it. With k the greatest place up to which the tokens begin a query: TooDeep(k) where
/// the token there opens one construct more than may be open and goes on, else Ok where a whole
/// query ends at k, else NoStatement(k).
pub fn parse_query(
    alloc: Global,
    tokens: &Tokens,
    at: usize,
    already_open: u32,
) -> Result<(Query, usize), ParseFault>
    requires there { at ≤ length tokens.now.tokens }
    requires room { already_open ≤ most_open }
    ensures answers { PartAnswers rules (most_open - already_open) queries.query tokens.now.tokens
        at result }
    ensures deep { DeepExactly rules (most_open - already_open) queries.query tokens.now.tokens at
        result }
{
    let all = tokens.as_slice();
    let mut input = Input::from_place(all, at);
    let room = room_left(already_open);
    let read = query(alloc, &mut input, room);
    let place = input.place_in(all);
    answered(read, place)
}

/// The same for a statement that changes data, without its `;`.
pub fn parse_dml(
    alloc: Global,
    tokens: &Tokens,
    at: usize,
    already_open: u32,
) -> Result<(Stmt, usize), ParseFault>
    requires there { at ≤ length tokens.now.tokens }
    requires room { already_open ≤ most_open }
    ensures answers { PartAnswers rules (most_open - already_open) writing.dml tokens.now.tokens at
        result }
    ensures deep { DeepExactly rules (most_open - already_open) writing.dml tokens.now.tokens at
        result }
{
    let all = tokens.as_slice();
    let mut input = Input::from_place(all, at);
    let room = room_left(already_open);
    let read = dml(alloc, &mut input, room);
    let place = input.place_in(all);
    answered(read, place)
}
