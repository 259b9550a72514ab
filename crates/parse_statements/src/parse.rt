//! A statement in a list of tokens.

ghost use Rattle.std.specs.Prelude.{◌≡◌, ◌<◌, ◌≤◌, ◌-◌, false, length, IfOk};
ghost use Rattle.sql_lex.specs.Openings.{follows_end};
ghost use Rattle.grammar_algebra.specs.Statement.{PartAnswers, Answers, most_open};
ghost use Rattle.grammar_sql.specs.Definitions as definitions;
ghost use Rattle.grammar_sql.specs.Sql as sql;
ghost use Rattle.grammar_sql.specs.Constructs.{DeepExactly};
ghost use Rattle.grammar_sql.specs.Sql.{rules};

use crate::routines::ddl;
use crate::script::statement;
use grammar_algebra::{Input, MOST_OPEN, ParseFault};
use parse_answers::{answered, room_left};
use sql_lex::Tokens;
use statement_trees::Stmt;
use std::alloc::Global;

/// The statement that stands from a token on, up to and with its `;`, and the token after it.
/// NoStatement and TooDeep: none stands there; the place is the greatest up to which the tokens
/// begin a statement, and TooDeep says that the token there opens one construct more than may be
/// open, and goes on with the statement. By the tokens alone, a word right after END opens nothing:
/// so `deep`, which counts by them, speaks of statements that do not stand right after END.
pub fn parse_statement(
    alloc: Global,
    tokens: &Tokens,
    at: usize,
) -> Result<(Stmt, usize), ParseFault>
    requires { at ≤ length tokens.now.tokens }
    ensures answers { Answers rules most_open sql.statement tokens.now.tokens at result }
    ensures deep { follows_end tokens.now.tokens at ≡ false →
        DeepExactly rules most_open sql.statement tokens.now.tokens at result }
    ensures goes { IfOk result (λ r. (at < r.1) × (r.1 ≤ length tokens.now.tokens)) }
{
    let all = tokens.as_slice();
    let mut input = Input::from_place(all, at);
    let read = statement(alloc, &mut input, MOST_OPEN);
    let place = input.place_in(all);
    answered(read, place)
}

/// The statement of data definition that stands from a token on, without its `;`, where so many
/// constructs are open before it, and the token after it. With k the greatest place up to which the
/// tokens begin one: TooDeep(k) where the token there opens one construct more than may be open and
/// goes on, else Ok where a whole one ends at k, else NoStatement(k).
pub fn parse_ddl(
    alloc: Global,
    tokens: &Tokens,
    at: usize,
    already_open: u32,
) -> Result<(Stmt, usize), ParseFault>
    requires there { at ≤ length tokens.now.tokens }
    requires room { already_open ≤ most_open }
    ensures answers { PartAnswers rules (most_open - already_open) definitions.ddl tokens.now.tokens
        at result }
    ensures deep { DeepExactly rules (most_open - already_open) definitions.ddl tokens.now.tokens at
        result }
{
    let all = tokens.as_slice();
    let mut input = Input::from_place(all, at);
    let room = room_left(already_open);
    let read = ddl(alloc, &mut input, room);
    let place = input.place_in(all);
    answered(read, place)
}
