//! OPEN, CLOSE and FETCH.

ghost use Rattle.std.specs.Prelude.{◌≡◌};
ghost use Rattle.grammar_algebra.specs.Reading.{begins, first, reading};
ghost use Rattle.grammar_algebra.specs.Reads.{Reads};
ghost use Rattle.grammar_sql.specs.Statements as statements;
ghost use Rattle.grammar_sql.specs.Sql.{rules};

use crate::targets::targets;
use grammar_algebra::{Input, ParseError};
use parse_expressions::{anchor_in, ident};
use parse_nodes::fetch_of;
use sql_lex::{TokenKind, Word};
use statement_trees::{Fetch, Stmt};
use std::alloc::Global;
use syntax_trees::{Anchor, Ident};

#[tactic(auto, unfolding(grammar_sql::specs::Statements::open_word))]
fn open_word(input: &mut Input<'_>, room: u32) -> Result<Anchor, ParseError>
    ensures { Reads (reading rules room statements.open_word input.old.rest.now) result
        input.new.rest.now }
{
    let token = input.expect(TokenKind::Word(Word::Open))?;
    Ok(anchor_in(token))
}

#[tactic(auto, unfolding(grammar_sql::specs::Statements::open_statement))]
fn open_statement(input: &mut Input<'_>, room: u32) -> Result<Stmt, ParseError>
    ensures { Reads (reading rules room statements.open_statement input.old.rest.now) result
        input.new.rest.now }
{
    let anchor = open_word(input, room)?;
    let cursor = ident(input, room)?;
    Ok(Stmt::Open(anchor, cursor))
}

#[tactic(auto, unfolding(grammar_sql::specs::Statements::close_word))]
fn close_word(input: &mut Input<'_>, room: u32) -> Result<Anchor, ParseError>
    ensures { Reads (reading rules room statements.close_word input.old.rest.now) result
        input.new.rest.now }
{
    let token = input.expect(TokenKind::Word(Word::Close))?;
    Ok(anchor_in(token))
}

#[tactic(auto, unfolding(grammar_sql::specs::Statements::close_statement))]
fn close_statement(input: &mut Input<'_>, room: u32) -> Result<Stmt, ParseError>
    ensures { Reads (reading rules room statements.close_statement input.old.rest.now) result
        input.new.rest.now }
{
    let anchor = close_word(input, room)?;
    let cursor = ident(input, room)?;
    Ok(Stmt::Close(anchor, cursor))
}

// A cursor, perhaps after FROM or NEXT FROM, which change nothing.
#[tactic(auto, unfolding(grammar_sql::specs::Statements::fetched_cursor, grammar_sql::specs::Statements::fetch_orientation))]
fn fetched_cursor(input: &mut Input<'_>, room: u32) -> Result<Ident, ParseError>
    ensures { Reads (reading rules room statements.fetched_cursor input.old.rest.now) result
        input.new.rest.now }
{
    if input.sees_any(&[TokenKind::Word(Word::Next), TokenKind::Word(Word::From)]) {
        input.eat(TokenKind::Word(Word::Next));
        input.expect(TokenKind::Word(Word::From))?;
        return ident(input, room);
    }
    ident(input, room)
}

#[tactic(auto, unfolding(grammar_sql::specs::Statements::fetch_word))]
fn fetch_word(input: &mut Input<'_>, room: u32) -> Result<Anchor, ParseError>
    ensures { Reads (reading rules room statements.fetch_word input.old.rest.now) result
        input.new.rest.now }
{
    let token = input.expect(TokenKind::Word(Word::Fetch))?;
    Ok(anchor_in(token))
}

#[tactic(auto, unfolding(grammar_sql::specs::Statements::fetch))]
fn fetch(alloc: Global, input: &mut Input<'_>, room: u32) -> Result<Fetch, ParseError>
    ensures { Reads (reading rules room statements.fetch input.old.rest.now) result
        input.new.rest.now }
{
    let anchor = fetch_word(input, room)?;
    let cursor = fetched_cursor(input, room)?;
    let targets = targets(alloc, input, room)?;
    Ok(fetch_of(anchor, cursor, targets))
}

/// OPEN, CLOSE or FETCH.
#[tactic(auto, unfolding(grammar_sql::specs::Statements::cursor_statement, grammar_sql::specs::Statements::open_statement, grammar_sql::specs::Statements::open_word, grammar_sql::specs::Statements::close_statement, grammar_sql::specs::Statements::close_word))]
pub(crate) fn cursor_statement(
    alloc: Global,
    input: &mut Input<'_>,
    room: u32,
) -> Result<Stmt, ParseError>
    ensures { Reads (reading rules room statements.cursor_statement input.old.rest.now) result
        input.new.rest.now }
{
    if input.sees(TokenKind::Word(Word::Open)) {
        return open_statement(input, room);
    }
    if input.sees(TokenKind::Word(Word::Close)) {
        return close_statement(input, room);
    }
    Ok(Stmt::Fetch(fetch(alloc, input, room)?))
}

/// Whether one of them begins.
#[tactic(auto, unfolding(grammar_sql::specs::Statements::cursor_statement, grammar_sql::specs::Statements::open_statement, grammar_sql::specs::Statements::open_word, grammar_sql::specs::Statements::close_statement, grammar_sql::specs::Statements::close_word, grammar_sql::specs::Statements::fetch, grammar_sql::specs::Statements::fetch_word))]
pub(crate) fn begins_cursor_statement(input: &Input<'_>) -> bool
    ensures { result ≡ begins (first statements.cursor_statement) input.now.rest.now }
{
    input.sees_any(&[
        TokenKind::Word(Word::Open),
        TokenKind::Word(Word::Close),
        TokenKind::Word(Word::Fetch),
    ])
}
