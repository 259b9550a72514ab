//! Statements that hold no other statement.

ghost use Rattle.std.specs.Prelude.{◌≡◌};
ghost use Rattle.grammar_algebra.specs.Reading.{begins, first, reading};
ghost use Rattle.grammar_algebra.specs.Reads.{Reads};
ghost use Rattle.grammar_sql.specs.Statements as statements;
ghost use Rattle.grammar_sql.specs.Writing as writing;
ghost use Rattle.grammar_sql.specs.Sql.{rules};

use crate::calls::call;
use crate::conditions::{resignal, signal};
use crate::cursors::{begins_cursor_statement, cursor_statement};
use crate::delete::delete;
use crate::insert::insert;
use crate::leaving::leaving;
use crate::targets::{select_into, set_statement};
use crate::update::update;
use grammar_algebra::{Input, ParseError};
use parse_simple::get_diagnostics;
use sql_lex::{TokenKind, Word};
use statement_trees::Stmt;
use std::alloc::Global;

// ---- what stores

/// A statement that changes data (ISO/IEC 9075-2, 14.9, 14.11 and 14.14), by the rule `dml`. On Ok
/// the input stands after it, else at the token that does not go on.
#[tactic(auto, unfolding(grammar_sql::specs::Writing::dml, grammar_sql::specs::Writing::insert, grammar_sql::specs::Writing::insert_word, grammar_sql::specs::Writing::update, grammar_sql::specs::Writing::update_word))]
pub fn dml(alloc: Global, input: &mut Input<'_>, room: u32) -> Result<Stmt, ParseError>
    ensures { Reads (reading rules room writing.dml input.old.rest.now) result input.new.rest.now }
{
    if input.sees(TokenKind::Word(Word::Insert)) {
        return Ok(Stmt::Insert(insert(alloc, input, room)?));
    }
    if input.sees(TokenKind::Word(Word::Update)) {
        return Ok(Stmt::Update(update(alloc, input, room)?));
    }
    Ok(Stmt::Delete(delete(alloc, input, room)?))
}

/// Whether such a statement begins. It reads nothing.
#[tactic(auto, unfolding(grammar_sql::specs::Writing::dml, grammar_sql::specs::Writing::insert, grammar_sql::specs::Writing::insert_word, grammar_sql::specs::Writing::update, grammar_sql::specs::Writing::update_word, grammar_sql::specs::Writing::delete, grammar_sql::specs::Writing::delete_word))]
pub fn begins_dml(input: &Input<'_>) -> bool
    ensures { result ≡ begins (first writing.dml) input.now.rest.now }
{
    input.sees_any(&[
        TokenKind::Word(Word::Insert),
        TokenKind::Word(Word::Update),
        TokenKind::Word(Word::Delete),
    ])
}

#[tactic(auto, unfolding(grammar_sql::specs::Statements::storing, grammar_sql::specs::Writing::call, grammar_sql::specs::Writing::call_word, grammar_sql::specs::Statements::set_statement, grammar_sql::specs::Statements::set_word))]
fn storing(alloc: Global, input: &mut Input<'_>, room: u32) -> Result<Stmt, ParseError>
    ensures { Reads (reading rules room statements.storing input.old.rest.now) result
        input.new.rest.now }
{
    if begins_dml(input) {
        return dml(alloc, input, room);
    }
    if input.sees(TokenKind::Word(Word::Call)) {
        return Ok(Stmt::Call(call(alloc, input, room)?));
    }
    if input.sees(TokenKind::Word(Word::Set)) {
        return set_statement(alloc, input, room);
    }
    Ok(Stmt::SelectInto(select_into(alloc, input, room)?))
}

#[tactic(auto, unfolding(grammar_sql::specs::Statements::storing, grammar_sql::specs::Writing::dml, grammar_sql::specs::Writing::insert, grammar_sql::specs::Writing::insert_word, grammar_sql::specs::Writing::update, grammar_sql::specs::Writing::update_word, grammar_sql::specs::Writing::delete, grammar_sql::specs::Writing::delete_word, grammar_sql::specs::Writing::call, grammar_sql::specs::Writing::call_word, grammar_sql::specs::Statements::set_statement, grammar_sql::specs::Statements::set_word, grammar_sql::specs::Statements::select_into, grammar_sql::specs::Queries::select_word))]
fn begins_storing(input: &Input<'_>) -> bool
    ensures { result ≡ begins (first statements.storing) input.now.rest.now }
{
    input.sees_any(&[
        TokenKind::Word(Word::Insert),
        TokenKind::Word(Word::Update),
        TokenKind::Word(Word::Delete),
        TokenKind::Word(Word::Call),
        TokenKind::Word(Word::Set),
        TokenKind::Word(Word::Select),
    ])
}

// ---- what raises conditions, and reads them

// SIGNAL, RESIGNAL or GET DIAGNOSTICS.
#[tactic(auto, unfolding(grammar_sql::specs::Statements::condition_statement, grammar_sql::specs::Conditions::signal, grammar_sql::specs::Conditions::signal_word, grammar_sql::specs::Conditions::resignal, grammar_sql::specs::Conditions::resignal_word))]
fn condition_statement(alloc: Global, input: &mut Input<'_>, room: u32) -> Result<Stmt, ParseError>
    ensures { Reads (reading rules room statements.condition_statement input.old.rest.now) result
        input.new.rest.now }
{
    if input.sees(TokenKind::Word(Word::Signal)) {
        return Ok(Stmt::Signal(signal(alloc, input, room)?));
    }
    if input.sees(TokenKind::Word(Word::Resignal)) {
        return Ok(Stmt::Resignal(resignal(alloc, input, room)?));
    }
    Ok(Stmt::GetDiagnostics(get_diagnostics(alloc, input, room)?))
}

#[tactic(auto, unfolding(grammar_sql::specs::Statements::condition_statement, grammar_sql::specs::Conditions::signal, grammar_sql::specs::Conditions::signal_word, grammar_sql::specs::Conditions::resignal, grammar_sql::specs::Conditions::resignal_word, grammar_sql::specs::Conditions::get_diagnostics, grammar_sql::specs::Conditions::get_word))]
fn begins_condition_statement(input: &Input<'_>) -> bool
    ensures { result ≡ begins (first statements.condition_statement) input.now.rest.now }
{
    input.sees_any(&[
        TokenKind::Word(Word::Signal),
        TokenKind::Word(Word::Resignal),
        TokenKind::Word(Word::Get),
    ])
}

// ---- each of them

/// A statement that holds no other one, by the rule `simple_statement`: one that changes data,
/// CALL, SET or SELECT INTO (ISO/IEC 9075-4, 14.5, and ISO/IEC 9075-2, 14.7 and 15.1), OPEN, CLOSE
/// or FETCH (ISO/IEC 9075-2, 14.4 to 14.6), SIGNAL, RESIGNAL or GET DIAGNOSTICS (ISO/IEC 9075-4,
/// 17.2 and 17.3, and ISO/IEC 9075-2, 23.1), LEAVE, ITERATE or RETURN (ISO/IEC 9075-4, 14.8 and
/// 14.9, and ISO/IEC 9075-2, 15.2). On Ok the input stands after it, else at the token that does
/// not go on: where none of them begins, the token that stands here.
#[tactic(auto, unfolding(grammar_sql::specs::Statements::simple_statement))]
pub fn simple_statement(alloc: Global, input: &mut Input<'_>, room: u32) -> Result<Stmt, ParseError>
    ensures { Reads (reading rules room statements.simple_statement input.old.rest.now) result
        input.new.rest.now }
{
    if begins_storing(input) {
        return storing(alloc, input, room);
    }
    if begins_cursor_statement(input) {
        return cursor_statement(alloc, input, room);
    }
    if begins_condition_statement(input) {
        return condition_statement(alloc, input, room);
    }
    leaving(alloc, input, room)
}
