//! LEAVE, ITERATE and RETURN.

ghost use Rattle.std.specs.Prelude.{◌≡◌};
ghost use Rattle.grammar_algebra.specs.Reading.{reading};
ghost use Rattle.grammar_algebra.specs.Reads.{Reads};
ghost use Rattle.grammar_sql.specs.Statements as statements;
ghost use Rattle.grammar_sql.specs.Sql.{rules};

use grammar_algebra::{Input, ParseError};
use parse_expressions::{anchor_in, ident};
use parse_queries::expr;
use sql_lex::{TokenKind, Word};
use statement_trees::Stmt;
use std::alloc::Global;
use syntax_trees::Anchor;

#[tactic(auto, unfolding(grammar_sql::specs::Statements::leave_word))]
fn leave_word(input: &mut Input<'_>, room: u32) -> Result<Anchor, ParseError>
    ensures { Reads (reading rules room statements.leave_word input.old.rest.now) result
        input.new.rest.now }
{
    let token = input.expect(TokenKind::Word(Word::Leave))?;
    Ok(anchor_in(token))
}

#[tactic(auto, unfolding(grammar_sql::specs::Statements::leave_statement))]
fn leave_statement(input: &mut Input<'_>, room: u32) -> Result<Stmt, ParseError>
    ensures { Reads (reading rules room statements.leave_statement input.old.rest.now) result
        input.new.rest.now }
{
    let anchor = leave_word(input, room)?;
    let label = ident(input, room)?;
    Ok(Stmt::Leave(anchor, label))
}

#[tactic(auto, unfolding(grammar_sql::specs::Statements::iterate_word))]
fn iterate_word(input: &mut Input<'_>, room: u32) -> Result<Anchor, ParseError>
    ensures { Reads (reading rules room statements.iterate_word input.old.rest.now) result
        input.new.rest.now }
{
    let token = input.expect(TokenKind::Word(Word::Iterate))?;
    Ok(anchor_in(token))
}

#[tactic(auto, unfolding(grammar_sql::specs::Statements::iterate_statement))]
fn iterate_statement(input: &mut Input<'_>, room: u32) -> Result<Stmt, ParseError>
    ensures { Reads (reading rules room statements.iterate_statement input.old.rest.now) result
        input.new.rest.now }
{
    let anchor = iterate_word(input, room)?;
    let label = ident(input, room)?;
    Ok(Stmt::Iterate(anchor, label))
}

#[tactic(auto, unfolding(grammar_sql::specs::Statements::return_word))]
fn return_word(input: &mut Input<'_>, room: u32) -> Result<Anchor, ParseError>
    ensures { Reads (reading rules room statements.return_word input.old.rest.now) result
        input.new.rest.now }
{
    let token = input.expect(TokenKind::Word(Word::Return))?;
    Ok(anchor_in(token))
}

#[tactic(auto, unfolding(grammar_sql::specs::Statements::return_statement))]
fn return_statement(alloc: Global, input: &mut Input<'_>, room: u32) -> Result<Stmt, ParseError>
    ensures { Reads (reading rules room statements.return_statement input.old.rest.now) result
        input.new.rest.now }
{
    let anchor = return_word(input, room)?;
    let value = expr(alloc, input, room)?;
    Ok(Stmt::Return(anchor, value))
}

/// LEAVE, ITERATE or RETURN.
#[tactic(auto, unfolding(grammar_sql::specs::Statements::leaving, grammar_sql::specs::Statements::leave_statement, grammar_sql::specs::Statements::leave_word, grammar_sql::specs::Statements::iterate_statement, grammar_sql::specs::Statements::iterate_word))]
pub(crate) fn leaving(alloc: Global, input: &mut Input<'_>, room: u32) -> Result<Stmt, ParseError>
    ensures { Reads (reading rules room statements.leaving input.old.rest.now) result
        input.new.rest.now }
{
    if input.sees(TokenKind::Word(Word::Leave)) {
        return leave_statement(input, room);
    }
    if input.sees(TokenKind::Word(Word::Iterate)) {
        return iterate_statement(input, room);
    }
    return_statement(alloc, input, room)
}
