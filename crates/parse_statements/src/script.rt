//! The statements of a script.

ghost use Rattle.std.specs.Prelude.{◌≡◌};
ghost use Rattle.grammar_algebra.specs.Reading.{reading};
ghost use Rattle.grammar_algebra.specs.Reads.{Reads};
ghost use Rattle.grammar_sql.specs.Statements as statements;
ghost use Rattle.grammar_sql.specs.Sql as sql;
ghost use Rattle.grammar_sql.specs.Sql.{rules};

use crate::begins::begins_ordered_query;
use crate::routines::{begins_ddl, ddl};
use grammar_algebra::{Input, ParseError};
use grammar_sql::StructureWord;
use parse_answers::semicolon_after;
use parse_bodies::{labelled_of, structure};
use parse_changes::{begins_dml, call, dml, explain};
use parse_queries::ordered_query;
use parse_reads::paired;
use parse_simple::if_label;
use sql_lex::{TokenKind, Word};
use statement_trees::{Labelled, Stmt};
use std::alloc::Global;

// A compound statement, with its labels.
#[tactic(auto, unfolding(grammar_sql::specs::Statements::labelled_block))]
fn labelled_block(alloc: Global, input: &mut Input<'_>, room: u32) -> Result<Labelled, ParseError>
    ensures { Reads (reading rules room statements.labelled_block input.old.rest.now) result
        input.new.rest.now }
{
    let label = if_label(input, room)?;
    let parts = structure(alloc, input, room, StructureWord::Begin);
    let (label, parts) = paired(label, parts)?;
    Ok(labelled_of(label, parts))
}

// What is neither of data definition nor changes data.
#[tactic(auto, unfolding(grammar_sql::specs::Sql::other_statement, grammar_sql::specs::Sql::explain, grammar_sql::specs::Sql::explain_word, grammar_sql::specs::Writing::call, grammar_sql::specs::Writing::call_word))]
fn other_statement(alloc: Global, input: &mut Input<'_>, room: u32) -> Result<Stmt, ParseError>
    ensures { Reads (reading rules room sql.other_statement input.old.rest.now) result
        input.new.rest.now }
{
    if begins_ordered_query(input) {
        return Ok(Stmt::Query(ordered_query(alloc, input, room)?));
    }
    if input.sees(TokenKind::Word(Word::Explain)) {
        return explain(alloc, input, room);
    }
    if input.sees(TokenKind::Word(Word::Call)) {
        return Ok(Stmt::Call(call(alloc, input, room)?));
    }
    Ok(Stmt::Labelled(labelled_block(alloc, input, room)?))
}

// A statement without its semicolon.
#[tactic(auto, unfolding(grammar_sql::specs::Sql::unended))]
fn unended(alloc: Global, input: &mut Input<'_>, room: u32) -> Result<Stmt, ParseError>
    ensures { Reads (reading rules room sql.unended input.old.rest.now) result input.new.rest.now }
{
    if begins_ddl(input) {
        return ddl(alloc, input, room);
    }
    if begins_dml(input) {
        return dml(alloc, input, room);
    }
    other_statement(alloc, input, room)
}

/// A statement with its semicolon, by the rule `statement`. On Ok the input stands after it, else
/// at the token that does not go on.
#[tactic(auto, unfolding(grammar_sql::specs::Sql::statement))]
pub(crate) fn statement(alloc: Global, input: &mut Input<'_>, room: u32) -> Result<Stmt, ParseError>
    ensures { Reads (reading rules room sql.statement input.old.rest.now) result input.new.rest.now }
{
    let tree = unended(alloc, input, room)?;
    semicolon_after(input, tree)
}
