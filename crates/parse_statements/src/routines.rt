//! CREATE FUNCTION and CREATE PROCEDURE, and all definitions.

ghost use Rattle.std.specs.Prelude.{◌≡◌, IfOk};
ghost use Rattle.grammar_algebra.specs.Notation.{◌~◌};
ghost use Rattle.grammar_algebra.specs.Reading.{begins, first, reading};
ghost use Rattle.grammar_algebra.specs.Reads.{Reads};
ghost use Rattle.grammar_sql.specs.Definitions as definitions;
ghost use Rattle.grammar_sql.specs.Statements as statements;
ghost use Rattle.grammar_sql.specs.Trees as trees;
ghost use Rattle.grammar_sql.specs.Sql.{rules};

use grammar_algebra::{Input, ParseError};
use parse_bodies::stmt;
use parse_expressions::ident;
use parse_reads::paired;
use parse_simple::{
    bracketed_modal_parameters, bracketed_parameters, characteristics, create_table, create_word,
    drop_object, returns_type,
};
use sql_lex::{TokenKind, Word};
use sqlite_items::{Boxed, Items};
use statement_trees::{
    Characteristic, CreateFunction, CreateProcedure, CreateTable, Parameter, Stmt,
};
use std::alloc::{AllocError, Global};
use syntax_trees::{Anchor, DataType, Ident};

// The characteristics of a routine and its body; what a function is made of, and a procedure, each
// after its name and as a whole.
type DescribedParts = (Items<Characteristic>, Stmt);

type TypedParts = (DataType, DescribedParts);

type FunctionRest = (Items<Parameter>, TypedParts);

type FunctionParts = (Ident, FunctionRest);

type ProcedureRest = (Items<Parameter>, DescribedParts);

type ProcedureParts = (Ident, ProcedureRest);

fn described(alloc: Global, input: &mut Input<'_>, room: u32) -> Result<DescribedParts, ParseError>
    ensures { Reads (reading rules room (definitions.characteristics ~ statements.stmt)
        input.old.rest.now) result input.new.rest.now }
{
    let characteristics = characteristics(alloc, input, room)?;
    paired(characteristics, stmt(alloc, input, room))
}

// RETURNS with its type, and what stands after it.
fn typed(alloc: Global, input: &mut Input<'_>, room: u32) -> Result<TypedParts, ParseError>
    ensures { Reads (reading rules room (definitions.returns_type ~ definitions.characteristics ~
        statements.stmt) input.old.rest.now) result input.new.rest.now }
{
    let returns = returns_type(input, room)?;
    paired(returns, described(alloc, input, room))
}

fn function_rest(
    alloc: Global,
    input: &mut Input<'_>,
    room: u32,
) -> Result<FunctionRest, ParseError>
    ensures { Reads (reading rules room (trees.bracketed trees.Parameters ~ definitions.returns_type
        ~ definitions.characteristics ~ statements.stmt) input.old.rest.now) result
        input.new.rest.now }
{
    let parameters = bracketed_parameters(alloc, input, room)?;
    paired(parameters, typed(alloc, input, room))
}

#[tactic(auto, unfolding(grammar_sql::specs::Definitions::function_definition))]
fn function_definition(
    alloc: Global,
    input: &mut Input<'_>,
    room: u32,
) -> Result<FunctionParts, ParseError>
    ensures { Reads (reading rules room definitions.function_definition input.old.rest.now) result
        input.new.rest.now }
{
    let name = ident(input, room)?;
    paired(name, function_rest(alloc, input, room))
}

#[tactic(auto, unfolding(grammar_sql::specs::Definitions::create_function))]
fn create_function(
    alloc: Global,
    input: &mut Input<'_>,
    room: u32,
) -> Result<FunctionParts, ParseError>
    ensures { Reads (reading rules room definitions.create_function input.old.rest.now) result
        input.new.rest.now }
{
    input.expect(TokenKind::Word(Word::Function))?;
    function_definition(alloc, input, room)
}

fn procedure_rest(
    alloc: Global,
    input: &mut Input<'_>,
    room: u32,
) -> Result<ProcedureRest, ParseError>
    ensures { Reads
        (reading rules room (trees.bracketed trees.ModalParameters ~ definitions.characteristics ~
        statements.stmt) input.old.rest.now) result input.new.rest.now }
{
    let parameters = bracketed_modal_parameters(alloc, input, room)?;
    paired(parameters, described(alloc, input, room))
}

#[tactic(auto, unfolding(grammar_sql::specs::Definitions::procedure_definition))]
fn procedure_definition(
    alloc: Global,
    input: &mut Input<'_>,
    room: u32,
) -> Result<ProcedureParts, ParseError>
    ensures { Reads (reading rules room definitions.procedure_definition input.old.rest.now) result
        input.new.rest.now }
{
    let name = ident(input, room)?;
    paired(name, procedure_rest(alloc, input, room))
}

#[tactic(auto, unfolding(grammar_sql::specs::Definitions::create_procedure))]
fn create_procedure(
    alloc: Global,
    input: &mut Input<'_>,
    room: u32,
) -> Result<ProcedureParts, ParseError>
    ensures { Reads (reading rules room definitions.create_procedure input.old.rest.now) result
        input.new.rest.now }
{
    input.expect(TokenKind::Word(Word::Procedure))?;
    procedure_definition(alloc, input, room)
}

fn function_of(alloc: Global, parts: FunctionParts, anchor: Anchor) -> Result<Stmt, AllocError>
    ensures { IfOk result (λ s. s ≡ definitions.function_of parts anchor) }
{
    let (name, (parameters, (returns, (characteristics, body)))) = parts;
    let body = Boxed::new(alloc, body)?;
    Ok(Stmt::CreateFunction(CreateFunction {
        anchor,
        name,
        parameters,
        returns,
        characteristics,
        body,
    }))
}

fn procedure_of(alloc: Global, parts: ProcedureParts, anchor: Anchor) -> Result<Stmt, AllocError>
    ensures { IfOk result (λ s. s ≡ definitions.procedure_of parts anchor) }
{
    let (name, (parameters, (characteristics, body))) = parts;
    let body = Boxed::new(alloc, body)?;
    Ok(Stmt::CreateProcedure(CreateProcedure {
        anchor,
        name,
        parameters,
        characteristics,
        body,
    }))
}

// CREATE, and what it makes.
#[tactic(auto, unfolding(grammar_sql::specs::Definitions::create, grammar_sql::specs::Definitions::created, grammar_sql::specs::Definitions::create_table, grammar_sql::specs::Definitions::create_function))]
fn create(alloc: Global, input: &mut Input<'_>, room: u32) -> Result<Stmt, ParseError>
    ensures { Reads (reading rules room definitions.create input.old.rest.now) result
        input.new.rest.now }
{
    let anchor = create_word(input, room)?;
    if input.sees(TokenKind::Word(Word::Table)) {
        let table = create_table(alloc, input, room)?;
        return Ok(Stmt::CreateTable(CreateTable {
            anchor,
            name: table.0,
            elements: table.1,
        }));
    }
    if input.sees(TokenKind::Word(Word::Function)) {
        let function = create_function(alloc, input, room)?;
        return Ok(function_of(alloc, function, anchor)?);
    }
    let procedure = create_procedure(alloc, input, room)?;
    Ok(procedure_of(alloc, procedure, anchor)?)
}

/// A statement of data definition, by the rule `ddl`. On Ok the input stands after it, else at the
/// token that does not go on.
#[tactic(auto, unfolding(grammar_sql::specs::Definitions::ddl, grammar_sql::specs::Definitions::create, grammar_sql::specs::Definitions::create_word))]
pub(crate) fn ddl(alloc: Global, input: &mut Input<'_>, room: u32) -> Result<Stmt, ParseError>
    ensures { Reads (reading rules room definitions.ddl input.old.rest.now) result
        input.new.rest.now }
{
    if input.sees(TokenKind::Word(Word::Create)) {
        return create(alloc, input, room);
    }
    Ok(Stmt::Drop(drop_object(input, room)?))
}

/// Whether a statement of data definition begins.
#[tactic(auto, unfolding(grammar_sql::specs::Definitions::ddl, grammar_sql::specs::Definitions::create, grammar_sql::specs::Definitions::create_word, grammar_sql::specs::Definitions::drop_object, grammar_sql::specs::Definitions::drop_word))]
pub(crate) fn begins_ddl(input: &Input<'_>) -> bool
    ensures { result ≡ begins (first definitions.ddl) input.now.rest.now }
{
    input.sees_any(&[TokenKind::Word(Word::Create), TokenKind::Word(Word::Drop)])
}
