//! What CREATE FUNCTION and CREATE PROCEDURE make of a body with its names resolved.

ghost use Rattle.std.specs.Prelude.{◌≡◌, IfOk, OnOk};
ghost use Rattle.statement_trees.specs.declared.statement.CreateFunction.{out-CreateFunction};
ghost use Rattle.statement_trees.specs.declared.statement.CreateProcedure.{out-CreateProcedure};
ghost use Rattle.bind_faults.specs.Faults.{noted};
ghost use Rattle.bind_definitions.specs.Making as spec;

use crate::characteristics::{is_null_on_null, need_of, note_access};
use crate::routine::{calls, greatest_height, parameter_types, parameters_of, used_in};
use bind_faults::Fault;
use bind_kinds::{note_type, type_of};
use bind_rules::{height_above, note_height, note_taken, writes};
use bind_sight::{EnclosingRoutine, Scope};
use bound_trees::BoundStmt;
use catalog_store::{
    Catalog, DataAccess, FunctionHead, InterpretedFunction, Object, ParameterMode, Procedure,
    ProcedureHead,
};
use routine_form::{HEAVIEST, weight};
use sql_values::{Name, NoMemory};
use sqlite_items::Items;
use statement_trees::{
    Characteristic, CreateFunction, CreateProcedure, Parameter, ParameterMode as WrittenMode,
};
use std::alloc::Global;
use std::mem::drop;
use syntax_trees::Ident;

/// A routine's body with its names resolved, and the names that it uses.
#[derive(Drop)]
pub struct BoundBody {
    pub stmt: BoundStmt,
    pub uses: Items<Name>,
}

// ---- heads

/// The head of a function.
pub(crate) fn head_with(
    alloc: Global,
    create: &CreateFunction,
    access: DataAccess,
    height: u32,
    weight: u32,
    uses: Items<Name>,
) -> Result<FunctionHead, NoMemory>
    ensures { IfOk result (λ h. h ≡ spec.head_with (out-CreateFunction create.now) access height
        weight uses) }
{
    let parameters = parameter_types(alloc, create.parameters.as_slice())?;
    Ok(FunctionHead {
        parameters,
        returns: type_of(create.returns),
        access,
        height,
        weight,
        uses,
    })
}

fn mode_of(mode: WrittenMode) -> ParameterMode
    ensures { result ≡ spec.mode_of mode }
{
    match mode {
        WrittenMode::In => ParameterMode::In,
        WrittenMode::Out => ParameterMode::Out,
        WrittenMode::Inout => ParameterMode::Inout,
    }
}

fn modes_of(alloc: Global, parameters: &[Parameter]) -> Result<Items<ParameterMode>, NoMemory>
    ensures { IfOk result (λ ms. ms ≡ spec.modes_of parameters.now) }
{
    let mut modes = Items::new(alloc);
    for parameter in parameters {
        modes.push(mode_of(parameter.mode))?;
    }
    Ok(modes)
}

/// The head of a procedure.
pub fn procedure_head(
    alloc: Global,
    parameters: &[Parameter],
    access: DataAccess,
    height: u32,
    weight: u32,
    uses: Items<Name>,
) -> Result<ProcedureHead, NoMemory>
    ensures { IfOk result (λ h. h ≡ spec.procedure_head parameters.now access height weight uses) }
{
    let modes = modes_of(alloc, parameters)?;
    let parameters = parameter_types(alloc, parameters)?;
    Ok(ProcedureHead {
        modes,
        parameters,
        access,
        height,
        weight,
        uses,
    })
}

// ---- what a body sees

/// A function as its own body sees it: one that may write, and is heaviest.
pub fn own_function(alloc: Global, create: &CreateFunction) -> Result<EnclosingRoutine, NoMemory>
    ensures { IfOk result (λ o. o ≡ spec.own_function (out-CreateFunction create.now)) }
{
    let head = head_with(
        alloc,
        create,
        DataAccess::ModifiesSqlData,
        0,
        HEAVIEST,
        Items::new(alloc),
    )?;
    Ok(EnclosingRoutine {
        name: create.name.name.copied()?,
        head: Some(head),
    })
}

/// A procedure as its own body sees it: it is no function.
pub fn own_procedure(create: &CreateProcedure) -> Result<EnclosingRoutine, NoMemory>
    ensures { IfOk result (λ o. o ≡ spec.own_procedure (out-CreateProcedure create.now)) }
{
    Ok(EnclosingRoutine {
        name: create.name.name.copied()?,
        head: None,
    })
}

/// The parameters, with what is asked of the name and of the types.
pub fn bind_signature(
    alloc: Global,
    create: &CreateFunction,
    catalog: &Catalog,
    least: &mut Option<Fault>,
) -> Result<Scope, NoMemory>
    ensures scope { IfOk result (λ s. s ≡ spec.parameters_of_function
        (out-CreateFunction create.now)) }
    ensures faults { OnOk result (least.new ≡ noted least.old
        (spec.signature_faults (out-CreateFunction create.now) catalog.now)) }
{
    note_taken(&create.name, catalog, least);
    let scope = parameters_of(alloc, create.parameters.as_slice(), least)?;
    note_type(create.returns, least);
    Ok(scope)
}

/// What a body needs of SQL data.
pub fn body_need(catalog: &Catalog, body: &BoundBody) -> DataAccess
    ensures { result ≡ spec.need_in catalog.now body.now.uses body.now.stmt }
{
    need_of(catalog, body.uses.as_slice(), writes(&body.stmt))
}

/// What a body needs is written, and its height is within the limit.
pub(crate) fn note_asked(
    need: DataAccess,
    ident: &Ident,
    characteristics: &[Characteristic],
    catalog: &Catalog,
    uses: &[Name],
    least: &mut Option<Fault>,
)
    ensures { least.new ≡ noted least.old (spec.asked_with need ident.now characteristics.now
        catalog.now uses.now) }
{
    note_access(need, characteristics, least);
    let called = greatest_height(catalog, uses);
    note_height(ident, called, least);
}

/// The same of a body.
pub fn note_body(
    ident: &Ident,
    characteristics: &[Characteristic],
    catalog: &Catalog,
    body: &BoundBody,
    least: &mut Option<Fault>,
)
    ensures { least.new ≡ noted least.old (spec.asked_of_body ident.now characteristics.now
        catalog.now body.now.uses body.now.stmt) }
{
    let need = body_need(catalog, body);
    note_asked(
        need,
        ident,
        characteristics,
        catalog,
        body.uses.as_slice(),
        least,
    );
}

// ---- functions

// The head of a function without a plan, by its body and what it uses.
fn interpreted_head(
    alloc: Global,
    create: &CreateFunction,
    catalog: &Catalog,
    access: DataAccess,
    body: &BoundBody,
) -> Result<FunctionHead, NoMemory>
    ensures { IfOk result (λ h. h ≡ spec.interpreted_head (out-CreateFunction create.now)
        catalog.now access body.now.uses body.now.stmt) }
{
    let height = height_above(greatest_height(catalog, body.uses.as_slice()));
    let weight = weight(&body.stmt, catalog);
    let used = used_in(alloc, catalog, body.uses.as_slice())?;
    let head = head_with(alloc, create, access, height, weight, used)?;
    Ok(head)
}

// A function with its head and its body.
fn with_body(create: &CreateFunction, head: FunctionHead, body: BoundBody) -> Object
    ensures { result ≡ spec.with_body (out-CreateFunction create.now) head body.uses body.stmt }
{
    Object::Interpreted(InterpretedFunction {
        head,
        null_call: is_null_on_null(create.characteristics.as_slice()),
        self_calling: calls(&create.name.name, body.uses.as_slice()),
        body: body.stmt,
    })
}

/// A function without a plan. `drop` lets go of the body in a call.
pub fn interpreted(
    alloc: Global,
    create: &CreateFunction,
    catalog: &Catalog,
    access: DataAccess,
    body: BoundBody,
) -> Result<Object, NoMemory>
    ensures { IfOk result (λ o. o ≡ spec.interpreted (out-CreateFunction create.now) catalog.now
        access body.uses body.stmt) }
{
    match interpreted_head(alloc, create, catalog, access, &body) {
        Ok(head) => Ok(with_body(create, head, body)),
        Err(NoMemory) => {
            drop(body);
            Err(NoMemory)
        }
    }
}

// ---- procedures

// The head of a procedure, by its body and what it uses.
fn head_of_procedure(
    alloc: Global,
    create: &CreateProcedure,
    catalog: &Catalog,
    access: DataAccess,
    body: &BoundBody,
) -> Result<ProcedureHead, NoMemory>
    ensures { IfOk result (λ h. h ≡ spec.head_of_procedure (out-CreateProcedure create.now)
        catalog.now access body.now.uses body.now.stmt) }
{
    let parameters = create.parameters.as_slice();
    let height = height_above(greatest_height(catalog, body.uses.as_slice()));
    let weight = weight(&body.stmt, catalog);
    let used = used_in(alloc, catalog, body.uses.as_slice())?;
    let head = procedure_head(alloc, parameters, access, height, weight, used)?;
    Ok(head)
}

// A procedure with its head and its body.
fn procedure_with_body(create: &CreateProcedure, head: ProcedureHead, body: BoundBody) -> Object
    ensures { result ≡ spec.procedure_with_body (out-CreateProcedure create.now) head body.uses
        body.stmt }
{
    Object::Procedure(Procedure {
        head,
        self_calling: calls(&create.name.name, body.uses.as_slice()),
        body: body.stmt,
    })
}

/// A procedure of its body. `drop` lets go of the body in a call.
pub fn procedure_of(
    alloc: Global,
    create: &CreateProcedure,
    catalog: &Catalog,
    access: DataAccess,
    body: BoundBody,
) -> Result<Object, NoMemory>
    ensures { IfOk result (λ o. o ≡ spec.procedure_of (out-CreateProcedure create.now) catalog.now
        access body.uses body.stmt) }
{
    match head_of_procedure(alloc, create, catalog, access, &body) {
        Ok(head) => Ok(procedure_with_body(create, head, body)),
        Err(NoMemory) => {
            drop(body);
            Err(NoMemory)
        }
    }
}
