//! CREATE FUNCTION and CREATE PROCEDURE.

ghost use Rattle.std.specs.Prelude.{◌≡◌, IfOk, OnOk};
ghost use Rattle.statement_trees.specs.declared.statement.CreateFunction.{out-CreateFunction};
ghost use Rattle.statement_trees.specs.declared.statement.CreateProcedure.{out-CreateProcedure};
ghost use Rattle.bind_faults.specs.Faults.{noted};
ghost use Rattle.bind_simple.specs.Places.{place_by};
ghost use Rattle.bind_routines.specs.Statements.{judge_stmt};
ghost use Rattle.bind_statements.specs.Functions as spec;

use bind_definitions::{
    BoundBody, access_by, bind_signature, body_need, interpreted, note_body, note_groups,
    note_null_calls, own_function, own_procedure, parameters_of, procedure_head, procedure_of,
};
use bind_faults::{Fault, Notes};
use bind_kinds::type_of;
use bind_routines::bind_statement;
use bind_rules::note_taken;
use bind_sight::{Scope, ScopeRef};
use bind_simple::Surroundings;
use catalog_store::{Catalog, DataAccess, Object};
use routine_form::HEAVIEST;
use sql_values::NoMemory;
use sqlite_items::Items;
use statement_trees::{CreateFunction, CreateProcedure, Stmt};
use std::alloc::Global;

// ---- bodies

// A body at a place.
fn bind_body(
    alloc: Global,
    body: &Stmt,
    place: &Surroundings<'_>,
    least: &mut Option<Fault>,
) -> Result<BoundBody, NoMemory>
    ensures stmt { IfOk result (λ b. b.stmt ≡ (judge_stmt body.now (place_by place.now)).value) }
    ensures uses { IfOk result (λ b. b.uses ≡ (judge_stmt body.now (place_by place.now)).uses) }
    ensures faults { OnOk result (least.new ≡ noted least.old
        (judge_stmt body.now (place_by place.now)).faults) }
{
    let mut notes = Notes::after(alloc, *least);
    let stmt = bind_statement(alloc, body, place, &mut notes)?;
    *least = notes.least;
    Ok(BoundBody {
        stmt,
        uses: notes.uses,
    })
}

// ---- functions whose body is another statement than RETURN

// The body of a function, in sight of its parameters.
fn function_body(
    alloc: Global,
    create: &CreateFunction,
    scope: &Scope,
    catalog: &Catalog,
    least: &mut Option<Fault>,
) -> Result<BoundBody, NoMemory>
    ensures stmt { IfOk result (λ b. b.stmt ≡
        (spec.body_of_function (out-CreateFunction create.now) scope.now catalog.now).value) }
    ensures uses { IfOk result (λ b. b.uses ≡
        (spec.body_of_function (out-CreateFunction create.now) scope.now catalog.now).uses) }
    ensures faults { OnOk result (least.new ≡ noted least.old
        (spec.body_of_function (out-CreateFunction create.now) scope.now catalog.now).faults) }
{
    let own = Some(own_function(alloc, create)?);
    let scopes = [ScopeRef { scope }];
    let place = Surroundings {
        scopes: &scopes,
        labels: &[],
        returns: Some(type_of(create.returns)),
        own: &own,
        procedure: &None,
        catalog,
    };
    let body = bind_body(alloc, create.body.get(), &place, least)?;
    Ok(body)
}

fn function_with(
    alloc: Global,
    create: &CreateFunction,
    scope: &Scope,
    catalog: &Catalog,
    least: &mut Option<Fault>,
) -> Result<Object, NoMemory>
    ensures value { IfOk result (λ o. o ≡ (spec.function_with (out-CreateFunction create.now) catalog.now
        (spec.body_of_function (out-CreateFunction create.now) scope.now catalog.now)).value) }
    ensures faults { OnOk result (least.new ≡ noted least.old
        (spec.function_with (out-CreateFunction create.now) catalog.now
        (spec.body_of_function (out-CreateFunction create.now) scope.now catalog.now)).faults) }
{
    let characteristics = create.characteristics.as_slice();
    let body = function_body(alloc, create, scope, catalog, least)?;
    note_body(&create.name, characteristics, catalog, &body, least);
    let access = access_by(characteristics, body_need(catalog, &body));
    interpreted(alloc, create, catalog, access, body)
}

/// A new function whose body is another statement than RETURN, with its faults noted.
pub(crate) fn bind_function(
    alloc: Global,
    create: &CreateFunction,
    catalog: &Catalog,
    least: &mut Option<Fault>,
) -> Result<Object, NoMemory>
    ensures value { IfOk result
        (λ o. o ≡ (spec.judged_function (out-CreateFunction create.now) catalog.now).value) }
    ensures faults { OnOk result (least.new ≡ noted least.old
        (spec.judged_function (out-CreateFunction create.now) catalog.now).faults) }
{
    let scope = bind_signature(alloc, create, catalog, least)?;
    note_groups(create.characteristics.as_slice(), least);
    let object = function_with(alloc, create, &scope, catalog, least)?;
    Ok(object)
}

// ---- procedures

// The body of a procedure, in sight of its parameters.
fn procedure_body(
    alloc: Global,
    create: &CreateProcedure,
    scope: &Scope,
    catalog: &Catalog,
    least: &mut Option<Fault>,
) -> Result<BoundBody, NoMemory>
    ensures stmt { IfOk result (λ b. b.stmt ≡
        (spec.body_of_procedure (out-CreateProcedure create.now) scope.now catalog.now).value) }
    ensures uses { IfOk result (λ b. b.uses ≡
        (spec.body_of_procedure (out-CreateProcedure create.now) scope.now catalog.now).uses) }
    ensures faults { OnOk result (least.new ≡ noted least.old
        (spec.body_of_procedure (out-CreateProcedure create.now) scope.now catalog.now).faults) }
{
    let own = Some(own_procedure(create)?);
    let parameters = create.parameters.as_slice();
    let access = DataAccess::ModifiesSqlData;
    let procedure = Some(procedure_head(
        alloc,
        parameters,
        access,
        0,
        HEAVIEST,
        Items::new(alloc),
    )?);
    let scopes = [ScopeRef { scope }];
    let place = Surroundings {
        scopes: &scopes,
        labels: &[],
        returns: None,
        own: &own,
        procedure: &procedure,
        catalog,
    };
    let body = bind_body(alloc, create.body.get(), &place, least)?;
    Ok(body)
}

fn procedure_with(
    alloc: Global,
    create: &CreateProcedure,
    scope: &Scope,
    catalog: &Catalog,
    least: &mut Option<Fault>,
) -> Result<Object, NoMemory>
    ensures value { IfOk result (λ o. o ≡ (spec.procedure_with (out-CreateProcedure create.now) catalog.now
        (spec.body_of_procedure (out-CreateProcedure create.now) scope.now catalog.now)).value) }
    ensures faults { OnOk result (least.new ≡ noted least.old
        (spec.procedure_with (out-CreateProcedure create.now) catalog.now
        (spec.body_of_procedure (out-CreateProcedure create.now) scope.now catalog.now)).faults) }
{
    let characteristics = create.characteristics.as_slice();
    let body = procedure_body(alloc, create, scope, catalog, least)?;
    note_body(&create.name, characteristics, catalog, &body, least);
    let access = access_by(characteristics, body_need(catalog, &body));
    procedure_of(alloc, create, catalog, access, body)
}

/// A new procedure, with its faults noted.
pub(crate) fn bind_procedure(
    alloc: Global,
    create: &CreateProcedure,
    catalog: &Catalog,
    least: &mut Option<Fault>,
) -> Result<Object, NoMemory>
    ensures value { IfOk result
        (λ o. o ≡ (spec.judged_procedure (out-CreateProcedure create.now) catalog.now).value) }
    ensures faults { OnOk result (least.new ≡ noted least.old
        (spec.judged_procedure (out-CreateProcedure create.now) catalog.now).faults) }
{
    note_taken(&create.name, catalog, least);
    let scope = parameters_of(alloc, create.parameters.as_slice(), least)?;
    note_groups(create.characteristics.as_slice(), least);
    note_null_calls(create.characteristics.as_slice(), least);
    let object = procedure_with(alloc, create, &scope, catalog, least)?;
    Ok(object)
}
