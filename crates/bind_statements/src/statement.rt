//! Statements: the public call.

ghost use Rattle.std.specs.Prelude.{◌≡◌, true, IfOk, OnOk};
ghost use Rattle.statement_trees.specs.declared.statement.CreateFunction.{out-CreateFunction};
ghost use Rattle.statement_trees.specs.declared.statement.CreateProcedure.{out-CreateProcedure};
ghost use Rattle.grammar_order.specs.Ordered.{is_ordered};
ghost use Rattle.bind_faults.specs.Faults.{noted};
ghost use Rattle.bind_statements.specs.Statements.{judged_routine, judged_statement};
ghost use Rattle.bind_statements.specs.Statements as spec;
ghost use Rattle.bind_statements.specs.Binds.{Binds, StatementFits};
ghost use Rattle.bind_statements.specs.Types.{IsTyped};

use crate::function::{bind_function, bind_procedure};
use bind_definitions::value_returned;
use bind_direct::{
    Bound, BoundStatement, bind_direct_call, bind_direct_delete, bind_direct_drop,
    bind_direct_insert, bind_direct_query, bind_direct_table, bind_direct_update, bind_explain,
    bind_returning, created, created_function,
};
use bind_faults::{Fault, Notes};
use bind_parts::NameFault;
use bind_routines::bind_statement as bind_in_routine;
use bind_simple::{Surroundings, anchor_of_query};
use catalog_store::{Catalog, Object};
use sql_values::NoMemory;
use statement_trees::{CreateFunction, CreateProcedure, Stmt};
use std::alloc::Global;
use std::mem::drop;
use syntax_trees::Anchor;

// What the script does as a routine would.
fn bind_routine(
    alloc: Global,
    stmt: &Stmt,
    catalog: &Catalog,
    least: &mut Option<Fault>,
) -> Result<BoundStatement, NoMemory>
    ensures value { IfOk result (λ b. b ≡ (judged_routine stmt.now catalog.now).value) }
    ensures faults { OnOk result (least.new ≡ noted least.old
        (judged_routine stmt.now catalog.now).faults) }
{
    let place = Surroundings {
        scopes: &[],
        labels: &[],
        returns: None,
        own: &None,
        procedure: &None,
        catalog,
    };
    let mut notes = Notes::after(alloc, *least);
    let bound = bind_in_routine(alloc, stmt, &place, &mut notes)?;
    *least = notes.least;
    Ok(BoundStatement {
        bound: Bound::Routine(bound),
        by_plan: false,
    })
}

// A new function, whose body is RETURN or another statement.
fn bind_object(
    alloc: Global,
    create: &CreateFunction,
    catalog: &Catalog,
    least: &mut Option<Fault>,
) -> Result<Object, NoMemory>
    ensures value { IfOk result (λ o. o ≡ (spec.judged_new (out-CreateFunction create.now) catalog.now).value) }
    ensures faults { OnOk result (least.new ≡ noted least.old
        (spec.judged_new (out-CreateFunction create.now) catalog.now).faults) }
{
    match value_returned(create) {
        Some(returned) => bind_returning(alloc, create, returned, catalog, least),
        None => bind_function(alloc, create, catalog, least),
    }
}

// CREATE FUNCTION as a statement.
fn bind_new_function(
    alloc: Global,
    create: &CreateFunction,
    catalog: &Catalog,
    least: &mut Option<Fault>,
) -> Result<BoundStatement, NoMemory>
    ensures value { IfOk result
        (λ b. b ≡ (spec.judged_definition (out-CreateFunction create.now) catalog.now).value) }
    ensures faults { OnOk result (least.new ≡ noted least.old
        (spec.judged_definition (out-CreateFunction create.now) catalog.now).faults) }
{
    let object = bind_object(alloc, create, catalog, least)?;
    created_function(create, object)
}

// CREATE PROCEDURE as a statement.
fn bind_new_procedure(
    alloc: Global,
    create: &CreateProcedure,
    catalog: &Catalog,
    least: &mut Option<Fault>,
) -> Result<BoundStatement, NoMemory>
    ensures value { IfOk result
        (λ b. b ≡ (spec.judged_procedure_definition (out-CreateProcedure create.now) catalog.now).value) }
    ensures faults { OnOk result (least.new ≡ noted least.old
        (spec.judged_procedure_definition (out-CreateProcedure create.now) catalog.now).faults) }
{
    let object = bind_procedure(alloc, create, catalog, least)?;
    created(&create.name, object)
}

// A statement of any form, with its faults noted.
fn bind_parts(
    alloc: Global,
    stmt: &Stmt,
    catalog: &Catalog,
    least: &mut Option<Fault>,
) -> Result<BoundStatement, NoMemory>
    ensures value { IfOk result (λ b. b ≡ (judged_statement stmt.now catalog.now).value) }
    ensures faults { OnOk result (least.new ≡ noted least.old
        (judged_statement stmt.now catalog.now).faults) }
{
    match stmt {
        Stmt::CreateTable(create) => bind_direct_table(alloc, create, catalog, least),
        Stmt::CreateFunction(create) => bind_new_function(alloc, create, catalog, least),
        Stmt::CreateProcedure(create) => bind_new_procedure(alloc, create, catalog, least),
        Stmt::Drop(removal) => bind_direct_drop(removal, catalog, least),
        Stmt::Insert(insert) => bind_direct_insert(alloc, insert, catalog, least),
        Stmt::Update(update) => bind_direct_update(alloc, update, catalog, least),
        Stmt::Delete(delete) => bind_direct_delete(alloc, delete, catalog, least),
        Stmt::Query(query) => bind_direct_query(alloc, query, catalog, least),
        Stmt::Explain(_, query) => bind_explain(alloc, query, catalog, least),
        Stmt::Call(call) => bind_direct_call(alloc, call, catalog, least),
        Stmt::Labelled(_)
        | Stmt::If(_)
        | Stmt::Case(_)
        | Stmt::Set(_, _)
        | Stmt::SelectInto(_)
        | Stmt::Open(_, _)
        | Stmt::Close(_, _)
        | Stmt::Fetch(_)
        | Stmt::Signal(_)
        | Stmt::Resignal(_)
        | Stmt::GetDiagnostics(_)
        | Stmt::Leave(_, _)
        | Stmt::Iterate(_, _)
        | Stmt::Return(_, _) => bind_routine(alloc, stmt, catalog, least),
    }
}

/// The first token of a statement after a label.
pub fn anchor_of(stmt: &Stmt) -> Anchor
    ensures { result ≡ spec.anchor_of stmt.now }
{
    match stmt {
        Stmt::CreateTable(create) => create.anchor,
        Stmt::CreateFunction(create) => create.anchor,
        Stmt::CreateProcedure(create) => create.anchor,
        Stmt::Drop(removal) => removal.anchor,
        Stmt::Insert(insert) => insert.anchor,
        Stmt::Update(update) => update.anchor,
        Stmt::Delete(delete) => delete.anchor,
        Stmt::Query(query) => anchor_of_query(&query.query),
        Stmt::Call(call) => call.anchor,
        Stmt::Labelled(labelled) => labelled.anchor,
        Stmt::If(branching) => branching.anchor,
        Stmt::Case(branching) => branching.anchor,
        Stmt::SelectInto(select) => select.anchor,
        Stmt::Fetch(fetch) => fetch.anchor,
        Stmt::Signal(signal) => signal.anchor,
        Stmt::Resignal(signal) => signal.anchor,
        Stmt::GetDiagnostics(get) => get.anchor,
        Stmt::Explain(anchor, _)
        | Stmt::Set(anchor, _)
        | Stmt::Open(anchor, _)
        | Stmt::Close(anchor, _)
        | Stmt::Leave(anchor, _)
        | Stmt::Iterate(anchor, _)
        | Stmt::Return(anchor, _) => *anchor,
    }
}

/// A statement with its names resolved. Fault: exactly where it has a fault, and then the least, by
/// place and then kind. What is made has a free name, and fits the catalog; what is dropped stands
/// there unused; what is asked or met has a plan, where it is said so. It is well typed where in
/// each compound statement the handlers stand after all other declarations.
#[tactic(auto, using(bind_faults::proofs::Laws::is_free, crate::proofs::Typed::bound_typed))]
pub fn bind_statement(
    alloc: Global,
    stmt: &Stmt,
    catalog: &Catalog,
) -> Result<BoundStatement, NameFault>
    ensures binds { Binds (judged_statement stmt.now catalog.now) result }
    ensures fits { IfOk result (StatementFits catalog.now) }
    ensures typed { IfOk result (λ b. is_ordered stmt.now ≡ true → IsTyped catalog.now b.bound) }
{
    let _entries = catalog.len();
    let mut least = None;
    let bound = bind_parts(alloc, stmt, catalog, &mut least)?;
    match least {
        None => Ok(bound),
        Some(fault) => {
            drop(bound);
            Err(NameFault::Fault(fault))
        }
    }
}
