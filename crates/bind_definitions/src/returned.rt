//! Functions whose body is RETURN: what CREATE FUNCTION makes of the value that is returned.

ghost use Rattle.std.specs.Prelude.{◌≡◌, length, option_copied, IfOk};
ghost use Rattle.statement_trees.specs.declared.statement.CreateFunction.{out-CreateFunction};
ghost use Rattle.statement_trees.specs.declared.statement.Stmt.{out-Stmt};
ghost use Rattle.bind_faults.specs.Faults.{noted};
ghost use Rattle.bind_rules.specs.Definitions as written;
ghost use Rattle.bind_definitions.specs.Making as spec;

use crate::characteristics::{access_by, is_null_on_null, need_of};
use crate::making::{BoundBody, head_with, interpreted, note_asked};
use crate::routine::greatest_height;
use bind_faults::Fault;
use bind_rules::height_above;
use bind_selects::all_run;
use bound_trees::{BoundExpr, BoundStmt};
use catalog_store::{Body, Catalog, DataAccess, FunctionHead, Object, RoutineRecord};
use null_guards::guarded;
use routine_form::{HEAVIEST, weight_of_return};
use sql_values::{Name, NoMemory};
use sqlite_items::Items;
use statement_trees::{CreateFunction, Stmt};
use std::alloc::Global;
use std::mem::drop;
use syntax_trees::Expr;

/// A function's result with its names resolved, and the names that it uses.
#[derive(Drop)]
pub struct BoundResult {
    pub tree: BoundExpr,
    pub uses: Items<Name>,
}

/// The value that a function returns, where its body is RETURN.
pub fn value_returned(create: &CreateFunction) -> Option<&Expr>
    ensures { option_copied result ≡ written.value_returned
        (out-Stmt (out-CreateFunction create.now).body) }
{
    match create.body.get() {
        Stmt::Return(_, value) => Some(value),
        _ => None,
    }
}

// What a function does with SQL data whose body is RETURN.
fn access_of_result(create: &CreateFunction, catalog: &Catalog, uses: &[Name]) -> DataAccess
    ensures { result ≡ spec.access_of_result (out-CreateFunction create.now) catalog.now uses.now }
{
    let need = need_of(catalog, uses, false);
    access_by(create.characteristics.as_slice(), need)
}

/// What RETURN needs is written, and the height of the function is within the limit.
pub fn note_result(
    create: &CreateFunction,
    catalog: &Catalog,
    uses: &[Name],
    least: &mut Option<Fault>,
)
    ensures { least.new ≡ noted least.old (spec.asked_of_result (out-CreateFunction create.now)
        catalog.now uses.now) }
{
    let need = need_of(catalog, uses, false);
    let characteristics = create.characteristics.as_slice();
    note_asked(need, &create.name, characteristics, catalog, uses, least);
}

// The value, or NULL where a parameter is, if that is written.
fn guarded_body(
    alloc: Global,
    create: &CreateFunction,
    value: BoundExpr,
) -> Result<BoundExpr, NoMemory>
    ensures { IfOk result (λ e. e ≡ spec.guarded_body (out-CreateFunction create.now) value) }
{
    if is_null_on_null(create.characteristics.as_slice()) {
        guarded(alloc, create.parameters.len(), value)
    } else {
        Ok(value)
    }
}

// A function with its head and its value. `drop` lets go of the head in a call.
fn with_value(
    alloc: Global,
    create: &CreateFunction,
    head: FunctionHead,
    value: BoundExpr,
) -> Result<Object, NoMemory>
    ensures { IfOk result (λ o. o ≡ spec.with_value (out-CreateFunction create.now) head value) }
{
    match guarded_body(alloc, create, value) {
        Ok(body) => Ok(Object::Function(RoutineRecord {
            head,
            body: Body::shown(body),
            plan: None,
        })),
        Err(NoMemory) => {
            drop(head);
            Err(NoMemory)
        }
    }
}

// A function with a plan.
fn planned_function(
    alloc: Global,
    create: &CreateFunction,
    catalog: &Catalog,
    access: DataAccess,
    bound: BoundResult,
) -> Result<Object, NoMemory>
    ensures { IfOk result (λ o. o ≡ spec.planned_function (out-CreateFunction create.now)
        catalog.now access bound.uses bound.tree) }
{
    let height = height_above(greatest_height(catalog, bound.uses.as_slice()));
    let weight = weight_of_return(&bound.tree, catalog);
    let head = head_with(alloc, create, access, height, weight, bound.uses)?;
    with_value(alloc, create, head, bound.tree)
}

// Whether a plan answers RETURN: all that it calls has one, and it is not too heavy.
fn has_plan(catalog: &Catalog, bound: &BoundResult) -> bool
    ensures { result ≡ spec.has_plan catalog.now bound.now.uses bound.now.tree }
{
    all_run(bound.uses.as_slice(), catalog) && weight_of_return(&bound.tree, catalog) < HEAVIEST
}

/// A function whose body is RETURN: with a plan where all that it calls has one, and where it is no
/// heavier than a plan may be.
pub fn returning(
    alloc: Global,
    create: &CreateFunction,
    catalog: &Catalog,
    bound: BoundResult,
) -> Result<Object, NoMemory>
    ensures { IfOk result (λ o. o ≡ spec.returning (out-CreateFunction create.now) catalog.now
        bound.uses bound.tree) }
{
    let access = access_of_result(create, catalog, bound.uses.as_slice());
    if has_plan(catalog, &bound) {
        planned_function(alloc, create, catalog, access, bound)
    } else {
        let body = BoundBody {
            stmt: BoundStmt::Return(bound.tree),
            uses: bound.uses,
        };
        interpreted(alloc, create, catalog, access, body)
    }
}
