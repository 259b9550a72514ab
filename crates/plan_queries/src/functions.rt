//! The plans of functions, which are kept with them.

ghost use Rattle.std.specs.Prelude.{◌≡◌, false, List, IfOk};
ghost use Rattle.sql_values.specs.declared.value.SqlType.{SqlType as TypeOf};
ghost use Rattle.rel_algebra.specs.Tree.{Returned};
ghost use Rattle.rel_algebra.specs.Emit.{emit_body, top};
ghost use Rattle.catalog_store.specs.Catalog.{Catalog as PlainCatalog};
ghost use Rattle.catalog_store.specs.Entries.{object_of, ObjectFits, IsPlanned};
ghost use Rattle.catalog_store.specs.Kept.{IsPlan, IsKept};
ghost use Rattle.catalog_store.specs.View.{tree_of};
ghost use Rattle.catalog_store.specs.Widths.{width_in};

use crate::emit::emit_expr;
use block_plans::Functions;
use bound_trees::BoundExpr;
use catalog_store::{Catalog, FunctionPlan, Object, RoutineRecord};
use plan_expressions::{Draft, NameSources, assigned};
use rel_algebra::Leaf;
use sql_values::{NoMemory, SqlType};
use std::alloc::Global;

/// The plan of a function by itself, which returns this, assigned to the type of its result
/// (ISO/IEC 9075-2, 10.4): its parameters, so many, are the arguments, and the plan of each
/// function that it calls is merged into its own.
pub fn plan_function(
    alloc: Global,
    returned: &BoundExpr,
    parameters: usize,
    returns: SqlType,
    catalog: &Catalog,
) -> Result<FunctionPlan, NoMemory>
    ensures { IfOk result (λ p. (types : List TypeOf) → IsPlan p
        (emit_body (Returned types returns (tree_of catalog.now returned.now))
        (width_in catalog.now) (top parameters) 0)) }
{
    let mut draft = Draft::over(alloc, Leaf::Unit, 0);
    let scope = NameSources::top(alloc, parameters);
    let functions = Functions::of(catalog);
    let value = emit_expr(returned, &scope, &mut draft, &functions)?;
    let scalar = assigned(alloc, returns, value)?;
    let nodes = draft.into_nodes();
    Ok(FunctionPlan { nodes, scalar })
}

/// An object as a catalog takes it: a function that is planned has its plan.
pub fn with_plan(alloc: Global, object: Object, catalog: &Catalog) -> Result<Object, NoMemory>
    ensures same { IfOk result (λ o. (known : PlainCatalog) →
        object_of known o ≡ object_of known object) }
    ensures fits { IfOk result (λ o. ObjectFits catalog.now object → ObjectFits catalog.now o) }
    ensures planned { IfOk result (λ o. IsPlanned catalog.now o) }
{
    match object {
        Object::Table(row_type) => Ok(Object::Table(row_type)),
        Object::Function(routine) => {
            let planned = routine_with_plan(alloc, routine, catalog)?;
            Ok(Object::Function(planned))
        }
        Object::Interpreted(function) => Ok(Object::Interpreted(function)),
        Object::Procedure(procedure) => Ok(Object::Procedure(procedure)),
    }
}

// A function with its plan.
fn routine_with_plan(
    alloc: Global,
    routine: RoutineRecord,
    catalog: &Catalog,
) -> Result<RoutineRecord, NoMemory>
    ensures same { IfOk result (λ r. (r.head ≡ routine.head) × (r.body ≡ routine.body)) }
    ensures kept { IfOk result (λ r. IsKept catalog.now r) }
{
    let RoutineRecord {
        head,
        body,
        plan: _,
    } = routine;
    let plan = match body.tree() {
        Some(tree) => plan_function(alloc, tree, head.parameters.len(), head.returns, catalog)?,
        None => unreachable!(),
    };
    Ok(RoutineRecord {
        head,
        body,
        plan: Some(plan),
    })
}
