//! CREATE FUNCTION whose body is RETURN (ISO/IEC 9075-2, 11.60).

ghost use Rattle.std.specs.Prelude.{◌≡◌, IfOk, OnOk};
ghost use Rattle.statement_trees.specs.declared.statement.CreateFunction.{out-CreateFunction};
ghost use Rattle.bind_faults.specs.Faults.{noted};
ghost use Rattle.bind_direct.specs.Returning as spec;

use bind_definitions::{
    BoundResult, bind_signature, note_groups, note_result, own_function, returning,
};
use bind_faults::{Fault, Notes};
use bind_kinds::{kind_of_type, type_of};
use bind_sight::{Scope, ScopeRef};
use bind_simple::{Surroundings, bind_of_kind};
use catalog_store::{Catalog, Object};
use sql_values::NoMemory;
use statement_trees::CreateFunction;
use std::alloc::Global;
use syntax_trees::Expr;

// The result of a function, in sight of its parameters.
fn bind_result(
    alloc: Global,
    create: &CreateFunction,
    returned: &Expr,
    scope: &Scope,
    catalog: &Catalog,
    least: &mut Option<Fault>,
) -> Result<BoundResult, NoMemory>
    ensures tree { IfOk result (λ b. b.tree ≡ (spec.judged_result (out-CreateFunction create.now)
        returned.now scope.now catalog.now).value) }
    ensures uses { IfOk result (λ b. b.uses ≡ (spec.judged_result (out-CreateFunction create.now)
        returned.now scope.now catalog.now).uses) }
    ensures faults { OnOk result (least.new ≡ noted least.old
        (spec.judged_result (out-CreateFunction create.now) returned.now scope.now
        catalog.now).faults) }
{
    let own = Some(own_function(alloc, create)?);
    let scopes = [ScopeRef { scope }];
    let place = Surroundings {
        scopes: &scopes,
        labels: &[],
        returns: Some(type_of(create.returns)),
        own: &own,
        procedure: &None,
        catalog,
    };
    let kind = kind_of_type(type_of(create.returns));
    let mut notes = Notes::after(alloc, *least);
    let tree = bind_of_kind(alloc, kind, returned, &place, &mut notes)?;
    *least = notes.least;
    Ok(BoundResult {
        tree,
        uses: notes.uses,
    })
}

// The function of its result, with the faults of the result and of what it needs noted.
fn returning_with(
    alloc: Global,
    create: &CreateFunction,
    returned: &Expr,
    scope: &Scope,
    catalog: &Catalog,
    least: &mut Option<Fault>,
) -> Result<Object, NoMemory>
    ensures value { IfOk result (λ o. o ≡ (spec.returning_with (out-CreateFunction create.now) catalog.now
        (spec.judged_result (out-CreateFunction create.now) returned.now scope.now
        catalog.now)).value) }
    ensures faults { OnOk result (least.new ≡ noted least.old
        (spec.returning_with (out-CreateFunction create.now) catalog.now
        (spec.judged_result (out-CreateFunction create.now) returned.now scope.now
        catalog.now)).faults) }
{
    let bound = bind_result(alloc, create, returned, scope, catalog, least)?;
    note_result(create, catalog, bound.uses.as_slice(), least);
    returning(alloc, create, catalog, bound)
}

/// A new function that gives back the value of an expression, with its faults noted.
pub fn bind_returning(
    alloc: Global,
    create: &CreateFunction,
    returned: &Expr,
    catalog: &Catalog,
    least: &mut Option<Fault>,
) -> Result<Object, NoMemory>
    ensures value { IfOk result (λ o. o ≡ (spec.judged_returning (out-CreateFunction create.now) returned.now
        catalog.now).value) }
    ensures faults { OnOk result (least.new ≡ noted least.old
        (spec.judged_returning (out-CreateFunction create.now) returned.now catalog.now).faults) }
{
    let scope = bind_signature(alloc, create, catalog, least)?;
    note_groups(create.characteristics.as_slice(), least);
    let object = returning_with(alloc, create, returned, &scope, catalog, least)?;
    Ok(object)
}
