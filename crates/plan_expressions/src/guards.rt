//! The checks of a call's arguments: its body is read where all of them are values.

ghost use Rattle.std.specs.Prelude.{◌≡◌, ◌||◌, IfOk, OnOk};
ghost use Rattle.rel_algebra.specs.Plan.{Scalars};
ghost use Rattle.rel_algebra.specs.Emit.{raising, checks, computed};
ghost use Rattle.rel_algebra.specs.PlanView.{scalars_of};
ghost use Rattle.catalog_store.specs.Catalog.{Catalog as PlainCatalog};
ghost use Rattle.catalog_store.specs.View.{tree_of, exprs_of};
ghost use Rattle.plan_expressions.specs.Emission.{check_if, put};

use crate::assigning::may_refuse;
use crate::scalars::check;
use bound_trees::BoundExpr;
use rel_algebra::Scalar;
use sql_values::{NoMemory, SqlType};
use sqlite_items::Items;
use std::alloc::Global;

/// For each argument that may raise, or that the type of its parameter may refuse, the check of its
/// column; the columns of all begin at `first`.
pub fn argument_checks(
    alloc: Global,
    arguments: &[BoundExpr],
    types: &[SqlType],
    first: usize,
) -> Result<Items<Scalar>, NoMemory>
    ensures { IfOk result (λ ss. (known : PlainCatalog) →
        scalars_of ss ≡ checks (raising (exprs_of known arguments.now) types.now first)) }
{
    let mut checks = Items::new(alloc);
    for (place, argument) in arguments.iter().enumerate() {
        let Some(column) = first.checked_add(place) else {
            return Err(NoMemory);
        };
        let refused = may_refuse(types, place);
        add_check(alloc, argument, refused, column, &mut checks)?;
    }
    Ok(checks)
}

// The check of an argument's column, where the argument may raise or be refused.
fn add_check(
    alloc: Global,
    argument: &BoundExpr,
    refused: bool,
    column: usize,
    checks: &mut Items<Scalar>,
) -> Result<(), NoMemory>
    ensures { OnOk result ((known : PlainCatalog) (rest : Scalars) →
        put checks.new rest ≡ put checks.old (check_if
        (refused || computed (tree_of known argument.now)) column rest)) }
{
    if is_guarded(argument, refused) {
        checks.push(check(alloc, column)?)?;
    }
    Ok(())
}

// Whether an argument is computed, or may be refused.
fn is_guarded(argument: &BoundExpr, refused: bool) -> bool
    ensures { (known : PlainCatalog) → result ≡ (refused || computed (tree_of known argument.now)) }
{
    refused || is_computed(argument)
}

// Whether an expression is neither a literal nor a name; a word over another number of operands
// than it takes is NULL.
fn is_computed(expr: &BoundExpr) -> bool
    ensures { (known : PlainCatalog) → result ≡ computed (tree_of known expr.now) }
{
    match expr {
        BoundExpr::Literal(_) => false,
        BoundExpr::Column(_, _) => false,
        BoundExpr::Variable(_) => false,
        BoundExpr::Operation(operation, operands) => operation.takes(operands.len()),
        BoundExpr::Chain(_, _) => true,
        BoundExpr::Call(_, _) => true,
        BoundExpr::Single(_) => true,
        BoundExpr::Exists(_) => true,
        BoundExpr::In(_, _) => true,
    }
}
