//! The rows of VALUES, and how many columns they have (ISO/IEC 9075-2, 7.3).

ghost use Rattle.std.specs.Prelude.{◌≡◌};
ghost use Rattle.rel_algebra.specs.Joins.{rows_width};
ghost use Rattle.rel_algebra.specs.Plan.{values};
ghost use Rattle.rel_algebra.specs.PlanView.{lists_of, tree_of};
ghost use Rattle.catalog_store.specs.Catalog.{Catalog as PlainCatalog};
ghost use Rattle.catalog_store.specs.View.{exprs_of, row_of, rows_of};

use bound_trees::{BoundExpr, BoundRow};
use plan_expressions::Draft;
use rel_algebra::{Leaf, Plan, ScalarRow};
use sqlite_items::Items;
use std::alloc::Global;

/// Lists as the rows of a plan.
pub fn lists_plan(alloc: Global, lists: Items<ScalarRow>) -> Plan
    ensures { tree_of result ≡ values (lists_of lists) }
{
    Draft::over(alloc, Leaf::Values(lists), 0).into_plan()
}

/// The values of a row.
pub fn values_in(row: &BoundRow) -> &[BoundExpr]
    ensures { (known : PlainCatalog) → exprs_of known result.now ≡ row_of known row.now }
{
    match row {
        BoundRow::Row(values) => values.as_slice(),
    }
}

/// How many columns the first row has; 0 where there is none.
pub fn first_width(rows: &[BoundRow]) -> usize
    ensures { (known : PlainCatalog) → result ≡ rows_width (rows_of known rows.now) }
{
    match rows.first() {
        Some(row) => values_in(row).len(),
        None => 0,
    }
}
