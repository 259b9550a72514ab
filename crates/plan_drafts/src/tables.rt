//! The rows of tables and of queries as they stand in FROM, and how many columns they have.

ghost use Rattle.std.specs.Prelude.{◌≡◌, ℕ, List, IfOk};
ghost use Rattle.rel_algebra.specs.Joins.{query_width};
ghost use Rattle.rel_algebra.specs.Plan.{settle};
ghost use Rattle.rel_algebra.specs.PlanView.{tree_of};
ghost use Rattle.rel_algebra.specs.Tree.{Table as PlainTable};
ghost use Rattle.catalog_store.specs.Catalog.{Catalog as PlainCatalog};
ghost use Rattle.catalog_store.specs.View.{itself, item_of, nothing, query_of, source_of};
ghost use Rattle.catalog_store.specs.Widths.{width_in};
ghost use Rattle.plan_expressions.specs.Drafts.{drafted};
ghost use Rattle.plan_drafts.specs.Joining.{IsFrom};
ghost use Rattle.rel_algebra.specs.Emit.{Env};

use crate::rows::first_width;
use bound_trees::{BoundFromItem, BoundQuery, BoundSource};
use catalog_store::{Catalog, Object};
use plan_expressions::Draft;
use rel_algebra::{Leaf, Plan};
use sql_values::{Name, NoMemory};
use sqlite_items::Items;
use std::alloc::Global;

/// The rows of the table of a name (ISO/IEC 9075-2, 7.6).
pub fn draft_table(alloc: Global, name: &Name, catalog: &Catalog) -> Result<Draft, NoMemory>
    ensures { IfOk result (λ d. (e : Env) → IsFrom catalog.now e d (PlainTable name.now)) }
{
    let columns = table_width(name, catalog);
    Ok(Draft::over(alloc, Leaf::Scan(name.copied()?, columns), columns))
}

/// The rows of a plan, which have so many columns, settled.
pub fn settled(alloc: Global, plan: Plan, columns: usize) -> Result<Draft, NoMemory>
    ensures tree { IfOk result (λ d. (drafted d).tree ≡ settle (tree_of plan)) }
    ensures width { IfOk result (λ d. (drafted d).width ≡ columns) }
{
    let mut draft = Draft::of_plan(alloc, plan, columns);
    draft.settle()?;
    Ok(draft)
}

/// No rows, of no columns.
pub fn draft_nothing(alloc: Global) -> Result<Draft, NoMemory>
    ensures { IfOk result (λ d. (known : PlainCatalog) (e : Env) → IsFrom known e d nothing) }
{
    let mut draft = Draft::over(alloc, Leaf::Values(Items::new(alloc)), 1);
    draft.keep(Items::new(alloc))?;
    draft.settle()?;
    Ok(draft)
}

/// The number of columns of a query's rows; of VALUES that of the first one.
pub fn columns_of(query: &BoundQuery) -> usize
    ensures { (known : PlainCatalog) (widths : List ℕ → ℕ) →
        result ≡ query_width (query_of known query.now) widths }
{
    match query {
        BoundQuery::Select(select) => select.items.len(),
        BoundQuery::Values(rows) => first_width(rows.as_slice()),
        BoundQuery::Ordered(query, _) => columns_of(query.get()),
    }
}

/// Where the rows of an item come from.
pub fn source_in(item: &BoundFromItem) -> &BoundSource
    ensures { (known : PlainCatalog) →
        source_of known result.now ≡ itself (item_of known item.now) }
{
    match item {
        BoundFromItem::Comma(source) => source,
        BoundFromItem::Cross(source) => source,
        BoundFromItem::Inner(source, _) => source,
        BoundFromItem::Left(source, _) => source,
    }
}

// The number of columns of the table of a name; 0 where there is no table.
fn table_width(name: &Name, catalog: &Catalog) -> usize
    ensures { result ≡ width_in catalog.now name.now }
{
    match catalog.get(name) {
        Some(Object::Table(row_type)) => row_type.columns.len(),
        Some(Object::Function(_)) => 0,
        Some(Object::Interpreted(_)) => 0,
        Some(Object::Procedure(_)) => 0,
        None => 0,
    }
}
