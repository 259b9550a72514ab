//! How many columns the items of FROM have.

ghost use Rattle.std.specs.Prelude.{◌≡◌, ℕ, List};
ghost use Rattle.rel_algebra.specs.Joins.{columns_of, query_width as query_width_by, from_width};
ghost use Rattle.rel_algebra.specs.Joins.{table_width};
ghost use Rattle.routine_views.specs.Views.{Known, query_in};
ghost use Rattle.run_places.specs.Views.{source_in};

use crate::parts::values_in;
use bound_trees::{BoundQuery, BoundSource};
use run_expressions::World;
use sql_values::Name;

/// How many columns an item of FROM (ISO/IEC 9075-2, 7.6) has.
pub fn source_width(source: &BoundSource, world: &World) -> usize
    ensures { (known : Known) → result ≡ from_width (source_in known source.now)
        (table_width world.now.memory.tables) }
{
    match source {
        BoundSource::Table(name) => columns_of(name, world),
        BoundSource::Derived(query) => query_width(query.get()),
    }
}

// How many columns a table has; a name without a table has none.
fn columns_of(name: &Name, world: &World) -> usize
    ensures { result ≡ table_width world.now.memory.tables name.now }
{
    match world.tables().table(name) {
        Some(table) => table.columns().len(),
        None => 0,
    }
}

// How many columns a query has: VALUES as many as its first row.
fn query_width(query: &BoundQuery) -> usize
    ensures { (known : Known) (tables : List ℕ → ℕ) →
        result ≡ query_width_by (query_in known query.now) tables }
{
    match query {
        BoundQuery::Select(select) => select.items.len(),
        BoundQuery::Values(rows) => match rows.get(0) {
            Some(row) => values_in(row).len(),
            None => 0,
        },
        BoundQuery::Ordered(query, _) => query_width(query.get()),
    }
}
