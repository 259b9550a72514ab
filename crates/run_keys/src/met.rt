//! The rows that have to be read.

ghost use Rattle.std.specs.Prelude.{◌≡◌, ◌≤◌, ◌-◌, length, take, drop, IfOk, IfSome};
ghost use Rattle.run_choices.specs.Sight.{seen};
ghost use Rattle.run_expressions.specs.Content.{world_of};
ghost use Rattle.run_keys.specs.LeftOut.{AreMet, GivesRows};

use crate::terms::terms_of;
use bound_trees::{BoundFromItem, BoundSelect, BoundSource};
use plan_keys::places_by;
use row_types::{Row, copied_row};
use run_expressions::{Frame, RowsInSight, World};
use sql_values::NoMemory;
use sqlite_items::Items;
use std::alloc::Global;
use table_store::Table;

/// The rows of a SELECT from one table (ISO/IEC 9075-2, 7.12) that its first conjuncts can let
/// through by the table's key, in key order; `None` where they say nothing of the key, or where the
/// rows come from elsewhere. What the SELECT makes of these rows it makes of all rows of the table.
pub fn met_rows(
    query: &BoundSelect,
    outer: &RowsInSight,
    frame: &Frame,
    world: &World,
) -> Result<Option<Items<Row>>, NoMemory>
    ensures { IfOk result (λ o. IfSome o (λ rows. AreMet query.now (seen outer.now) frame.now
        (world_of world.now) rows)) }
{
    let Some(table) = only_table(query.from.as_slice(), world) else {
        return Ok(None);
    };
    let alloc = world.allocator();
    let terms = terms_of(alloc, table.key(), query.conjuncts.as_slice(), outer, frame)?;
    if terms.is_empty() {
        return Ok(None);
    }
    let places = places_by(alloc, table, terms.as_slice())?;
    Ok(Some(rows_between(alloc, table, places.from, places.to)?))
}

// The table that is all of FROM, where it is one and there.
fn only_table<'a>(items: &[BoundFromItem], world: &'a World) -> Option<&'a Table>
    ensures { IfSome result (λ t. GivesRows items.now (world_of world.now) t.now.table.rows) }
{
    match items {
        [BoundFromItem::Comma(BoundSource::Table(name))] => world.tables().table(name),
        _ => None,
    }
}

// The rows between two places once more.
fn rows_between(
    alloc: Global,
    table: &Table,
    from: usize,
    to: usize,
) -> Result<Items<Row>, NoMemory>
    requires order { from ≤ to }
    requires within { to ≤ length table.now.table.rows }
    ensures { IfOk result (λ rows. rows ≡ take (to - from) (drop from table.now.table.rows)) }
{
    let mut rows = Items::new(alloc);
    for at in from..to {
        rows.push(copied_row(alloc, table.row_at(at))?)?;
    }
    Ok(rows)
}
