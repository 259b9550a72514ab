//! Output columns (ISO/IEC 9075-2, 7.16).

ghost use Rattle.std.specs.Prelude.{◌≡◌, IfOk, OnOk, map};
ghost use Rattle.bind_faults.specs.Faults.{taken};
ghost use Rattle.bind_sight.specs.Sight.{level_by};
ghost use Rattle.bind_parts.specs.Lists as spec;

use crate::aggregates::Parts;
use crate::parts::bind_found;
use crate::typed::Typed;
use bind_faults::Notes;
use bind_kinds::OperandHead;
use bind_names::{column_of, place_in_row};
use bind_sight::{Item, Level, Output, copied};
use bound_trees::BoundExpr;
use sql_values::{Name, NoMemory};
use sqlite_items::Items;
use std::alloc::Global;
use syntax_trees::Anchor;

/// The output columns so far, what is known of each, and what it is bound to, and the parts of the
/// group so far.
#[derive(Drop)]
pub struct Outputs {
    pub columns: Items<Output>,
    pub heads: Items<OperandHead>,
    pub trees: Items<BoundExpr>,
    pub parts: Parts,
}

/// No output column, with the parts of the group so far.
pub fn no_outputs(alloc: Global, parts: Parts) -> Outputs
    ensures { result ≡ spec.no_outputs parts }
{
    Outputs {
        columns: Items::new(alloc),
        heads: Items::new(alloc),
        trees: Items::new(alloc),
        parts,
    }
}

/// One output column more.
pub fn add_output(so: &mut Outputs, name: Option<Name>, typed: Typed) -> Result<(), NoMemory>
    ensures { OnOk result (so.new ≡ spec.with_output so.old name
        (record { value = typed; parts = so.old.parts })) }
{
    let Typed { head, tree } = typed;
    so.trees.push(tree)?;
    so.columns.push(Output {
        name,
        kind: head.kind,
    })?;
    so.heads.push(head)?;
    Ok(())
}

fn next(place: usize) -> Result<usize, NoMemory>
    ensures { IfOk result (λ n. n ≡ spec.next place) }
{
    match place.checked_add(1) {
        Some(place) => Ok(place),
        None => Err(NoMemory),
    }
}

// The next column of the row, which is judged at the `*`.
fn star_column(
    at: Anchor,
    level: &Level<'_>,
    column: &Output,
    place: usize,
    so: &mut Outputs,
    notes: &mut Notes,
) -> Result<usize, NoMemory>
    ensures value { IfOk result (λ n. spec.placed n so.new ≡
        (spec.star_column at (level_by level.now) (spec.placed place so.old) column.now).value) }
    ensures notes { OnOk result (notes.new ≡ taken notes.old
        (spec.star_column at (level_by level.now) (spec.placed place so.old) column.now)) }
{
    let name = copied(&column.name)?;
    let found = column_of(0, place, column.kind, level.grouped, level.keys);
    let typed = bind_found(at, found, notes);
    add_output(so, name, typed)?;
    next(place)
}

// The columns of an item in a row that begins at another column.
fn star_item(
    at: Anchor,
    level: &Level<'_>,
    item: &Item,
    so: &mut Outputs,
    notes: &mut Notes,
) -> Result<(), NoMemory>
    ensures value { OnOk result (so.new ≡ (spec.star_item at (level_by level.now) so.old item.now).value) }
    ensures notes { OnOk result (notes.new ≡ taken notes.old
        (spec.star_item at (level_by level.now) so.old item.now)) }
{
    let columns = item.columns.as_slice();
    let mut place = place_in_row(item.first, level.base);
    for column in columns {
        place = star_column(at, level, column, place, so, notes)?;
    }
    Ok(())
}

fn star_items(
    at: Anchor,
    level: &Level<'_>,
    so: &mut Outputs,
    notes: &mut Notes,
) -> Result<(), NoMemory>
    ensures value { OnOk result
        (so.new ≡ (spec.star_items at (level_by level.now) so.old level.now.items.now).value) }
    ensures notes { OnOk result (notes.new ≡ taken notes.old
        (spec.star_items at (level_by level.now) so.old level.now.items.now)) }
{
    for item in level.items {
        star_item(at, level, item, so, notes)?;
    }
    Ok(())
}

/// `*`: the columns of all items of the innermost query, in FROM's order.
pub fn star(
    at: Anchor,
    levels: &[Level<'_>],
    so: &mut Outputs,
    notes: &mut Notes,
) -> Result<(), NoMemory>
    ensures value { OnOk result (so.new ≡ (spec.star at (map level_by levels.now) so.old).value) }
    ensures notes { OnOk result (notes.new ≡ taken notes.old
        (spec.star at (map level_by levels.now) so.old)) }
{
    match levels {
        [level, ..] => star_items(at, level, so, notes),
        [] => Ok(()),
    }
}
