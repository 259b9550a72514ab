//! The rows of VALUES, and what is asked of each (ISO/IEC 9075-2, 7.3 and 9.2).

ghost use Rattle.std.specs.Prelude.{◌≡◌, IfOk, OnOk, map};
ghost use Rattle.bind_faults.specs.Faults.{noted};
ghost use Rattle.bind_parts.specs.ValueRows as spec;

use crate::typed::{Operands, TypedQuery};
use bind_faults::{Fault, FaultKind, note_if};
use bind_kinds::{Kind, OperandHead, in_turn, join_row};
use bind_sight::Output;
use bound_trees::{BoundQuery, BoundRow};
use sql_values::NoMemory;
use sqlite_items::Items;
use std::alloc::Global;
use syntax_trees::Anchor;

/// The rows so far, and the kinds of their columns.
#[derive(Drop)]
pub struct TypedRows {
    pub kinds: Items<Kind>,
    pub rows: Items<BoundRow>,
}

// A row's first expression; a row without one has another token.
fn anchor_of_row(other: Anchor, heads: &[OperandHead]) -> Anchor
    ensures { result ≡ spec.anchor_of_row other heads.now }
{
    match heads {
        [first, ..] => first.at,
        [] => other,
    }
}

/// What is asked of a row: so many values as there are columns, and each of its column's kind so
/// far and of the kind of what it is stored into.
pub fn ask_row(
    at: Anchor,
    targets: &[Kind],
    kinds: &[Kind],
    heads: &[OperandHead],
    least: &mut Option<Fault>,
)
    ensures { least.new ≡ noted least.old (spec.row_faults at targets.now kinds.now heads.now) }
{
    let wrong = heads.len() != kinds.len();
    let place = anchor_of_row(at, heads);
    note_if(wrong, FaultKind::WrongCount, place, least);
    in_turn(kinds, heads, least);
    in_turn(targets, heads, least);
}

/// One row more, whose kinds are joined with those of the rows above.
pub fn add_row(so: &mut TypedRows, row: Operands) -> Result<(), NoMemory>
    ensures { OnOk result (so.new ≡ spec.with_row so.old row) }
{
    join_row(&mut so.kinds, row.heads.as_slice());
    so.rows.push(BoundRow::Row(row.trees))?;
    Ok(())
}

/// Columns of which no value is known yet.
pub fn no_rows(alloc: Global, width: usize) -> Result<TypedRows, NoMemory>
    ensures { IfOk result (λ so. so ≡ spec.no_rows width) }
{
    let mut kinds = Items::from_vec(Vec::with_capacity(alloc, width)?);
    for _place in 0..width {
        kinds.push(Kind::Null)?;
    }
    Ok(TypedRows {
        kinds,
        rows: Items::new(alloc),
    })
}

// Columns without names.
fn unnamed(alloc: Global, kinds: &[Kind]) -> Result<Items<Output>, NoMemory>
    ensures { IfOk result (λ cs. cs ≡ map spec.unnamed kinds.now) }
{
    let mut columns = Items::from_vec(Vec::with_capacity(alloc, kinds.len())?);
    for kind in kinds {
        columns.push(Output {
            name: None,
            kind: *kind,
        })?;
    }
    Ok(columns)
}

/// VALUES as a query, whose columns have no names.
pub fn values_typed(alloc: Global, at: Anchor, rows: TypedRows) -> Result<TypedQuery, NoMemory>
    ensures { IfOk result (λ q. q ≡ spec.values_typed at rows) }
{
    let columns = unnamed(alloc, rows.kinds.as_slice())?;
    Ok(TypedQuery {
        at,
        columns,
        tree: BoundQuery::Values(rows.rows),
    })
}
