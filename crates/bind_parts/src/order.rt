//! The columns of ORDER BY (ISO/IEC 9075-2, 10.10 and 14.3).

ghost use Rattle.std.specs.Prelude.{◌≡◌, IfOk, OnOk};
ghost use Rattle.bind_faults.specs.Faults.{noted, taken};
ghost use Rattle.bind_parts.specs.Order as spec;

use crate::typed::TypedQuery;
use bind_faults::{Fault, FaultKind, Notes, note_if};
use bind_sight::{ColumnList, Hit, Output};
use bound_trees::BoundQuery;
use row_types::SortKey;
use sql_values::NoMemory;
use sqlite_items::{Boxed, Items};
use std::alloc::Global;
use syntax_trees::{Ident, SortSpecification};

// The place of the one output column of a name.
fn place_at(ident: &Ident, hit: Hit, least: &mut Option<Fault>) -> usize
    ensures value { result ≡ (spec.place_at ident.now hit).value }
    ensures faults { least.new ≡ noted least.old (spec.place_at ident.now hit).faults }
{
    match hit {
        Hit::Once(place, _) => place,
        Hit::Nowhere => {
            note_if(true, FaultKind::UnknownName, ident.anchor, least);
            0
        }
        Hit::Twice => {
            note_if(true, FaultKind::DuplicateName, ident.anchor, least);
            0
        }
    }
}

fn add_key(
    columns: &ColumnList,
    written: &SortSpecification,
    so: &mut Items<SortKey>,
    notes: &mut Notes,
) -> Result<(), NoMemory>
    ensures value { OnOk result (so.new ≡ (spec.one_key columns.now so.old written.now).value) }
    ensures notes { OnOk result (notes.new ≡ taken notes.old
        (spec.one_key columns.now so.old written.now)) }
{
    let hit = columns.find(&written.name.name);
    let place = place_at(&written.name, hit, &mut notes.least);
    so.push(SortKey {
        place,
        descending: written.descending,
    })?;
    Ok(())
}

fn keys_by(
    alloc: Global,
    columns: &ColumnList,
    order: &[SortSpecification],
    notes: &mut Notes,
) -> Result<Items<SortKey>, NoMemory>
    ensures value { IfOk result (λ ks. ks ≡ (spec.keys_of columns.now order.now).value) }
    ensures notes { OnOk result (notes.new ≡ taken notes.old (spec.keys_of columns.now order.now)) }
{
    let mut so = Items::new(alloc);
    for written in order {
        add_key(columns, written, &mut so, notes)?;
    }
    Ok(so)
}

fn in_order_of(
    alloc: Global,
    query: BoundQuery,
    keys: Items<SortKey>,
) -> Result<BoundQuery, NoMemory>
    ensures { IfOk result (λ q. q ≡ spec.in_order_of query keys) }
{
    match keys.as_slice() {
        [] => Ok(query),
        [_, ..] => Ok(BoundQuery::Ordered(Boxed::new(alloc, query)?, keys)),
    }
}

// Columns, and the sort keys that name them.
#[derive(Drop)]
struct ColumnsInOrder {
    columns: Items<Output>,
    keys: Items<SortKey>,
}

// The columns that are sorted, and the keys of ORDER BY over them.
fn sorted_by(
    alloc: Global,
    columns: Items<Output>,
    order: &[SortSpecification],
    notes: &mut Notes,
) -> Result<ColumnsInOrder, NoMemory>
    ensures columns { IfOk result (λ s. s.columns ≡ columns) }
    ensures keys { IfOk result (λ s. s.keys ≡ (spec.keys_of columns order.now).value) }
    ensures notes { OnOk result (notes.new ≡ taken notes.old (spec.keys_of columns order.now)) }
{
    let columns = ColumnList::of(alloc, columns)?;
    let keys = keys_by(alloc, &columns, order, notes)?;
    Ok(ColumnsInOrder {
        columns: columns.into_items(),
        keys,
    })
}

// A query in an order, by the names of its columns.
fn sorted(
    alloc: Global,
    order: &[SortSpecification],
    query: TypedQuery,
    notes: &mut Notes,
) -> Result<TypedQuery, NoMemory>
    ensures value { IfOk result (λ q. q ≡ (spec.ordered_by order.now query).value) }
    ensures notes { OnOk result (notes.new ≡ taken notes.old (spec.ordered_by order.now query)) }
{
    let TypedQuery { at, columns, tree } = query;
    let ColumnsInOrder { columns, keys } = sorted_by(alloc, columns, order, notes)?;
    let tree = in_order_of(alloc, tree, keys)?;
    Ok(TypedQuery { at, columns, tree })
}

/// A query in the order that is written. Each name is that of one of its columns.
pub fn ordered_by(
    alloc: Global,
    order: &[SortSpecification],
    query: TypedQuery,
    notes: &mut Notes,
) -> Result<TypedQuery, NoMemory>
    ensures value { IfOk result (λ q. q ≡ (spec.ordered_by order.now query).value) }
    ensures notes { OnOk result (notes.new ≡ taken notes.old (spec.ordered_by order.now query)) }
{
    match order {
        [] => Ok(query),
        [_, ..] => sorted(alloc, order, query, notes),
    }
}
