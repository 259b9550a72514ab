//! Aggregates, and the parts of a group that they make (ISO/IEC 9075-2, 7.13 and 10.9).

ghost use Rattle.std.specs.Prelude.{◌≡◌, IfOk, OnOk};
ghost use Rattle.bind_faults.specs.Faults.{noted};
ghost use Rattle.bind_parts.specs.Typed as spec;

use crate::typed::{Operands, Typed, with_kind};
use bind_faults::{Fault, FaultKind, note_if};
use bind_kinds::{aggregate_kind, ask_aggregate};
use bind_words::argument_of;
use bound_trees::BoundExpr;
use sql_values::{FoldKind, NoMemory};
use sqlite_items::Items;
use std::alloc::Global;
use syntax_trees::Anchor;

/// The parts of a group so far: the grouping columns and then the arguments of its aggregates, and
/// these aggregates.
#[derive(Drop)]
pub struct Parts {
    pub trees: Items<BoundExpr>,
    pub aggregates: Items<FoldKind>,
}

/// The parts of a query without grouping columns, before its first aggregate.
pub fn no_parts(alloc: Global) -> Parts
    ensures { result ≡ spec.no_parts }
{
    Parts {
        trees: Items::new(alloc),
        aggregates: Items::new(alloc),
    }
}

/// The grouping columns are the first parts.
pub fn parts_of_keys(alloc: Global, trees: Items<BoundExpr>) -> Parts
    ensures { result ≡ spec.first_parts trees }
{
    Parts {
        trees,
        aggregates: Items::new(alloc),
    }
}

// Each has one argument, but COUNT(*), which has none.
fn takes_arguments(kind: FoldKind, count: usize) -> bool
    ensures { result ≡ spec.takes_arguments kind count }
{
    match kind {
        FoldKind::Count => count <= 1,
        FoldKind::Sum | FoldKind::Avg | FoldKind::Min | FoldKind::Max => count == 1,
    }
}

/// An aggregate over its argument, with what it asks of it: one part more. It becomes the column of
/// its group's row where its argument stands among the parts.
pub fn aggregated(
    at: Anchor,
    kind: FoldKind,
    operands: Operands,
    parts: &mut Parts,
    least: &mut Option<Fault>,
) -> Result<Typed, NoMemory>
    ensures value { IfOk result (λ t. t ≡ spec.aggregate_typed at kind parts.old operands) }
    ensures parts { OnOk result (parts.new ≡ spec.with_aggregate kind parts.old operands) }
    ensures faults { OnOk result (least.new ≡ noted least.old
        (spec.aggregate_faults at kind operands.heads)) }
{
    let Operands { heads, trees } = operands;
    ask_aggregate(kind, heads.as_slice(), least);
    let taken = takes_arguments(kind, heads.len());
    note_if(!taken, FaultKind::WrongCount, at, least);
    let given = aggregate_kind(kind, heads.as_slice());
    let place = parts.trees.len();
    parts.trees.push(argument_of(trees))?;
    parts.aggregates.push(kind)?;
    Ok(with_kind(given, at, BoundExpr::Column(0, place)))
}
