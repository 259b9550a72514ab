//! Aggregate functions: what each asks of its argument, and the kind that it gives (ISO/IEC 9075-2,
//! 10.9).

ghost use Rattle.std.specs.Prelude.{◌≡◌};
ghost use Rattle.bind_faults.specs.Faults.{noted};
ghost use Rattle.bind_kinds.specs.Aggregates as spec;

use crate::kind::{Kind, OperandHead};
use crate::operands::all_of_kind;
use bind_faults::Fault;
use sql_values::FoldKind;

/// What an aggregate asks of its argument: SUM and AVG are of numbers.
pub fn ask_aggregate(kind: FoldKind, heads: &[OperandHead], least: &mut Option<Fault>)
    ensures { least.new ≡ noted least.old (spec.aggregate_asked kind heads.now) }
{
    match kind {
        FoldKind::Sum | FoldKind::Avg => all_of_kind(Kind::Integer, heads, least),
        FoldKind::Count | FoldKind::Min | FoldKind::Max => {}
    }
}

fn kind_of_argument(heads: &[OperandHead]) -> Kind
    ensures { result ≡ spec.kind_of_argument heads.now }
{
    match heads {
        [first, ..] => first.kind,
        [] => Kind::Null,
    }
}

/// The kind that an aggregate gives: MIN and MAX are of their argument's.
pub fn aggregate_kind(kind: FoldKind, heads: &[OperandHead]) -> Kind
    ensures { result ≡ spec.aggregate_given kind heads.now }
{
    match kind {
        FoldKind::Count | FoldKind::Sum | FoldKind::Avg => Kind::Integer,
        FoldKind::Min | FoldKind::Max => kind_of_argument(heads),
    }
}
