//! Whether a scalar reads the row that it stands on, or is the same on all rows.

ghost use Rattle.std.specs.Prelude.{◌≡◌};
ghost use Rattle.std.specs.List.{list_any};
ghost use Rattle.rel_algebra.specs.PlanView.{scalar_of, scalars_of};
ghost use Rattle.plan_keys.specs.Reading.{any_reads as any_by, link_reads, reads_row as reads_by};

use rel_algebra::{Scalar, ScalarLink};

/// Whether a scalar names a column of the row itself.
#[cycle(reading)]
pub fn reads_row(scalar: &Scalar) -> bool
    ensures { result ≡ reads_by (scalar_of scalar.now) }
{
    match scalar {
        Scalar::Constant(_) => false,
        Scalar::Column(level, _) => *level == 0,
        Scalar::Argument(_) => false,
        Scalar::Unary(_, operand) => reads_row(operand.get()),
        Scalar::Compare(_, left, right) => {
            if reads_row(left.get()) {
                return true;
            }
            reads_row(right.get())
        }
        Scalar::Chain(first, links) => {
            if reads_row(first.get()) {
                return true;
            }
            links_read(links.as_slice())
        }
        Scalar::Listed(_, operands) => any_reads(operands.as_slice()),
        Scalar::OnCondition(_, operands) => any_reads(operands.as_slice()),
    }
}

// Whether one of the right operands does.
#[cycle(reading)]
fn links_read(links: &[ScalarLink]) -> bool
    ensures { result ≡ list_any link_reads links.now }
{
    for link in links {
        if reads_row(&link.operand) {
            return true;
        }
    }
    false
}

// Whether one of some scalars does.
#[cycle(reading)]
fn any_reads(scalars: &[Scalar]) -> bool
    ensures { result ≡ any_by (scalars_of scalars.now) }
{
    for scalar in scalars {
        if reads_row(scalar) {
            return true;
        }
    }
    false
}
