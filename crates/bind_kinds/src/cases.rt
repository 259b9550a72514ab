//! CASE (ISO/IEC 9075-2, 6.12): tests and results in turn, and perhaps a last result.

ghost use Rattle.std.specs.Prelude.{◌≡◌};
ghost use Rattle.bind_faults.specs.Faults.{noted};
ghost use Rattle.bind_kinds.specs.Operations as spec;
ghost use Rattle.bind_kinds.specs.declared.kind.Kind.TheVariants.{Null};

use crate::kind::{Kind, OperandHead, joined, misfit};
use bind_faults::Fault;

// A result, after its test.
fn ask_arm(
    wanted: Kind,
    kind: Kind,
    test: OperandHead,
    outcome: OperandHead,
    least: &mut Option<Fault>,
)
    ensures { least.new ≡ noted least.old (spec.arm wanted kind test outcome) }
{
    misfit(wanted, test, least);
    misfit(kind, outcome, least);
}

/// Tests of the kind that is wanted, and results that are alike.
pub(crate) fn arms(wanted: Kind, heads: &[OperandHead], least: &mut Option<Fault>)
    ensures { least.new ≡ noted least.old (spec.arms wanted Null spec.no_test heads.now) }
{
    let mut kind = Kind::Null;
    let mut waiting = None;
    for head in heads {
        match waiting {
            None => waiting = Some(*head),
            Some(test) => {
                ask_arm(wanted, kind, test, *head, least);
                kind = joined(kind, head.kind);
                waiting = None;
            }
        }
    }
    if let Some(last) = waiting {
        misfit(kind, last, least);
    }
}

/// The kind of the results.
pub(crate) fn kind_of_arms(heads: &[OperandHead]) -> Kind
    ensures { result ≡ spec.kind_of_arms Null spec.no_test heads.now }
{
    let mut kind = Kind::Null;
    let mut waiting = None;
    for head in heads {
        match waiting {
            None => waiting = Some(*head),
            Some(_) => {
                kind = joined(kind, head.kind);
                waiting = None;
            }
        }
    }
    match waiting {
        Some(last) => joined(kind, last.kind),
        None => kind,
    }
}

/// With an operand in front, with which each test is compared.
pub(crate) fn arms_of(heads: &[OperandHead], least: &mut Option<Fault>)
    ensures { least.new ≡ noted least.old (spec.arms_of heads.now) }
{
    match heads {
        [operand, others @ ..] => arms(operand.kind, others, least),
        [] => {}
    }
}

/// The kind of the results after an operand.
pub(crate) fn kind_of_arms_of(heads: &[OperandHead]) -> Kind
    ensures { result ≡ spec.kind_of_arms_of heads.now }
{
    match heads {
        [_, others @ ..] => kind_of_arms(others),
        [] => Kind::Null,
    }
}
