//! What is asked of operands in a row (ISO/IEC 9075-2, 9.3).

ghost use Rattle.std.specs.Prelude.{◌≡◌};
ghost use Rattle.bind_faults.specs.Faults.{noted};
ghost use Rattle.bind_kinds.specs.Kinds as spec;
ghost use Rattle.bind_kinds.specs.declared.kind.Kind.TheVariants.{Boolean, Null};

use crate::kind::{Kind, OperandHead, joined, misfit};
use bind_faults::Fault;

/// Operands that are all of one kind.
pub(crate) fn all_of_kind(kind: Kind, heads: &[OperandHead], least: &mut Option<Fault>)
    ensures { least.new ≡ noted least.old (spec.all_of_kind kind heads.now) }
{
    for head in heads {
        misfit(kind, *head, least);
    }
}

/// A test, as in WHERE.
pub fn test(head: OperandHead, least: &mut Option<Fault>)
    ensures { least.new ≡ noted least.old (spec.misfit Boolean head) }
{
    misfit(Kind::Boolean, head, least);
}

/// Operands each of the kind of those before it.
pub(crate) fn alike(heads: &[OperandHead], least: &mut Option<Fault>)
    ensures { least.new ≡ noted least.old (spec.alike Null heads.now) }
{
    let mut before = Kind::Null;
    for head in heads {
        misfit(before, *head, least);
        before = joined(before, head.kind);
    }
}

/// The kind of operands that are alike.
pub(crate) fn common(heads: &[OperandHead]) -> Kind
    ensures { result ≡ spec.common Null heads.now }
{
    let mut kind = Kind::Null;
    for head in heads {
        kind = joined(kind, head.kind);
    }
    kind
}

/// Operands each of the kind of the first.
pub fn like_first(heads: &[OperandHead], least: &mut Option<Fault>)
    ensures { least.new ≡ noted least.old (spec.like_first heads.now) }
{
    match heads {
        [first, others @ ..] => all_of_kind(first.kind, others, least),
        [] => {}
    }
}
