//! The least fault so far, which is all that a judge has to keep.

ghost use Rattle.std.specs.Prelude.{◌≡◌};
ghost use Rattle.bind_faults.specs.Faults as spec;

use crate::{Fault, FaultKind};
use syntax_trees::Anchor;

fn rank(kind: FaultKind) -> u8
    ensures { result ≡ spec.rank kind }
{
    match kind {
        FaultKind::UnknownName => 0,
        FaultKind::DuplicateName => 1,
        FaultKind::TypeMismatch => 2,
        FaultKind::WrongCount => 3,
        FaultKind::NotPermitted => 4,
        FaultKind::TooHigh => 5,
    }
}

fn sooner(f: Fault, g: Fault) -> bool
    ensures { result ≡ spec.sooner f g }
{
    f.at.token < g.at.token || f.at.token == g.at.token && rank(f.kind) < rank(g.kind)
}

/// One fault more. Of two at one place and of one kind the earlier noted stays.
pub fn note(fault: Fault, least: &mut Option<Fault>)
    ensures { least.new ≡ spec.lesser least.old fault }
{
    match *least {
        None => *least = Some(fault),
        Some(known) => {
            if sooner(fault, known) {
                *least = Some(fault);
            }
        }
    }
}

/// A fault where the test holds.
pub fn note_if(test: bool, kind: FaultKind, at: Anchor, least: &mut Option<Fault>)
    ensures { least.new ≡ spec.noted least.old (spec.fault_if test kind at) }
{
    if test {
        note(Fault { at, kind }, least);
    }
}

/// The least of what was noted apart, with what was noted before.
pub fn merge(before: Option<Fault>, least: &mut Option<Fault>)
    ensures { least.new ≡ spec.merged before least.old }
{
    match *least {
        None => *least = before,
        Some(fault) => {
            let mut all = before;
            note(fault, &mut all);
            *least = all;
        }
    }
}
