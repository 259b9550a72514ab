//! What is asked of the arguments of CALL, by what their parameters want (ISO/IEC 9075-2, 15.1).

ghost use Rattle.std.specs.Prelude.{◌≡◌};
ghost use Rattle.bind_faults.specs.Faults.{noted};
ghost use Rattle.bind_rules.specs.Arguments as spec;

use bind_faults::{Fault, FaultKind, note_if};
use bind_kinds::{OperandHead, in_turn, kind_of_type};
use bound_trees::BoundTarget;
use catalog_store::ParameterMode;
use sql_values::SqlType;
use syntax_trees::Anchor;

/// What a parameter wants of its argument: its mode and its type.
#[derive(Clone, Copy)]
pub struct Wanted {
    pub mode: ParameterMode,
    pub data_type: SqlType,
}

/// A parameter of IN, which takes a value.
pub fn is_in(mode: ParameterMode) -> bool
    ensures { result ≡ spec.is_in mode }
{
    match mode {
        ParameterMode::In => true,
        ParameterMode::Out | ParameterMode::Inout => false,
    }
}

// A parameter of OUT, which gives a value.
fn is_out(mode: ParameterMode) -> bool
    ensures { result ≡ spec.is_out mode }
{
    match mode {
        ParameterMode::Out => true,
        ParameterMode::In | ParameterMode::Inout => false,
    }
}

// Whether an argument may not stand for its parameter.
fn is_barred(script: bool, wanted: Wanted, target: Option<BoundTarget>) -> bool
    ensures { result ≡ spec.is_barred script wanted target }
{
    if script {
        is_out(wanted.mode)
    } else {
        !is_in(wanted.mode) && target.is_none()
    }
}

// The kind of a value that goes in.
fn note_kind(script: bool, wanted: Wanted, head: OperandHead, least: &mut Option<Fault>)
    ensures { least.new ≡ noted least.old (spec.kind_faults script wanted head) }
{
    if !(script && is_out(wanted.mode)) {
        in_turn(&[kind_of_type(wanted.data_type)], &[head], least);
    }
}

/// What is asked of a value or a variable as an argument.
pub fn note_value(
    script: bool,
    wanted: Option<Wanted>,
    target: Option<BoundTarget>,
    head: OperandHead,
    least: &mut Option<Fault>,
)
    ensures { least.new ≡ noted least.old (spec.value_faults script wanted target head) }
{
    if let Some(wanted) = wanted {
        let barred = is_barred(script, wanted, target);
        note_if(barred, FaultKind::NotPermitted, head.at, least);
        note_kind(script, wanted, head, least);
    }
}

// Whether `?` may stand there.
fn may_be_given(script: bool, wanted: Option<Wanted>) -> bool
    ensures { result ≡ spec.may_be_given script wanted }
{
    match wanted {
        Some(wanted) => script && is_out(wanted.mode),
        None => script,
    }
}

/// A `?` where it may not stand.
pub fn note_given(script: bool, wanted: Option<Wanted>, at: Anchor, least: &mut Option<Fault>)
    ensures { least.new ≡ noted least.old (spec.given_faults script wanted at) }
{
    let barred = !may_be_given(script, wanted);
    note_if(barred, FaultKind::NotPermitted, at, least);
}
