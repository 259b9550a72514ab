//! Words over operands: what each asks, and the kind that it gives (ISO/IEC 9075-2, 6.12, 6.13,
//! 6.27 to 6.32, 6.39, 8.2, 8.4 and 8.8).

ghost use Rattle.std.specs.Prelude.{◌≡◌};
ghost use Rattle.bind_faults.specs.Faults.{noted};
ghost use Rattle.bind_kinds.specs.Operations as spec;

use crate::cases::{arms, arms_of, kind_of_arms, kind_of_arms_of};
use crate::columns::in_turn;
use crate::kind::{Kind, OperandHead, kind_of_type};
use crate::operands::{alike, all_of_kind, common, like_first};
use crate::types::{note_type, type_of};
use bind_faults::{Fault, FaultKind, note_if};
use syntax_trees::{DataType, Operation, TruthTest};

fn ask_test(test: TruthTest, heads: &[OperandHead], least: &mut Option<Fault>)
    ensures { least.new ≡ noted least.old (spec.test_faults test heads.now) }
{
    match test {
        TruthTest::Null => {}
        TruthTest::True | TruthTest::False | TruthTest::Unknown => {
            all_of_kind(Kind::Boolean, heads, least);
        }
    }
}

// Whether there is a cast from a kind to a kind.
fn is_cast(to: Kind, from: Kind) -> bool
    ensures { result ≡ spec.is_cast to from }
{
    match to {
        Kind::Integer => match from {
            Kind::Boolean => false,
            Kind::Integer | Kind::Text | Kind::Null => true,
        },
        Kind::Boolean => match from {
            Kind::Integer => false,
            Kind::Boolean | Kind::Text | Kind::Null => true,
        },
        Kind::Text | Kind::Null => true,
    }
}

fn ask_operand_of_cast(to: Kind, heads: &[OperandHead], least: &mut Option<Fault>)
    ensures { least.new ≡ noted least.old (spec.no_cast_faults to heads.now) }
{
    for head in heads {
        let wrong = !is_cast(to, head.kind);
        note_if(wrong, FaultKind::TypeMismatch, head.at, least);
    }
}

fn ask_cast(to: DataType, heads: &[OperandHead], least: &mut Option<Fault>)
    ensures { least.new ≡ noted least.old (spec.cast_faults to heads.now) }
{
    note_type(to, least);
    ask_operand_of_cast(kind_of_type(type_of(to)), heads, least);
}

/// What a word asks of its operands.
pub fn ask(operation: &Operation, heads: &[OperandHead], least: &mut Option<Fault>)
    ensures { least.new ≡ noted least.old (spec.asked operation.now heads.now) }
{
    match operation {
        Operation::Plus | Operation::Minus | Operation::Modulo => {
            all_of_kind(Kind::Integer, heads, least);
        }
        Operation::Not => all_of_kind(Kind::Boolean, heads, least),
        Operation::CharLength => all_of_kind(Kind::Text, heads, least),
        Operation::Compare(_) | Operation::Coalesce => alike(heads, least),
        Operation::Is(test) | Operation::IsNot(test) => ask_test(*test, heads, least),
        Operation::In | Operation::NotIn => like_first(heads, least),
        Operation::Substring => {
            in_turn(&[Kind::Text, Kind::Integer, Kind::Integer], heads, least);
        }
        Operation::Cast(to) => ask_cast(*to.get(), heads, least),
        Operation::Case => arms(Kind::Boolean, heads, least),
        Operation::CaseOf => arms_of(heads, least),
    }
}

/// The kind of what a word gives.
pub fn kind_given(operation: &Operation, heads: &[OperandHead]) -> Kind
    ensures { result ≡ spec.given operation.now heads.now }
{
    match operation {
        Operation::Plus | Operation::Minus | Operation::Modulo => Kind::Integer,
        Operation::CharLength => Kind::Integer,
        Operation::Not | Operation::Compare(_) => Kind::Boolean,
        Operation::Is(_) | Operation::IsNot(_) => Kind::Boolean,
        Operation::In | Operation::NotIn => Kind::Boolean,
        Operation::Substring => Kind::Text,
        Operation::Cast(to) => kind_of_type(type_of(*to.get())),
        Operation::Coalesce => common(heads),
        Operation::Case => kind_of_arms(heads),
        Operation::CaseOf => kind_of_arms_of(heads),
    }
}
