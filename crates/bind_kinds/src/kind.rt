//! Kinds of values (ISO/IEC 9075-2, 9.3), and the heads of expressions.

ghost use Rattle.std.specs.Prelude.{◌≡◌, not, is_some};
ghost use Rattle.bind_faults.specs.Faults.{noted, merged};
ghost use Rattle.bind_kinds.specs.Kinds as spec;

use bind_faults::{Fault, FaultKind, merge, note_if};
use sql_values::SqlType;
use syntax_trees::{Anchor, Literal};

/// What a value may be. NULL alone is of kind `Null`, and so is an expression that has a fault.
#[derive(Clone, Copy)]
pub enum Kind {
    Integer,
    Text,
    Boolean,
    Null,
}

/// What is known of an expression: its kind, its place, and whether no fault is inside.
#[derive(Clone, Copy)]
pub struct OperandHead {
    pub kind: Kind,
    pub at: Anchor,
    pub free: bool,
}

/// The kind of a type's values.
pub fn kind_of_type(data_type: SqlType) -> Kind
    ensures { result ≡ spec.kind_of_type data_type }
{
    match data_type {
        SqlType::Integer => Kind::Integer,
        SqlType::Varchar(_) => Kind::Text,
        SqlType::Boolean => Kind::Boolean,
    }
}

/// The kind of a literal.
pub fn kind_of_literal(literal: &Literal) -> Kind
    ensures { result ≡ spec.kind_of_literal literal.now }
{
    match literal {
        Literal::Number(_) => Kind::Integer,
        Literal::Text(_) => Kind::Text,
        Literal::True | Literal::False | Literal::Unknown => Kind::Boolean,
        Literal::Null => Kind::Null,
    }
}

/// Whether a value of a kind may stand where another is wanted.
pub(crate) fn fits(wanted: Kind, kind: Kind) -> bool
    ensures { result ≡ spec.fits wanted kind }
{
    match wanted {
        Kind::Null => true,
        Kind::Integer => match kind {
            Kind::Integer | Kind::Null => true,
            Kind::Text | Kind::Boolean => false,
        },
        Kind::Text => match kind {
            Kind::Text | Kind::Null => true,
            Kind::Integer | Kind::Boolean => false,
        },
        Kind::Boolean => match kind {
            Kind::Boolean | Kind::Null => true,
            Kind::Text | Kind::Integer => false,
        },
    }
}

/// Of two kinds that stand beside each other, the one that says more.
pub(crate) fn joined(left: Kind, right: Kind) -> Kind
    ensures { result ≡ spec.joined left right }
{
    match left {
        Kind::Null => right,
        Kind::Integer | Kind::Text | Kind::Boolean => left,
    }
}

/// The head of an expression without faults.
pub fn head_of(kind: Kind, at: Anchor) -> OperandHead
    ensures { result ≡ spec.head_of kind at }
{
    OperandHead {
        kind,
        at,
        free: true,
    }
}

fn quiet(free: bool, kind: Kind) -> Kind
    ensures { result ≡ spec.quiet free kind }
{
    if free { kind } else { Kind::Null }
}

/// The head with whether no fault is inside; its kind is Null where one is.
pub(crate) fn settled(free: bool, head: OperandHead) -> OperandHead
    ensures { result ≡ spec.settled free head }
{
    OperandHead {
        kind: quiet(free, head.kind),
        at: head.at,
        free,
    }
}

/// The head of an expression in which these faults were noted apart; they are added to those
/// before.
pub fn settle(head: OperandHead, before: Option<Fault>, least: &mut Option<Fault>) -> OperandHead
    ensures head { result ≡ spec.settled (not (is_some least.old)) head }
    ensures faults { least.new ≡ merged before least.old }
{
    let free = least.is_none();
    merge(before, least);
    settled(free, head)
}

/// A fault where the operand is of another kind than is wanted.
pub(crate) fn misfit(wanted: Kind, head: OperandHead, least: &mut Option<Fault>)
    ensures { least.new ≡ noted least.old (spec.misfit wanted head) }
{
    let wrong = !fits(wanted, head.kind);
    note_if(wrong, FaultKind::TypeMismatch, head.at, least);
}
