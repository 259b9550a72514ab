//! What is made of operands whose names are resolved.

ghost use Rattle.std.specs.Prelude.{◌≡◌, IfOk, OnOk, map};
ghost use Rattle.std.specs.Option.{option_copied};
ghost use Rattle.bind_faults.specs.Faults.{noted, taken};
ghost use Rattle.bind_parts.specs.Typed as spec;

use crate::typed::{Operands, Typed, with_kind};
use bind_faults::{Fault, FaultKind, Notes, note_if};
use bind_kinds::{
    Kind, arguments, ask, ask_chain, chain_kind, chain_place, kind_given, kind_of_literal,
    kind_of_type,
};
use bind_sight::Referent;
use bind_words::{chain_of, missing, tree_of, value_of};
use bound_trees::BoundExpr;
use catalog_store::FunctionHead;
use sql_values::NoMemory;
use std::alloc::Global;
use syntax_trees::{Anchor, Ident, Link, Literal, Operation};

/// A literal.
pub fn literal(at: Anchor, literal: &Literal) -> Result<Typed, NoMemory>
    ensures { IfOk result (λ t. t ≡ spec.literal at literal.now) }
{
    let value = value_of(literal)?;
    Ok(with_kind(kind_of_literal(literal), at, BoundExpr::Literal(value)))
}

// What a name stands for.
fn named(at: Anchor, found: Referent, least: &mut Option<Fault>) -> Typed
    ensures value { result ≡ (spec.named at found).value }
    ensures faults { least.new ≡ noted least.old (spec.named at found).faults }
{
    match found {
        Referent::Column(level, place, kind) => with_kind(
            kind,
            at,
            BoundExpr::Column(level, place),
        ),
        Referent::Guessed(_, _) => with_kind(Kind::Null, at, missing()),
        Referent::Variable(place, kind) => with_kind(kind, at, BoundExpr::Variable(place)),
        Referent::Barred => {
            note_if(true, FaultKind::NotPermitted, at, least);
            with_kind(Kind::Null, at, missing())
        }
        Referent::Several => {
            note_if(true, FaultKind::DuplicateName, at, least);
            with_kind(Kind::Null, at, missing())
        }
        Referent::Unknown => {
            note_if(true, FaultKind::UnknownName, at, least);
            with_kind(Kind::Null, at, missing())
        }
    }
}

/// What a name stands for, with its fault noted.
pub fn bind_found(at: Anchor, found: Referent, notes: &mut Notes) -> Typed
    ensures value { result ≡ (spec.named at found).value }
    ensures notes { notes.new ≡ taken notes.old (spec.named at found) }
{
    named(at, found, &mut notes.least)
}

/// A word over its operands, with what it asks of them.
pub fn operated(
    alloc: Global,
    at: Anchor,
    operation: &Operation,
    operands: Operands,
    least: &mut Option<Fault>,
) -> Result<Typed, NoMemory>
    ensures value { IfOk result (λ t. t ≡ spec.operated_typed at operation.now operands) }
    ensures faults { OnOk result (least.new ≡ noted least.old
        (spec.asked_of operation.now operands)) }
{
    ask(operation, operands.heads.as_slice(), least);
    let kind = kind_given(operation, operands.heads.as_slice());
    let tree = tree_of(alloc, operation, operands.trees)?;
    Ok(with_kind(kind, at, tree))
}

/// A chain over its first operand and the others, with what it asks of them.
pub fn chained(
    alloc: Global,
    first: Typed,
    links: &[Link],
    others: Operands,
    least: &mut Option<Fault>,
) -> Result<Typed, NoMemory>
    ensures value { IfOk result (λ t. t ≡ spec.chained_typed (map (λ l. l.operator) links.now)
        (map (λ l. l.anchor) links.now) first others) }
    ensures faults { OnOk result (least.new ≡ noted least.old
        (spec.asked_by_chain (map (λ l. l.operator) links.now) (map (λ l. l.anchor) links.now) first
        others)) }
{
    let at = chain_place(first.head.at, links);
    ask_chain(at, first.head, links, others.heads.as_slice(), least);
    let kind = chain_kind(first.head.kind, links);
    let tree = chain_of(alloc, first.tree, links, others.trees)?;
    Ok(with_kind(kind, at, tree))
}

/// A call over its arguments, with what it asks of them.
pub fn called(
    ident: &Ident,
    function: Option<&FunctionHead>,
    operands: Operands,
    least: &mut Option<Fault>,
) -> Result<Typed, NoMemory>
    ensures value { IfOk result (λ t. t ≡ spec.call_typed ident.now (option_copied function.entry)
        operands) }
    ensures faults { OnOk result (least.new ≡ noted least.old
        (spec.argument_faults (option_copied function.entry) operands.heads)) }
{
    match function {
        None => Ok(with_kind(Kind::Null, ident.anchor, missing())),
        Some(head) => {
            arguments(head.parameters.as_slice(), operands.heads.as_slice(), least);
            let name = ident.name.copied()?;
            Ok(with_kind(
                kind_of_type(head.returns),
                ident.anchor,
                BoundExpr::Call(name, operands.trees),
            ))
        }
    }
}
