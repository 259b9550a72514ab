//! Chains of operators (ISO/IEC 9075-2, 6.27, 6.29 and 6.39).

ghost use Rattle.std.specs.Prelude.{◌≡◌, map};
ghost use Rattle.bind_faults.specs.Faults.{noted};
ghost use Rattle.bind_kinds.specs.Chains as spec;

use crate::kind::{Kind, OperandHead, fits, head_of, misfit, settled};
use bind_faults::Fault;
use sql_values::Operator;
use syntax_trees::{Anchor, ChainOperator, Link};

fn kind_of_operator(operator: Operator) -> Kind
    ensures { result ≡ spec.kind_of_operator operator }
{
    match operator {
        Operator::Add | Operator::Subtract | Operator::Multiply | Operator::Divide => Kind::Integer,
        Operator::Concatenate => Kind::Text,
    }
}

// The kind of an operator's operands, and of what it gives.
fn kind_for(operator: ChainOperator) -> Kind
    ensures { result ≡ spec.kind_for operator }
{
    match operator {
        ChainOperator::Or | ChainOperator::And => Kind::Boolean,
        ChainOperator::Value(operator) => kind_of_operator(operator),
    }
}

fn ask_link(kind: Kind, left: OperandHead, right: OperandHead, least: &mut Option<Fault>)
    ensures { least.new ≡ noted least.old (spec.link_faults kind left right) }
{
    misfit(kind, left, least);
    misfit(kind, right, least);
}

fn link_free(kind: Kind, left: OperandHead, right: OperandHead) -> bool
    ensures { result ≡ spec.link_free kind left right }
{
    let inside = left.free && right.free;
    let fitting = fits(kind, left.kind) && fits(kind, right.kind);
    inside && fitting
}

// A chain so far, with one link more.
fn linked(at: Anchor, kind: Kind, left: OperandHead, right: OperandHead) -> OperandHead
    ensures { result ≡ spec.linked at kind left right }
{
    settled(link_free(kind, left, right), head_of(kind, at))
}

/// What a chain asks after its first operand, with the heads of the others.
pub fn ask_chain(
    at: Anchor,
    first: OperandHead,
    links: &[Link],
    heads: &[OperandHead],
    least: &mut Option<Fault>,
)
    ensures { least.new ≡ noted least.old (spec.links_faults at first
        (map (λ l. l.operator) links.now) heads.now) }
{
    let mut left = first;
    let mut links = links;
    let mut heads = heads;
    while let [link, more @ ..] = links {
        match heads {
            [head, rest @ ..] => {
                let kind = kind_for(link.operator);
                ask_link(kind, left, *head, least);
                left = linked(at, kind, left, *head);
                heads = rest;
            }
            [] => return,
        }
        links = more;
    }
}

/// The kind of a chain: that of its last operator.
pub fn chain_kind(first: Kind, links: &[Link]) -> Kind
    ensures { result ≡ spec.kind_of_chain first (map (λ l. l.operator) links.now) }
{
    let mut kind = first;
    for link in links {
        kind = kind_for(link.operator);
    }
    kind
}

/// Where a chain stands: at its first operator.
pub fn chain_place(first: Anchor, links: &[Link]) -> Anchor
    ensures { result ≡ spec.chain_place first (map (λ l. l.anchor) links.now) }
{
    match links {
        [link, ..] => link.anchor,
        [] => first,
    }
}
