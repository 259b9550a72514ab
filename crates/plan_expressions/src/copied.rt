//! Scalars once more.

ghost use Rattle.std.specs.Prelude.{◌≡◌, IfOk};

use crate::scalars::{compare, unary};
use rel_algebra::{Scalar, ScalarLink};
use sql_values::NoMemory;
use sqlite_items::{Boxed, Items};
use std::alloc::Global;

/// The same scalar once more.
#[cycle(copied)]
pub fn copied_scalar(alloc: Global, scalar: &Scalar) -> Result<Scalar, NoMemory>
    ensures { IfOk result (λ s. s ≡ scalar.now) }
{
    match scalar {
        Scalar::Constant(value) => Ok(Scalar::Constant(value.copied()?)),
        Scalar::Column(level, place) => Ok(Scalar::Column(*level, *place)),
        Scalar::Argument(place) => Ok(Scalar::Argument(*place)),
        Scalar::Unary(word, operand) => {
            let operand = copied_scalar(alloc, operand.get())?;
            Ok(Scalar::Unary(*word, Boxed::new(alloc, operand)?))
        }
        Scalar::Compare(comparison, left, right) => {
            let left = Boxed::new(alloc, copied_scalar(alloc, left.get())?)?;
            let right = Boxed::new(alloc, copied_scalar(alloc, right.get())?)?;
            Ok(Scalar::Compare(*comparison, left, right))
        }
        Scalar::Chain(first, links) => {
            let first = Boxed::new(alloc, copied_scalar(alloc, first.get())?)?;
            let links = copied_links(alloc, links.as_slice())?;
            Ok(Scalar::Chain(first, links))
        }
        Scalar::Listed(word, operands) => {
            let operands = copied_list(alloc, operands.as_slice())?;
            Ok(Scalar::Listed(*word, operands))
        }
        Scalar::OnCondition(word, operands) => {
            let operands = copied_list(alloc, operands.as_slice())?;
            Ok(Scalar::OnCondition(*word, operands))
        }
    }
}

// The same operators with their right operands once more.
#[cycle(copied)]
fn copied_links(alloc: Global, links: &[ScalarLink]) -> Result<Items<ScalarLink>, NoMemory>
    ensures { IfOk result (λ ls. ls ≡ links.now) }
{
    let mut copies = Items::from_vec(Vec::with_capacity(alloc, links.len())?);
    for link in links {
        let operand = copied_scalar(alloc, &link.operand)?;
        copies.push(ScalarLink {
            operator: link.operator,
            operand,
        })?;
    }
    Ok(copies)
}

// The same scalars once more.
#[cycle(copied)]
fn copied_list(alloc: Global, scalars: &[Scalar]) -> Result<Items<Scalar>, NoMemory>
    ensures { IfOk result (λ ss. ss ≡ scalars.now) }
{
    let mut copies = Items::from_vec(Vec::with_capacity(alloc, scalars.len())?);
    for scalar in scalars {
        let copy = copied_scalar(alloc, scalar)?;
        copies.push(copy)?;
    }
    Ok(copies)
}
