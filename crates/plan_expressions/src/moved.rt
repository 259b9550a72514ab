//! The scalars of a function's plan, copied to where it is merged into a call: its columns stand
//! further after, and its arguments are read in the columns that have them. `depth` is the level
//! of the row whose columns are moved.

ghost use Rattle.std.specs.Prelude.{◌≡◌, ◌+◌, map, IfOk};
ghost use Rattle.rel_algebra.specs.Merged.{moved_scalar as moved_by, moved_scalars as all_moved_by};
ghost use Rattle.rel_algebra.specs.Merged.{moved_kind as kind_moved_by};
ghost use Rattle.rel_algebra.specs.Plan.{column};
ghost use Rattle.rel_algebra.specs.PlanView.{scalar_of, scalars_of, link_of, kind_of};
ghost use Rattle.plan_expressions.specs.Merging.{move_of, moved_link};

use crate::scalars::{compare, unary};
use rel_algebra::{ApplyKind, Scalar, ScalarLink};
use sql_values::NoMemory;
use sqlite_items::{Boxed, Items};
use std::alloc::Global;

/// By how many places columns are moved, and from which column on the arguments stand.
#[derive(Clone, Copy, Debug)]
pub struct Shift {
    pub by: usize,
    pub from: usize,
}

/// A scalar, moved.
#[cycle(moved)]
pub fn moved_scalar(
    alloc: Global,
    shift: Shift,
    depth: usize,
    scalar: &Scalar,
) -> Result<Scalar, NoMemory>
    ensures { IfOk result (λ s. scalar_of s ≡ moved_by (move_of shift) depth (scalar_of scalar.now)) }
{
    match scalar {
        Scalar::Constant(value) => Ok(Scalar::Constant(value.copied()?)),
        Scalar::Column(level, place) => moved_column(shift, depth, *level, *place),
        Scalar::Argument(place) => own_column(depth, shift.from, *place),
        Scalar::Unary(word, operand) => {
            let operand = moved_scalar(alloc, shift, depth, operand.get())?;
            Ok(unary(alloc, *word, operand)?)
        }
        Scalar::Compare(comparison, left, right) => {
            let left = moved_scalar(alloc, shift, depth, left.get())?;
            let right = moved_scalar(alloc, shift, depth, right.get())?;
            Ok(compare(alloc, *comparison, left, right)?)
        }
        Scalar::Chain(first, links) => {
            let first = moved_scalar(alloc, shift, depth, first.get())?;
            let links = moved_links(alloc, shift, depth, links.as_slice())?;
            Ok(Scalar::Chain(Boxed::new(alloc, first)?, links))
        }
        Scalar::Listed(word, operands) => {
            let operands = moved_list(alloc, shift, depth, operands.as_slice())?;
            Ok(Scalar::Listed(*word, operands))
        }
        Scalar::OnCondition(word, operands) => {
            let operands = moved_list(alloc, shift, depth, operands.as_slice())?;
            Ok(Scalar::OnCondition(*word, operands))
        }
    }
}

// Operators with their right operands, moved.
#[cycle(moved)]
fn moved_links(
    alloc: Global,
    shift: Shift,
    depth: usize,
    links: &[ScalarLink],
) -> Result<Items<ScalarLink>, NoMemory>
    ensures { IfOk result (λ ls. map link_of ls ≡ map (moved_link (move_of shift) depth)
        (map link_of links.now)) }
{
    let mut moved = Items::from_vec(Vec::with_capacity(alloc, links.len())?);
    for link in links {
        let operand = moved_scalar(alloc, shift, depth, &link.operand)?;
        moved.push(ScalarLink {
            operator: link.operator,
            operand,
        })?;
    }
    Ok(moved)
}

/// Scalars, moved.
#[cycle(moved)]
pub fn moved_list(
    alloc: Global,
    shift: Shift,
    depth: usize,
    scalars: &[Scalar],
) -> Result<Items<Scalar>, NoMemory>
    ensures { IfOk result (λ ss. scalars_of ss ≡ all_moved_by (move_of shift) depth
        (scalars_of scalars.now)) }
{
    let mut moved = Items::from_vec(Vec::with_capacity(alloc, scalars.len())?);
    for scalar in scalars {
        let copy = moved_scalar(alloc, shift, depth, scalar)?;
        moved.push(copy)?;
    }
    Ok(moved)
}

/// What an Apply makes of its rows, moved.
pub fn moved_kind(
    alloc: Global,
    shift: Shift,
    depth: usize,
    kind: &ApplyKind,
) -> Result<ApplyKind, NoMemory>
    ensures { IfOk result (λ k. kind_of k ≡ kind_moved_by (move_of shift) depth (kind_of kind.now)) }
{
    match kind {
        ApplyKind::Single => Ok(ApplyKind::Single),
        ApplyKind::Exists => Ok(ApplyKind::Exists),
        ApplyKind::Member(scalar) => {
            let scalar = moved_scalar(alloc, shift, depth, scalar)?;
            Ok(ApplyKind::Member(scalar))
        }
        ApplyKind::Aggregate(columns) => {
            let columns = Items::from_slice(alloc, columns.as_slice())?;
            Ok(ApplyKind::Aggregate(columns))
        }
        ApplyKind::Into(columns) => Ok(ApplyKind::Into(*columns)),
    }
}

// A column of the row that is moved stands further after; another one stays.
fn moved_column(shift: Shift, depth: usize, level: usize, place: usize) -> Result<Scalar, NoMemory>
    ensures { IfOk result (λ s. scalar_of s ≡ moved_by (move_of shift) depth (column level place)) }
{
    if level == depth {
        own_column(depth, shift.by, place)
    } else {
        Ok(Scalar::Column(level, place))
    }
}

// The column of a row that stands so far after another.
fn own_column(level: usize, first: usize, place: usize) -> Result<Scalar, NoMemory>
    ensures { IfOk result (λ s. scalar_of s ≡ column level (first + place)) }
{
    match first.checked_add(place) {
        Some(place) => Ok(Scalar::Column(level, place)),
        None => Err(NoMemory),
    }
}
