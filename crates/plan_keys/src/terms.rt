//! The Filters that come first, as far as each compares a column of the row with a value that is
//! the same on all rows. Such a test cannot raise.

ghost use Rattle.std.specs.Prelude.{◌≡◌, ◌||◌, not, true, Bool, List, Some, IfOk};
ghost use Rattle.std.specs.Prelude.{IfSome, OnOk};
ghost use Rattle.sql_values.specs.Operators.{compared};
ghost use Rattle.row_types.specs.Rows.{Row as PlainRow};
ghost use Rattle.row_types.specs.declared.cell.Cell.{Cell as PlainCell};
ghost use Rattle.row_types.specs.declared.cell.Cell.TheVariants.{Val};
ghost use Rattle.row_types.specs.OuterRows.{outer_rows};
ghost use Rattle.rel_algebra.specs.Plan.{cell_of, column, shown};
ghost use Rattle.rel_algebra.specs.PlanView.{scalar_of};
ghost use Rattle.plan_scalars.specs.Sights.{sight_of};
ghost use Rattle.plan_keys.specs.LeftOut.{left_out, node_leaves_out};
ghost use Rattle.plan_keys.specs.Terms.{holds, misses, said};

use crate::reading::reads_row;
use crate::sides::turned;
use plan_scalars::eval_on;
use rel_algebra::{Node, Scalar};
use row_types::{Cell, Outer, RowInSight};
use sql_values::{Comparison, NoMemory, Value};
use sqlite_items::Items;
use std::alloc::Global;

/// A comparison of the column at a place of the row with a value.
#[derive(Drop)]
pub struct Term {
    pub place: usize,
    pub comparison: Comparison,
    pub value: Value,
}

/// The comparisons of key columns in the Filters that come first, up to a node that is no such
/// Filter. A row of values for which one of them is not true is left out.
pub fn terms_of(
    alloc: Global,
    key: &[usize],
    nodes: &[Node],
    outer: &Outer,
    args: &[Value],
) -> Result<Items<Term>, NoMemory>
    ensures { IfOk result (λ terms. (row : PlainRow) → misses terms row ≡ true
        → left_out nodes.now (shown row) (outer_rows outer.now) args.now ≡ true) }
{
    let mut terms = Items::new(alloc);
    for node in nodes {
        match term_of(alloc, node, outer, args)? {
            Some(term) => add_term(&mut terms, key, term)?,
            None => return Ok(terms),
        }
    }
    Ok(terms)
}

// Adds a comparison, where it is one of a key column.
fn add_term(terms: &mut Items<Term>, key: &[usize], term: Term) -> Result<(), NoMemory>
    ensures { OnOk result ((row : PlainRow) → misses terms.new row ≡ true
        → (misses terms.old row || not (holds term row)) ≡ true) }
{
    if key.contains(&term.place) {
        terms.push(term)?;
    }
    Ok(())
}

// The comparison of a node, where it is such a Filter.
fn term_of(
    alloc: Global,
    node: &Node,
    outer: &Outer,
    args: &[Value],
) -> Result<Option<Term>, NoMemory>
    ensures { IfOk result (λ o. IfSome o (λ t. (row : PlainRow) (later : Bool) →
        node_leaves_out node.now (shown row) (outer_rows outer.now) args.now later
        ≡ (not (holds t row) || later))) }
{
    match node {
        Node::Filter(test) => term_in(alloc, test, outer, args),
        _ => Ok(None),
    }
}

// The comparison that a test is, where it is one.
fn term_in(
    alloc: Global,
    test: &Scalar,
    outer: &Outer,
    args: &[Value],
) -> Result<Option<Term>, NoMemory>
    ensures { IfOk result (λ o. IfSome o (λ t. (row : PlainRow) → cell_of (scalar_of test.now)
        (sight_of (shown row) (outer_rows outer.now) args.now) ≡ Val (said t row))) }
{
    match test {
        Scalar::Compare(comparison, left, right) => {
            let left = left.get();
            let right = right.get();
            if let Some(place) = own_place(left) {
                let found = fixed_value(alloc, right, outer, args)?;
                return Ok(term_with(place, *comparison, found));
            }
            if let Some(place) = own_place(right) {
                let found = fixed_value(alloc, left, outer, args)?;
                return Ok(term_with(place, turned(*comparison), found));
            }
            Ok(None)
        }
        _ => Ok(None),
    }
}

// The place of the column of the row that a scalar is.
fn own_place(scalar: &Scalar) -> Option<usize>
    ensures { IfSome result (λ place. scalar_of scalar.now ≡ column 0 place) }
{
    match scalar {
        Scalar::Column(level, place) => {
            if *level == 0 {
                return Some(*place);
            }
            None
        }
        _ => None,
    }
}

// The value of a scalar on all rows. `None` says nothing.
fn fixed_value(
    alloc: Global,
    scalar: &Scalar,
    outer: &Outer,
    args: &[Value],
) -> Result<Option<Value>, NoMemory>
    ensures { IfOk result (λ o. IfSome o (λ v. (row : List PlainCell) →
        cell_of (scalar_of scalar.now) (sight_of row (outer_rows outer.now) args.now) ≡ Val v)) }
{
    if reads_row(scalar) {
        return Ok(None);
    }
    match eval_on(alloc, scalar, &RowInSight::of(&[], &[]), outer, args)? {
        Cell::Val(value) => Ok(Some(value)),
        Cell::Cond(_) => Ok(None),
    }
}

// The comparison with a value, where there is one.
fn term_with(place: usize, comparison: Comparison, value: Option<Value>) -> Option<Term>
    ensures place { IfSome result (λ t. t.place ≡ place) }
    ensures comparison { IfSome result (λ t. t.comparison ≡ comparison) }
    ensures value { IfSome result (λ t. value ≡ Some t.value) }
{
    match value {
        Some(value) => Some(Term {
            place,
            comparison,
            value,
        }),
        None => None,
    }
}
