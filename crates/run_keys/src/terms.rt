//! The conjuncts that come first, as far as each compares a column of the row with a value that is
//! the same for all rows. Such a test can't raise, and does nothing else.

ghost use Rattle.std.specs.Prelude.{◌≡◌, ◌∷◌, ◌||◌, not, true, Some, IfOk, IfSome, OnOk};
ghost use Rattle.row_types.specs.Rows.{Row as PlainRow};
ghost use Rattle.rel_algebra.specs.Tree.{Column};
ghost use Rattle.routine_views.specs.Views.{Known, expr_in};
ghost use Rattle.run_choices.specs.Sight.{seen};
ghost use Rattle.plan_keys.specs.Terms.{holds, misses};
ghost use Rattle.run_keys.specs.LeftOut.{ComparesAs, IsFixed, LeavesOut, SaysTerm};
ghost use Rattle.run_keys.specs.LeftOut.{WordSays};

use bound_trees::{BoundExpr, BoundOperation};
use plan_keys::{Term, turned};
use run_expressions::{Frame, RowsInSight, column};
use sql_values::{Comparison, NoMemory, Value};
use sqlite_items::Items;
use std::alloc::Global;

/// The comparisons of key columns among the conjuncts that come first, up to one that is no such
/// comparison. A row for which one of them is not true is left out.
pub(crate) fn terms_of(
    alloc: Global,
    key: &[usize],
    tests: &[BoundExpr],
    outer: &RowsInSight,
    frame: &Frame,
) -> Result<Items<Term>, NoMemory>
    ensures { IfOk result (λ terms. (row : PlainRow) → misses terms row ≡ true
        → LeavesOut tests.now (seen outer.now) frame.now row) }
{
    let mut terms = Items::new(alloc);
    for test in tests {
        match term_of(test, outer, frame)? {
            Some(term) => add_term(&mut terms, key, term)?,
            None => return Ok(terms),
        }
    }
    Ok(terms)
}

// Adds a comparison, where it is one of a key column.
fn add_term(terms: &mut Items<Term>, key: &[usize], term: Term) -> Result<(), NoMemory>
    ensures { OnOk result ((row : PlainRow) → misses terms.new row ≡ true
        → (misses terms.old row || not (holds term row)) ≡ true) }
{
    if key.contains(&term.place) {
        terms.push(term)?;
    }
    Ok(())
}

// The comparison that a test is, where it is one of a column of the row with such a value.
fn term_of(test: &BoundExpr, outer: &RowsInSight, frame: &Frame) -> Result<Option<Term>, NoMemory>
    ensures { IfOk result (λ o. IfSome o (λ t. SaysTerm test.now (seen outer.now) frame.now t)) }
{
    match test {
        BoundExpr::Operation(operation, sides) => {
            term_by(*operation, sides.as_slice(), outer, frame)
        }
        _ => Ok(None),
    }
}

// The same, by its word and operands.
fn term_by(
    operation: BoundOperation,
    sides: &[BoundExpr],
    outer: &RowsInSight,
    frame: &Frame,
) -> Result<Option<Term>, NoMemory>
    ensures { IfOk result (λ o. IfSome o (λ t. WordSays operation sides.now (seen outer.now)
        frame.now t)) }
{
    match operation {
        BoundOperation::Comparing(comparison) => match sides {
            [left, right] => compared(comparison, left, right, outer, frame),
            _ => Ok(None),
        },
        _ => Ok(None),
    }
}

// The same, by the two sides of the comparison.
fn compared(
    comparison: Comparison,
    left: &BoundExpr,
    right: &BoundExpr,
    outer: &RowsInSight,
    frame: &Frame,
) -> Result<Option<Term>, NoMemory>
    ensures { IfOk result (λ o. IfSome o (λ t. ComparesAs comparison left.now right.now
        (seen outer.now) frame.now t)) }
{
    if let Some(place) = own_place(left) {
        let found = fixed_value(right, outer, frame)?;
        return Ok(term_with(place, comparison, found));
    }
    if let Some(place) = own_place(right) {
        let found = fixed_value(left, outer, frame)?;
        return Ok(term_with(place, turned(comparison), found));
    }
    Ok(None)
}

// The place of the column of the row that an expression is.
fn own_place(expr: &BoundExpr) -> Option<usize>
    ensures { IfSome result (λ place. (known : Known) → expr_in known expr.now ≡ Column 0 place) }
{
    match expr {
        BoundExpr::Column(level, place) => {
            if *level == 0 {
                return Some(*place);
            }
            None
        }
        _ => None,
    }
}

// The value that an expression has on each row: that of a literal, of a variable or of a column of a
// query further out.
fn fixed_value(
    expr: &BoundExpr,
    outer: &RowsInSight,
    frame: &Frame,
) -> Result<Option<Value>, NoMemory>
    ensures { IfOk result (λ o. IfSome o (λ v. IsFixed expr.now (seen outer.now) frame.now v)) }
{
    match expr {
        BoundExpr::Literal(value) => Ok(Some(value.copied()?)),
        BoundExpr::Variable(slot) => Ok(Some(frame.variable(*slot)?)),
        BoundExpr::Column(level, place) => {
            if *level == 0 {
                return Ok(None);
            }
            Ok(Some(column(outer, *level - 1, *place)?))
        }
        _ => Ok(None),
    }
}

// The comparison with a value, where there is one.
fn term_with(place: usize, comparison: Comparison, value: Option<Value>) -> Option<Term>
    ensures place { IfSome result (λ t. t.place ≡ place) }
    ensures comparison { IfSome result (λ t. t.comparison ≡ comparison) }
    ensures value { IfSome result (λ t. value ≡ Some t.value) }
{
    match value {
        Some(value) => Some(Term {
            place,
            comparison,
            value,
        }),
        None => None,
    }
}
