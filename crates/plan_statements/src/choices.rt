//! Tests of IF and CASE (ISO/IEC 9075-4, 14.6 and 14.7): each sends the row to the code of the
//! statements that it chooses, or on to the next test.

ghost use Rattle.std.specs.Prelude.{◌≡◌, [], ◌∷◌, suc, IfOk, OnOk};
ghost use Rattle.rel_algebra.specs.BodyChain as chain;
ghost use Rattle.rel_algebra.specs.BodySteps as steps;
ghost use Rattle.rel_algebra.specs.PlanView.{scalar_of};
ghost use Rattle.plan_expressions.specs.Drafts.{drafted};
ghost use Rattle.plan_expressions.specs.Emission.{Emits};
ghost use Rattle.plan_steps.specs.Places.{env_in, leaf_in, widths_in};
ghost use Rattle.plan_steps.specs.Steps.{Puts};
ghost use Rattle.plan_statements.specs.Statements.{operand_step, test_by, test_step};

use crate::simple::emit_value;
use bound_trees::BoundExpr;
use plan_drafts::put_column;
use plan_expressions::{Draft, compare};
use plan_steps::{Place, Spot, after, case_of, judge, nodes_over, tag};
use rel_algebra::Scalar;
use sql_values::{Comparison, NoMemory};
use sqlite_items::Items;
use std::alloc::Global;

// Emits a test, which is compared with the operand of CASE where that stands in a column.
fn emit_test(
    test: &BoundExpr,
    operand: Option<usize>,
    place: &Place,
    nodes: &mut Draft,
) -> Result<Scalar, NoMemory>
    ensures { IfOk result (λ s. Emits nodes.old nodes.new (scalar_of s) (test_by operand
        (leaf_in place.now.functions.now test.now) (widths_in place.now) (env_in place.now)
        (drafted nodes.old).width)) }
{
    let scalar = emit_value(test, place, nodes)?;
    match operand {
        Some(column) => {
            let operand = Scalar::Column(0, column);
            compare(nodes.allocator(), Comparison::Equals, operand, scalar)
        }
        None => Ok(scalar),
    }
}

// One of two codes, by the truth of a column.
fn chosen(alloc: Global, column: usize, free: usize) -> Result<Scalar, NoMemory>
    ensures { IfOk result (λ s. scalar_of s ≡ steps.case_of (steps.col column)
        (steps.tag free) (steps.tag (suc free))) }
{
    let taken = tag(free)?;
    let otherwise = tag(after(free)?)?;
    case_of(alloc, Scalar::Column(0, column), taken, otherwise)
}

/// The step of a test: to code `free`, where it is true, and else to the code after that.
pub fn put_test(
    test: &BoundExpr,
    operand: Option<usize>,
    free: usize,
    spot: &Spot,
    place: &Place,
    draft: &mut Draft,
) -> Result<(), NoMemory>
    ensures { OnOk result (Puts draft.old draft.new (test_step (test_by operand
        (leaf_in place.now.functions.now test.now) (widths_in place.now) (env_in place.now)
        spot.now.columns) free spot.now place.now ∷ [])) }
{
    let alloc = draft.allocator();
    let mut nodes = nodes_over(alloc, spot.columns);
    let scalar = emit_test(test, operand, place, &mut nodes)?;
    let column = put_column(scalar, &mut nodes)?;
    let goes = chosen(alloc, column, free)?;
    let stores = Items::new(alloc);
    let none = Items::new(alloc);
    judge(nodes, goes, column, stores, none, spot, place, draft)
}

/// The step of the operand of CASE, which stays in a column behind the row; the tests begin at a
/// code.
pub fn put_operand(
    operand: &BoundExpr,
    start: usize,
    spot: &Spot,
    place: &Place,
    draft: &mut Draft,
) -> Result<(), NoMemory>
    ensures { OnOk result (Puts draft.old draft.new (operand_step (chain.emitted
        (leaf_in place.now.functions.now operand.now) (widths_in place.now) (env_in place.now)
        spot.now.columns) start spot.now place.now ∷ [])) }
{
    let alloc = draft.allocator();
    let mut nodes = nodes_over(alloc, spot.columns);
    let scalar = emit_value(operand, place, &mut nodes)?;
    let column = put_column(scalar, &mut nodes)?;
    let mut kept = Items::new(alloc);
    kept.push(column)?;
    let goes = tag(start)?;
    let stores = Items::new(alloc);
    judge(nodes, goes, column, stores, kept, spot, place, draft)
}
