//! What the rows of a plan come to: the rows, or the conditions that the first of them raises.

ghost use Rattle.std.specs.Prelude.{◌≡◌, ◌+◌, ◌≤◌, length, IfOk};
ghost use Rattle.rel_algebra.specs.Plan.{collected};
ghost use Rattle.plan_exec.specs.Answers.{answer_end, shown_end};

use row_types::{RowList, Steps};
use sql_conditions::Area;
use sql_values::NoMemory;
use std::sync::ledger::Ledger;

/// What the rows of a plan come to.
#[derive(Drop)]
pub enum Answer {
    /// The rows. None is poisoned, and each cell is a value.
    Rows(RowList),
    /// The first area: the poison of a row, or a cell of one, rows in their order and cells from
    /// left to right.
    Raised(Area),
}

/// The same rows, where none of them has an area, and else the first area. Each row that is looked
/// at is a step. It takes no memory.
pub fn collect<L: Ledger>(rows: RowList, steps: &mut Steps<L>) -> Result<Answer, NoMemory>
    ensures answer { IfOk result (λ a. answer_end a ≡ shown_end (collected rows)) }
    ensures work { steps.new ≤ steps.old + length rows }
{
    for at in 0..rows.len() {
        if let Some(area) = rows.at(at, steps).first_area() {
            return Ok(Answer::Raised(area.copied()?));
        }
    }
    Ok(Answer::Rows(rows))
}
