//! AND and OR (ISO/IEC 9075-2, 6.39), an operand at a time: what is decided isn't decided again, so
//! that what comes after it is neither read nor raises.

ghost use Rattle.std.specs.Prelude.{◌≡◌, ◌≢◌, ◌∷◌, List};
ghost use Rattle.three_valued.specs.declared.truth.Truth.{Truth as PlainTruth};
ghost use Rattle.three_valued.specs.declared.truth.Truth.TheVariants.{True as Truly};
ghost use Rattle.three_valued.specs.declared.truth.Truth.TheVariants.{False as Falsely};
ghost use Rattle.three_valued.specs.Truths.{value_of_truth};
ghost use Rattle.row_types.specs.declared.cell.Cell.{Cell as PlainCell};
ghost use Rattle.rel_algebra.specs.Plan.{and_cell, or_cell};
ghost use Rattle.plan_rows.specs.declared.connectives.SoFar.TheVariants.{Open as StillOpen};
ghost use Rattle.plan_rows.specs.Connectives.{and_rest, or_rest};

use row_types::Cell;
use sql_values::Value;
use three_valued::{Truth, and, or};

/// What an AND or an OR comes to by the operands so far.
#[derive(Drop)]
pub enum SoFar {
    /// Their truth value; operands that come may change it.
    Open(Truth),
    /// This cell, whatever comes.
    Decided(Cell),
}

/// An AND with one operand more: FALSE decides it, and so does a condition.
#[tactic(auto, using(crate::proofs::TruthTables::and_decided, crate::proofs::TruthTables::and_open, std::proofs::lemmas::Grind::common_steps))]
pub fn and_with(so_far: Truth, operand: Cell) -> SoFar
    requires { so_far ≢ Falsely }
    ensures cell { (rest : List PlainCell) → and_rest result rest ≡ and_cell (value_of_truth so_far)
        (operand ∷ rest) }
    ensures open { (truth : PlainTruth) → result ≡ StillOpen truth → truth ≢ Falsely }
{
    match operand {
        Cell::Val(value) => {
            let truth = and(so_far, Truth::of_value(&value));
            if let Truth::False = truth {
                return SoFar::Decided(Cell::Val(Value::Bool(false)));
            }
            SoFar::Open(truth)
        }
        Cell::Cond(area) => SoFar::Decided(Cell::Cond(area)),
    }
}

/// An OR with one operand more: TRUE decides it, and so does a condition.
#[tactic(auto, using(crate::proofs::TruthTables::or_decided, crate::proofs::TruthTables::or_open, std::proofs::lemmas::Grind::common_steps))]
pub fn or_with(so_far: Truth, operand: Cell) -> SoFar
    requires { so_far ≢ Truly }
    ensures cell { (rest : List PlainCell) → or_rest result rest ≡ or_cell (value_of_truth so_far)
        (operand ∷ rest) }
    ensures open { (truth : PlainTruth) → result ≡ StillOpen truth → truth ≢ Truly }
{
    match operand {
        Cell::Val(value) => {
            let truth = or(so_far, Truth::of_value(&value));
            if let Truth::True = truth {
                return SoFar::Decided(Cell::Val(Value::Bool(true)));
            }
            SoFar::Open(truth)
        }
        Cell::Cond(area) => SoFar::Decided(Cell::Cond(area)),
    }
}
