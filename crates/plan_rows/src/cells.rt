//! What words make of the cells of their operands.

ghost use Rattle.std.specs.Prelude.{◌≡◌, ◌≢◌, [], ◌∷◌, IfOk, IfSome, Ok, false};
ghost use Rattle.sql_values.specs.declared.value.ValueFault.TheVariants.{NoMemory as WantOfMemory};
ghost use Rattle.sql_values.specs.Values.{UnlessNoMemory, is_true as is_true_by};
ghost use Rattle.sql_values.specs.declared.value.Value.TheVariants.{Bool as TruthValue};
ghost use Rattle.rel_algebra.specs.Tree.{AnyOf, Arithmetic, Comparing, Modulo, Opposite, Substring};
ghost use Rattle.rel_algebra.specs.World.{condition_of as condition_by};
ghost use Rattle.rel_algebra.specs.Endings.{after, cell_end, ending_of, is_false as is_false_by};
ghost use Rattle.rel_algebra.specs.Endings.{op_value, among as among_by};
ghost use Rattle.row_types.specs.declared.cell.Cell.{Cell as PlainCell};
ghost use Rattle.rel_algebra.specs.Plan.{strictly};
ghost use Rattle.rel_algebra.specs.PlanView.{unary_operation};
ghost use Rattle.plan_rows.specs.Evaluated.{told_of};

use rel_algebra::UnaryWord;
use row_types::Cell;
use smallvec::SmallVec;
use sql_conditions::{Area, Condition, EngineCondition};
use sql_values::{
    Comparison, NoMemory, Operator, Value, ValueFault, assign, cast, char_length, modulo, neg,
    substring,
};
use sqlite_items::Boxed;
use std::alloc::Global;
use three_valued::{Truth, not, or};

/// Whether a value is TRUE.
pub fn is_true(value: &Value) -> bool
    ensures { result ≡ is_true_by value.now }
{
    match value {
        Value::Bool(truth) => *truth,
        _ => false,
    }
}

/// Whether a value is FALSE.
pub fn is_false(value: &Value) -> bool
    ensures { result ≡ is_false_by value.now }
{
    match value {
        Value::Bool(truth) => !*truth,
        _ => false,
    }
}

// The other truth value; NULL of what is none.
#[tactic(auto, using(crate::proofs::TruthTables::opposite_is, std::proofs::lemmas::Grind::common_steps))]
fn opposite(value: &Value) -> Value
    ensures { Ok result ≡ op_value Opposite (value.now ∷ []) }
{
    not(Truth::of_value(value)).to_value()
}

/// Whether a value is among others: TRUE where one is equal, else NULL where a comparison is
/// unknown, else FALSE.
#[tactic(auto, using(crate::proofs::Among::or_all_true, crate::proofs::Among::among_is_or_all, std::proofs::lemmas::Grind::common_steps))]
pub fn among(value: &Value, list: &[Value]) -> Value
    ensures { result ≡ among_by (TruthValue false) value.now list.now }
{
    let mut so_far = Truth::False;
    for item in list {
        let equal = Comparison::Equals.of(value, item);
        so_far = or(so_far, Truth::of_value(&equal));
        if let Truth::True = so_far {
            return Value::Bool(true);
        }
    }
    so_far.to_value()
}

// The condition that a fault raises. `None` comes exactly for want of memory.
fn condition_of(fault: ValueFault) -> Option<EngineCondition>
    ensures some { IfSome result (λ c. c ≡ condition_by fault) }
    ensures none { IfSome result (λ c. fault ≢ WantOfMemory) }
{
    match fault {
        ValueFault::TooLong => Some(EngineCondition::StringTooLong),
        ValueFault::OutOfRange => Some(EngineCondition::NumberOutOfRange),
        ValueFault::DivZero => Some(EngineCondition::DivisionByZero),
        ValueFault::BadCast => Some(EngineCondition::InvalidTextForCast),
        ValueFault::BadSubstring => Some(EngineCondition::SubstringError),
        ValueFault::NoMemory => None,
    }
}

/// The value of an operation, or the area of its fault's condition.
pub fn outcome_cell(alloc: Global, outcome: Result<Value, ValueFault>) -> Result<Cell, NoMemory>
    ensures { (c : PlainCell) → UnlessNoMemory outcome (cell_end (ending_of outcome) ≡ c) →
        IfOk result (λ d. d ≡ c) }
{
    match outcome {
        Ok(value) => Ok(Cell::Val(value)),
        Err(fault) => match condition_of(fault) {
            Some(condition) => {
                let area = Area::of(Condition::of(condition));
                Ok(Cell::Cond(Boxed::new(alloc, area)?))
            }
            None => Err(NoMemory),
        },
    }
}

/// An operator between two cells. The left one's area goes before the right one's.
pub fn arithmetic_cell(
    alloc: Global,
    operator: Operator,
    left: Cell,
    right: Cell,
) -> Result<Cell, NoMemory>
    ensures { IfOk result (λ c. c ≡ strictly (op_value (Arithmetic operator)) (left ∷ right ∷ [])) }
{
    match (left, right) {
        (Cell::Val(x), Cell::Val(y)) => outcome_cell(alloc, operator.apply(alloc, &x, &y)),
        (Cell::Cond(area), _) => Ok(Cell::Cond(area)),
        (Cell::Val(_), Cell::Cond(area)) => Ok(Cell::Cond(area)),
    }
}

/// A comparison of two cells. The left one's area goes before the right one's.
pub fn compared_cell(comparison: Comparison, left: Cell, right: Cell) -> Cell
    ensures { result ≡ strictly (op_value (Comparing comparison)) (left ∷ right ∷ []) }
{
    match (left, right) {
        (Cell::Val(x), Cell::Val(y)) => Cell::Val(comparison.of(&x, &y)),
        (Cell::Cond(area), _) => Cell::Cond(area),
        (Cell::Val(_), Cell::Cond(area)) => Cell::Cond(area),
    }
}

/// An operation on one value, which is read where it lies.
pub fn unary_value(alloc: Global, word: UnaryWord, value: &Value) -> Result<Cell, NoMemory>
    ensures { IfOk result (λ c. c ≡ cell_end (op_value (unary_operation word) (value.now ∷ []))) }
{
    match word {
        UnaryWord::Negation => outcome_cell(alloc, neg(value)),
        UnaryWord::Opposite => Ok(Cell::Val(opposite(value))),
        UnaryWord::NullTest => Ok(Cell::Val(Value::Bool(value.is_null()))),
        UnaryWord::TrueTest => Ok(Cell::Val(Value::Bool(is_true(value)))),
        UnaryWord::FalseTest => Ok(Cell::Val(Value::Bool(is_false(value)))),
        UnaryWord::CharLength => Ok(Cell::Val(char_length(value))),
        UnaryWord::Cast(to) => outcome_cell(alloc, cast(alloc, value, to)),
        UnaryWord::Assign(to) => outcome_cell(alloc, assign(alloc, value.copied()?, to)),
    }
}

/// An operation on one cell.
pub fn unary_cell(alloc: Global, word: UnaryWord, operand: Cell) -> Result<Cell, NoMemory>
    ensures { IfOk result (λ c. c ≡ strictly (op_value (unary_operation word)) (operand ∷ [])) }
{
    match operand {
        Cell::Val(value) => match word {
            UnaryWord::Assign(to) => outcome_cell(alloc, assign(alloc, value, to)),
            _ => unary_value(alloc, word, &value),
        },
        Cell::Cond(area) => Ok(Cell::Cond(area)),
    }
}

/// The values of scalars, or the first area among their cells.
#[derive(Drop)]
pub enum Evaluated {
    Values(SmallVec<Value, 4>),
    Raised(Boxed<Area>),
}

/// The first value among the others.
pub fn any_of(told: Evaluated) -> Cell
    ensures { result ≡ cell_end (after (told_of told) (op_value AnyOf)) }
{
    match told {
        Evaluated::Values(values) => match values.as_slice() {
            [value, list @ ..] => Cell::Val(among(value, list)),
            [] => Cell::Val(Value::Null),
        },
        Evaluated::Raised(area) => Cell::Cond(area),
    }
}

/// What the division of the first value by the second leaves.
pub fn remainder(alloc: Global, told: Evaluated) -> Result<Cell, NoMemory>
    ensures { IfOk result (λ c. c ≡ cell_end (after (told_of told) (op_value Modulo))) }
{
    match told {
        Evaluated::Values(values) => match values.as_slice() {
            [a, b] => outcome_cell(alloc, modulo(a, b)),
            _ => Ok(Cell::Val(Value::Null)),
        },
        Evaluated::Raised(area) => Ok(Cell::Cond(area)),
    }
}

/// The part of the first value, a text, from the place that the second says, perhaps of the third's
/// length.
pub fn part(alloc: Global, told: Evaluated) -> Result<Cell, NoMemory>
    ensures { IfOk result (λ c. c ≡ cell_end (after (told_of told) (op_value Substring))) }
{
    match told {
        Evaluated::Values(values) => match values.as_slice() {
            [text, from] => outcome_cell(alloc, substring(alloc, text, from, None)),
            [text, from, length] => {
                outcome_cell(alloc, substring(alloc, text, from, Some(length)))
            }
            _ => Ok(Cell::Val(Value::Null)),
        },
        Evaluated::Raised(area) => Ok(Cell::Cond(area)),
    }
}
