//! Scalars, read on a row.

ghost use Rattle.std.specs.Prelude.{◌≡◌, [], ◌∷◌, IfOk, true, false, map};
ghost use Rattle.sql_values.specs.declared.value.Value.TheVariants.{Bool as TruthValue};
ghost use Rattle.row_types.specs.Cells.{row_cells};
ghost use Rattle.row_types.specs.OuterRows.{outer_rows};
ghost use Rattle.rel_algebra.specs.Tree.{Arithmetic};
ghost use Rattle.rel_algebra.specs.Endings.{op_value};
ghost use Rattle.rel_algebra.specs.OnConditions.{condition_cell};
ghost use Rattle.rel_algebra.specs.Plan.{cell_of, cells_of, strictly, values_of as values_by};
ghost use Rattle.rel_algebra.specs.Plan.{and_cell, or_cell, case_cell, coalesce_cell, word_cell};
ghost use Rattle.rel_algebra.specs.PlanView.{scalar_of, scalars_of, chained, link_of};
ghost use Rattle.rel_algebra.specs.PlanView.{unary_operation, list_word};
ghost use Rattle.rel_algebra.specs.WordView.{condition_word};
ghost use Rattle.plan_scalars.specs.Sights.{sight_of, chained_cell, is_null_cell as is_null_by};
ghost use Rattle.plan_rows.specs.Evaluated.{told_of};

use crate::places::{
    among_in_place, applied_in_place, compared_in_place, unary_in_place, value_in_place,
};
use plan_conditions::{word_of_one, word_of_two};
use plan_rows::{
    Evaluated, SoFar, and_with, any_of, argument, arithmetic_cell, column, compared_cell, is_true,
    or_with, outcome_cell, part, remainder, unary_cell,
};
use rel_algebra::{ConditionWord, ListWord, Scalar, ScalarLink, UnaryWord};
use row_types::{Cell, Outer, PlanRow, RowInSight, Steps};
use smallvec::SmallVec;
use sql_values::{NoMemory, Value};
use std::alloc::Global;
use std::sync::ledger::Ledger;
use three_valued::Truth;

/// The cell of a scalar on a row, under the rows outside it, the innermost first, and the
/// arguments: its value, or the area that it raises, which stands in the cell. Where a column, an
/// outer column or an argument isn't there it is NULL, as is an operation on operands of another
/// kind; a poisoned row has no cells. It takes no step.
pub fn eval<L: Ledger>(
    alloc: Global,
    scalar: &Scalar,
    row: &PlanRow,
    outer: &Outer,
    args: &[Value],
    steps: &mut Steps<L>,
) -> Result<Cell, NoMemory>
    ensures cell { IfOk result (λ c. c ≡ cell_of (scalar_of scalar.now)
        (sight_of (row_cells row.now) (outer_rows outer.now) args.now)) }
    ensures steps { steps.new ≡ steps.old }
{
    eval_on(alloc, scalar, &row.in_sight(), outer, args)
}

/// The same on cells where they lie.
pub fn eval_on(
    alloc: Global,
    scalar: &Scalar,
    row: &RowInSight,
    outer: &Outer,
    args: &[Value],
) -> Result<Cell, NoMemory>
    ensures { IfOk result (λ c. c ≡ cell_of (scalar_of scalar.now)
        (sight_of row.now (outer_rows outer.now) args.now)) }
{
    match value_in_place(scalar, row, args) {
        Some(value) => Ok(Cell::Val(value.copied()?)),
        None => eval_any(alloc, scalar, row, outer, args),
    }
}

// The same, whatever the scalar is.
#[cycle(eval)]
fn eval_any(
    alloc: Global,
    scalar: &Scalar,
    row: &RowInSight,
    outer: &Outer,
    args: &[Value],
) -> Result<Cell, NoMemory>
    ensures { IfOk result (λ c. c ≡ cell_of (scalar_of scalar.now)
        (sight_of row.now (outer_rows outer.now) args.now)) }
{
    match scalar {
        Scalar::Constant(value) => Ok(Cell::Val(value.copied()?)),
        Scalar::Column(level, place) => column(alloc, row, outer, *level, *place),
        Scalar::Argument(place) => Ok(Cell::Val(argument(args, *place)?)),
        Scalar::Unary(word, operand) => unary(operand.get(), *word, alloc, row, outer, args),
        Scalar::Compare(comparison, left, right) => {
            if let Some(value) = compared_in_place(
                *comparison,
                left.get(),
                right.get(),
                row,
                args,
            ) {
                return Ok(Cell::Val(value));
            }
            let a = eval_any(alloc, left.get(), row, outer, args)?;
            let b = eval_any(alloc, right.get(), row, outer, args)?;
            Ok(compared_cell(*comparison, a, b))
        }
        Scalar::Chain(first, links) => {
            let cell = eval_any(alloc, first.get(), row, outer, args)?;
            eval_links(links.as_slice(), cell, alloc, row, outer, args)
        }
        Scalar::Listed(word, operands) => {
            listed(operands.as_slice(), *word, alloc, row, outer, args)
        }
        Scalar::OnCondition(word, operands) => {
            on_condition(operands.as_slice(), word, alloc, row, outer, args)
        }
    }
}

// An operation on one operand, which is read where it lies if it is a value there.
#[cycle(eval)]
fn unary(
    operand: &Scalar,
    word: UnaryWord,
    alloc: Global,
    row: &RowInSight,
    outer: &Outer,
    args: &[Value],
) -> Result<Cell, NoMemory>
    ensures { IfOk result (λ c. c ≡ strictly (op_value (unary_operation word))
        (cell_of (scalar_of operand.now) (sight_of row.now (outer_rows outer.now) args.now) ∷ [])) }
{
    if let Some(outcome) = unary_in_place(alloc, word, operand, row, args) {
        return outcome;
    }
    let cell = eval_any(alloc, operand, row, outer, args)?;
    unary_cell(alloc, word, cell)
}

// An operation on a list of operands.
#[cycle(eval)]
fn listed(
    operands: &[Scalar],
    word: ListWord,
    alloc: Global,
    row: &RowInSight,
    outer: &Outer,
    args: &[Value],
) -> Result<Cell, NoMemory>
    ensures { IfOk result (λ c. c ≡ word_cell (list_word word)
        (cells_of (scalars_of operands.now) (sight_of row.now (outer_rows outer.now) args.now))) }
{
    match word {
        ListWord::AnyOf => match among_in_place(operands, row, args) {
            Some(value) => Ok(Cell::Val(value)),
            None => Ok(any_of(eval_all(operands, alloc, row, outer, args)?)),
        },
        ListWord::Modulo => remainder(alloc, eval_all(operands, alloc, row, outer, args)?),
        ListWord::Substring => part(alloc, eval_all(operands, alloc, row, outer, args)?),
        ListWord::And => and(operands, alloc, row, outer, args),
        ListWord::Or => or(operands, alloc, row, outer, args),
        ListWord::Case => case(operands, alloc, row, outer, args),
        ListWord::Coalesce => coalesce(operands, alloc, row, outer, args),
    }
}

// A word over cells that may be conditions: a condition in one of them isn't passed on, so each
// operand is read as a cell. No word has more than two.
#[cycle(eval)]
#[tactic(auto, using(crate::proofs::OnConditions::no_operand, std::proofs::lemmas::Grind::common_steps))]
fn on_condition(
    operands: &[Scalar],
    word: &ConditionWord,
    alloc: Global,
    row: &RowInSight,
    outer: &Outer,
    args: &[Value],
) -> Result<Cell, NoMemory>
    ensures { IfOk result (λ c. c ≡ condition_cell (condition_word word.now)
        (cells_of (scalars_of operands.now) (sight_of row.now (outer_rows outer.now) args.now))) }
{
    match operands {
        [] => Ok(Cell::Val(Value::Null)),
        [only] => Ok(word_of_one(word, eval_any(alloc, only, row, outer, args)?)),
        [first, second] => {
            let a = eval_any(alloc, first, row, outer, args)?;
            let b = eval_any(alloc, second, row, outer, args)?;
            word_of_two(alloc, word, a, b)
        }
        [_, _, _, ..] => Ok(Cell::Val(Value::Null)),
    }
}

// Goes on from the cell of what stands left.
#[cycle(eval)]
fn eval_links(
    links: &[ScalarLink],
    first: Cell,
    alloc: Global,
    row: &RowInSight,
    outer: &Outer,
    args: &[Value],
) -> Result<Cell, NoMemory>
    ensures { IfOk result (λ c. c ≡ chained_cell first (map link_of links.now)
        (sight_of row.now (outer_rows outer.now) args.now)) }
{
    let mut cell = first;
    for link in links {
        cell = eval_link(link, cell, alloc, row, outer, args)?;
    }
    Ok(cell)
}

// An operator between the cell of what stands left and its right operand, which is read where it
// lies if it is a value there.
#[cycle(eval)]
fn eval_link(
    link: &ScalarLink,
    left: Cell,
    alloc: Global,
    row: &RowInSight,
    outer: &Outer,
    args: &[Value],
) -> Result<Cell, NoMemory>
    ensures { IfOk result (λ c. c ≡ strictly (op_value (Arithmetic link.now.operator))
        (left ∷ cell_of (scalar_of link.now.operand)
        (sight_of row.now (outer_rows outer.now) args.now) ∷ [])) }
{
    if let Cell::Val(value) = &left {
        if let Some(outcome) = applied_in_place(alloc, link, value, row, args) {
            return outcome_cell(alloc, outcome);
        }
    }
    let right = eval_any(alloc, &link.operand, row, outer, args)?;
    arithmetic_cell(alloc, link.operator, left, right)
}

// The values of scalars, from left to right.
#[cycle(eval)]
#[tactic(auto, using(crate::proofs::Ends::with_values_push, crate::proofs::Ends::with_values_ok, crate::proofs::Ends::with_values_err, std::proofs::lemmas::Grind::common_steps))]
fn eval_all(
    operands: &[Scalar],
    alloc: Global,
    row: &RowInSight,
    outer: &Outer,
    args: &[Value],
) -> Result<Evaluated, NoMemory>
    ensures { IfOk result
        (λ t. told_of t ≡ (values_by (cells_of (scalars_of operands.now)
        (sight_of row.now (outer_rows outer.now) args.now)))) }
{
    let mut values = SmallVec::new(alloc);
    for operand in operands {
        match eval_any(alloc, operand, row, outer, args)? {
            Cell::Val(value) => values.push(value)?,
            Cell::Cond(area) => return Ok(Evaluated::Raised(area)),
        }
    }
    Ok(Evaluated::Values(values))
}

// AND, up to the first operand that is false.
#[cycle(eval)]
fn and(
    operands: &[Scalar],
    alloc: Global,
    row: &RowInSight,
    outer: &Outer,
    args: &[Value],
) -> Result<Cell, NoMemory>
    ensures { IfOk result (λ c. c ≡ and_cell (TruthValue true)
        (cells_of (scalars_of operands.now) (sight_of row.now (outer_rows outer.now) args.now))) }
{
    let mut so_far = Truth::True;
    for operand in operands {
        match and_with(so_far, eval_any(alloc, operand, row, outer, args)?) {
            SoFar::Open(truth) => so_far = truth,
            SoFar::Decided(cell) => return Ok(cell),
        }
    }
    Ok(Cell::Val(so_far.to_value()))
}

// OR, up to the first operand that is true.
#[cycle(eval)]
fn or(
    operands: &[Scalar],
    alloc: Global,
    row: &RowInSight,
    outer: &Outer,
    args: &[Value],
) -> Result<Cell, NoMemory>
    ensures { IfOk result (λ c. c ≡ or_cell (TruthValue false)
        (cells_of (scalars_of operands.now) (sight_of row.now (outer_rows outer.now) args.now))) }
{
    let mut so_far = Truth::False;
    for operand in operands {
        match or_with(so_far, eval_any(alloc, operand, row, outer, args)?) {
            SoFar::Open(truth) => so_far = truth,
            SoFar::Decided(cell) => return Ok(cell),
        }
    }
    Ok(Cell::Val(so_far.to_value()))
}

// Tests and results in turn, up to the first test that is true or raises, and perhaps a last
// result.
#[cycle(eval)]
fn case(
    operands: &[Scalar],
    alloc: Global,
    row: &RowInSight,
    outer: &Outer,
    args: &[Value],
) -> Result<Cell, NoMemory>
    ensures { IfOk result (λ c. c ≡ case_cell
        (cells_of (scalars_of operands.now) (sight_of row.now (outer_rows outer.now) args.now))) }
{
    let mut at = 0;
    while operands.len() - at >= 2 {
        match eval_any(alloc, &operands[at], row, outer, args)? {
            Cell::Val(value) => {
                if is_true(&value) {
                    return eval_any(alloc, &operands[at + 1], row, outer, args);
                }
            }
            Cell::Cond(area) => return Ok(Cell::Cond(area)),
        }
        at += 2;
    }
    match operands.get(at) {
        Some(last) => eval_any(alloc, last, row, outer, args),
        None => Ok(Cell::Val(Value::Null)),
    }
}

// The first operand that isn't NULL.
#[cycle(eval)]
fn coalesce(
    operands: &[Scalar],
    alloc: Global,
    row: &RowInSight,
    outer: &Outer,
    args: &[Value],
) -> Result<Cell, NoMemory>
    ensures { IfOk result (λ c. c ≡ coalesce_cell
        (cells_of (scalars_of operands.now) (sight_of row.now (outer_rows outer.now) args.now))) }
{
    for operand in operands {
        let cell = eval_any(alloc, operand, row, outer, args)?;
        if !is_null_cell(&cell) {
            return Ok(cell);
        }
    }
    Ok(Cell::Val(Value::Null))
}

// Whether a cell is the value NULL.
fn is_null_cell(cell: &Cell) -> bool
    ensures { result ≡ is_null_by cell.now }
{
    match cell {
        Cell::Val(value) => value.is_null(),
        Cell::Cond(_) => false,
    }
}
