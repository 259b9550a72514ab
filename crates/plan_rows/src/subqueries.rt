//! What the rows of a query inside an expression come to: the value of a scalar subquery (ISO/IEC
//! 9075-2, 7.19), EXISTS (8.10) and IN (8.4). A poisoned row goes before all of them.

ghost use Rattle.std.specs.Prelude.{◌≡◌, ◌+◌, ◌≤◌, ◌∷◌, [], false, length, List, IfOk};
ghost use Rattle.row_types.specs.Cells.{PlanRow};
ghost use Rattle.sql_values.specs.declared.value.Value.TheVariants.{Bool as TruthValue};
ghost use Rattle.row_types.specs.declared.cell.Cell.{Cell as PlainCell};
ghost use Rattle.row_types.specs.Groups.{value_at, values_of_column};
ghost use Rattle.rel_algebra.specs.Endings.{among as among_by, cell_end, equal_values};
ghost use Rattle.rel_algebra.specs.Joins.{single_of};
ghost use Rattle.rel_algebra.specs.Plan.{Scalar as PlainScalar, collapse, collected, exists};
ghost use Rattle.rel_algebra.specs.Plan.{member, single};
ghost use Rattle.plan_rows.specs.Subqueries.{exists_end, member_end, single_end};
ghost use Rattle.plan_rows.specs.Firsts.{values_end};

use crate::cells::is_true;
use crate::firsts::{Values, collect_values};
use row_types::{Cell, Row, RowList, Steps};
use sql_conditions::{Area, Condition, EngineCondition};
use sql_values::{Comparison, NoMemory, Value};
use sqlite_items::{Boxed, Items};
use std::alloc::Global;
use std::sync::ledger::Ledger;

/// The cell of a scalar subquery: NULL of no row, of one row its first value, and of several the
/// condition 21000. The first area of a row goes before that, also one of a later row. Each row is
/// a step.
pub fn single_cell<L: Ledger>(
    alloc: Global,
    rows: RowList,
    steps: &mut Steps<L>,
) -> Result<Cell, NoMemory>
    ensures cell { IfOk result (λ c. c ≡ single_end (collected rows)) }
    ensures work { steps.new ≤ steps.old + length rows }
{
    let came = collect_values(alloc, rows, steps)?;
    single_of_values(alloc, came)
}

/// The cell of EXISTS: TRUE where there is a row, else FALSE. The first area of a row goes before
/// that. Each row is a step.
pub fn exists_cell<L: Ledger>(
    alloc: Global,
    rows: RowList,
    steps: &mut Steps<L>,
) -> Result<Cell, NoMemory>
    ensures cell { IfOk result (λ c. c ≡ exists_end (collected rows)) }
    ensures work { steps.new ≤ steps.old + length rows }
{
    let values = collect_values(alloc, rows, steps)?;
    exists_of_values(alloc, values)
}

/// The cell of IN: TRUE where a row's first value equals the one that is sought, else NULL where a
/// comparison is unknown, else FALSE. The condition of what is sought goes before the first area of
/// a row, and that before all else. Each row is a step.
pub fn among_cell<L: Ledger>(
    alloc: Global,
    sought: Cell,
    rows: RowList,
    steps: &mut Steps<L>,
) -> Result<Cell, NoMemory>
    ensures cell { IfOk result (λ c. c ≡ member_end sought (collected rows)) }
    ensures work { steps.new ≤ steps.old + length rows }
{
    let values = collect_values(alloc, rows, steps)?;
    member_of_values(alloc, sought, values)
}

/// The three are what an Apply adds. The function does nothing; its contract is the law.
pub fn subqueries_collapse()
    ensures single { (c : PlainCell) (rows : List PlanRow) →
        collapse single c rows ≡ single_end (collected rows) ∷ [] }
    ensures exists { (c : PlainCell) (rows : List PlanRow) →
        collapse exists c rows ≡ exists_end (collected rows) ∷ [] }
    ensures member { (s : PlainScalar) (c : PlainCell) (rows : List PlanRow) →
        collapse (member s) c rows ≡ member_end c (collected rows) ∷ [] }
{}

// The cell of a scalar subquery, by the values of its rows.
fn single_of_values(alloc: Global, values: Values) -> Result<Cell, NoMemory>
    ensures { IfOk result (λ c. c ≡ single_end (values_end values)) }
{
    match values {
        Values::Rows(rows) => single_of_rows(alloc, rows),
        Values::Raised(area) => Ok(Cell::Cond(Boxed::new(alloc, area)?)),
    }
}

// The first value of the one row that there is; of none NULL, and of several the condition 21000.
fn single_of_rows(alloc: Global, rows: Items<Row>) -> Result<Cell, NoMemory>
    ensures { IfOk result (λ c. c ≡ cell_end (single_of rows)) }
{
    if rows.len() > 1 {
        let area = Area::of(Condition::of(EngineCondition::SeveralRows));
        return Ok(Cell::Cond(Boxed::new(alloc, area)?));
    }
    match rows.get(0) {
        Some(row) => Ok(Cell::Val(first_value(row)?)),
        None => Ok(Cell::Val(Value::Null)),
    }
}

// The cell of EXISTS, by the values of the rows.
fn exists_of_values(alloc: Global, values: Values) -> Result<Cell, NoMemory>
    ensures { IfOk result (λ c. c ≡ exists_end (values_end values)) }
{
    match values {
        Values::Rows(rows) => Ok(Cell::Val(Value::Bool(rows.len() > 0))),
        Values::Raised(area) => Ok(Cell::Cond(Boxed::new(alloc, area)?)),
    }
}

// The cell of IN, by the values of the rows.
fn member_of_values(alloc: Global, sought: Cell, values: Values) -> Result<Cell, NoMemory>
    ensures { IfOk result (λ c. c ≡ member_end sought (values_end values)) }
{
    match (sought, values) {
        (Cell::Val(value), Values::Rows(rows)) => {
            Ok(Cell::Val(among_rows(&value, rows.as_slice())))
        }
        (Cell::Cond(area), _) => Ok(Cell::Cond(area)),
        (Cell::Val(_), Values::Raised(area)) => Ok(Cell::Cond(Boxed::new(alloc, area)?)),
    }
}

// The first value of a row; NULL of a row without values.
#[tactic(auto, using(crate::proofs::FirstValues::first_some, crate::proofs::FirstValues::first_none, std::proofs::lemmas::Grind::common_steps))]
fn first_value(row: &Row) -> Result<Value, NoMemory>
    ensures { IfOk result (λ v. v ≡ value_at row.now 0) }
{
    match row.get(0) {
        Some(value) => Ok(value.copied()?),
        None => Ok(Value::Null),
    }
}

// Whether a value is the first one of some row: TRUE where it is, else NULL where a comparison is
// unknown, else FALSE.
fn among_rows(value: &Value, rows: &[Row]) -> Value
    ensures { result ≡ among_by (TruthValue false) value.now (values_of_column 0 rows.now) }
{
    let mut so_far = Value::Bool(false);
    for row in rows {
        let equal = equal_first(value, row);
        if is_true(&equal) {
            return equal;
        }
        if equal.is_null() {
            so_far = equal;
        }
    }
    so_far
}

// Whether a value equals the first one of a row.
#[tactic(auto, using(crate::proofs::FirstValues::first_some, crate::proofs::FirstValues::first_none, std::proofs::lemmas::Grind::common_steps))]
fn equal_first(value: &Value, row: &Row) -> Value
    ensures { result ≡ equal_values value.now (value_at row.now 0) }
{
    match row.get(0) {
        Some(first) => Comparison::Equals.of(value, first),
        None => Comparison::Equals.of(value, &Value::Null),
    }
}
