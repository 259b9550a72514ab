//! VALUES of several rows as one list over their numbers.

ghost use Rattle.std.specs.Prelude.{◌≡◌, [], ◌∷◌, ◌++◌, pos, replicate, reverse, IfOk};
ghost use Rattle.sql_values.specs.declared.value.Value.TheVariants.{Null, Int};
ghost use Rattle.rel_algebra.specs.Emit.{numbers as numbers_by};
ghost use Rattle.rel_algebra.specs.Plan.{constant, values};
ghost use Rattle.rel_algebra.specs.PlanView.{scalar_of, scalars_of, lists_of, tree_of};
ghost use Rattle.plan_expressions.specs.Drafts.{drafted};
ghost use Rattle.plan_drafts.specs.Choosing.{number_test, column_from, with_row, closed, arms_of};
ghost use Rattle.plan_drafts.specs.Choosing.{all_arms_of};
ghost use Rattle.plan_drafts.specs.Listing.{listed_only};

use crate::listing::listed_plan;
use plan_expressions::{Draft, compare, turned_scalars};
use rel_algebra::{Leaf, ListWord, Plan, Scalar, ScalarRow};
use sql_values::{Comparison, NoMemory, Value};
use sqlite_items::Items;
use std::alloc::Global;

/// A plan under way whose rows are the numbers below `count`.
pub fn numbered_draft(alloc: Global, count: usize) -> Result<Draft, NoMemory>
    ensures tree { IfOk result (λ d. (drafted d).tree ≡ values (numbers_by 0 count)) }
    ensures width { IfOk result (λ d. (drafted d).width ≡ 1) }
{
    let rows = numbers(alloc, count)?;
    Ok(Draft::over(alloc, Leaf::Values(rows), 1))
}

// A row for each number below `count`, with the number as its only column.
fn numbers(alloc: Global, count: usize) -> Result<Items<ScalarRow>, NoMemory>
    ensures { IfOk result (λ rows. lists_of rows ≡ numbers_by 0 count) }
{
    let mut rows = Items::from_vec(Vec::with_capacity(alloc, count)?);
    for number in 0..count {
        rows.push(number_row(alloc, number)?)?;
    }
    Ok(rows)
}

fn number_row(alloc: Global, number: usize) -> Result<ScalarRow, NoMemory>
    ensures { IfOk result (λ row. arms_of row ≡ constant (Int (pos number)) ∷ []) }
{
    let mut scalars = Items::from_vec(Vec::with_capacity(alloc, 1)?);
    scalars.push(Scalar::Constant(integer(number)?))?;
    Ok(ScalarRow { scalars })
}

// A number as an INTEGER.
fn integer(number: usize) -> Result<Value, NoMemory>
    ensures { IfOk result (λ v. v ≡ Int (pos number)) }
{
    if number > 0x7fff_ffff_ffff_ffff {
        return Err(NoMemory);
    }
    Ok(Value::Int(number as i64))
}

/// So many columns, in which no row stands yet.
pub fn empty_columns(alloc: Global, count: usize) -> Result<Items<ScalarRow>, NoMemory>
    ensures { IfOk result (λ columns. all_arms_of columns ≡ replicate count []) }
{
    let mut columns = Items::from_vec(Vec::with_capacity(alloc, count)?);
    for _ in 0..count {
        columns.push(ScalarRow {
            scalars: Items::new(alloc),
        })?;
    }
    Ok(columns)
}

/// The columns with a row more, by its number. Where the row is shorter, the columns after it are
/// dropped.
pub fn add_row(
    alloc: Global,
    number: usize,
    row: Items<Scalar>,
    columns: Items<ScalarRow>,
) -> Result<Items<ScalarRow>, NoMemory>
    ensures { IfOk result (λ grown. all_arms_of grown ≡ with_row number (all_arms_of columns)
        (scalars_of row)) }
{
    let mut grown = Items::from_vec(Vec::with_capacity(alloc, columns.len())?);
    let mut columns_left = turned_columns(alloc, columns)?;
    let mut row_left = turned_scalars(alloc, row)?;
    while let Some(column) = columns_left.pop() {
        match row_left.pop() {
            Some(scalar) => grown.push(with_arm(alloc, number, scalar, column)?)?,
            None => return Ok(grown),
        }
    }
    Ok(grown)
}

// A column with what stands in it in the row of a number.
fn with_arm(
    alloc: Global,
    number: usize,
    scalar: Scalar,
    column: ScalarRow,
) -> Result<ScalarRow, NoMemory>
    ensures { IfOk result (λ grown. arms_of grown ≡ arms_of column ++ number_test number ∷
        scalar_of scalar ∷ []) }
{
    let value = Scalar::Constant(integer(number)?);
    let test = compare(alloc, Comparison::Equals, Scalar::Column(0, 0), value)?;
    let ScalarRow { mut scalars } = column;
    scalars.push(test)?;
    scalars.push(scalar)?;
    Ok(ScalarRow { scalars })
}

/// The plan whose only columns are these, when all rows stand in them.
pub fn closed_plan(columns: Items<ScalarRow>, draft: Draft) -> Result<Plan, NoMemory>
    ensures { IfOk result (λ p. tree_of p ≡ listed_only (closed (all_arms_of columns))
        (drafted draft).width (drafted draft).tree) }
{
    let scalars = close_columns(draft.allocator(), columns)?;
    listed_plan(scalars, draft)
}

// The columns, when all rows stand in them.
fn close_columns(alloc: Global, columns: Items<ScalarRow>) -> Result<Items<Scalar>, NoMemory>
    ensures { IfOk result (λ scalars. scalars_of scalars ≡ closed (all_arms_of columns)) }
{
    let mut scalars = Items::from_vec(Vec::with_capacity(alloc, columns.len())?);
    let mut columns_left = turned_columns(alloc, columns)?;
    while let Some(column) = columns_left.pop() {
        scalars.push(close_column(column)?)?;
    }
    Ok(scalars)
}

// A column, when all rows stand in it.
fn close_column(column: ScalarRow) -> Result<Scalar, NoMemory>
    ensures { IfOk result (λ s. scalar_of s ≡ column_from (arms_of column) (constant Null)) }
{
    let ScalarRow { mut scalars } = column;
    if scalars.is_empty() {
        return Ok(Scalar::Constant(Value::Null));
    }
    scalars.push(Scalar::Constant(Value::Null))?;
    Ok(Scalar::Listed(ListWord::Case, scalars))
}

// Columns from the last to the first.
fn turned_columns(alloc: Global, columns: Items<ScalarRow>) -> Result<Items<ScalarRow>, NoMemory>
    ensures { IfOk result (λ turned. turned ≡ reverse columns) }
{
    let mut left = columns;
    let mut turned = Items::from_vec(Vec::with_capacity(alloc, left.len())?);
    while let Some(column) = left.pop() {
        turned.push(column)?;
    }
    Ok(turned)
}
