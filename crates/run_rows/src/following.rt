//! What is made of an answer, where it is there: a stop is told on.

ghost use Rattle.std.specs.Prelude.{[], ◌∷◌, ◌++◌, Some, fold, drop};
ghost use Rattle.sql_values.specs.Casts.{assigned as assigned_by};
ghost use Rattle.sql_values.specs.Operators.{applied as applied_by};
ghost use Rattle.row_types.specs.Sorting.{in_order};
ghost use Rattle.rel_algebra.specs.World.{after, give, outcome, with_front, kept as kept_by};
ghost use Rattle.rel_algebra.specs.Joins.{single_of as single_by, exists_of as exists_by};
ghost use Rattle.rel_algebra.specs.Joins.{member_of as member_by};
ghost use Rattle.rel_algebra.specs.Meaning.{carried, assigned_first};
ghost use Rattle.catalog_store.specs.View.{standing};
ghost use Rattle.group_index.specs.Folded.{with_row as with_row_by, finished as finished_by};
ghost use Rattle.run_expressions.specs.Words.{strict_value};
ghost use Rattle.run_expressions.specs.Following.{Follows};
ghost use Rattle.run_rows.specs.Joins.{or_itself as or_itself_by, with_current};

use crate::from::JoinedRows;
use crate::groups::take_parts;
use crate::joins::{add_row, or_itself};
use bound_trees::BoundOperation;
use group_index::{FinishedGroup, Folding};
use row_sort::sorted;
use row_types::{Row, SortKey};
use run_expressions::{Arguments, Stop, assign_at, exists, member, operation_value, single};
use sql_values::{Operator, SqlType, Value, assign};
use sqlite_items::Items;
use std::alloc::Global;

/// The value of a scalar subquery (ISO/IEC 9075-2, 7.19), by its rows.
pub fn single_of(found: Result<Items<Row>, Stop>) -> Result<Value, Stop>
    ensures { Follows found result (λ rows. carried (single_by rows)) }
{
    match found {
        Ok(rows) => single(rows.as_slice()),
        Err(stop) => Err(stop),
    }
}

/// EXISTS (8.10), by the rows of its query.
pub fn exists_of(found: Result<Items<Row>, Stop>) -> Result<Value, Stop>
    ensures { Follows found result (λ rows. give (exists_by rows)) }
{
    match found {
        Ok(rows) => Ok(exists(rows.as_slice())),
        Err(stop) => Err(stop),
    }
}

/// IN over a query (8.4), by its left side and the rows of the query.
pub fn member_of(value: Value, found: Result<Items<Row>, Stop>) -> Result<Value, Stop>
    ensures { Follows found result (λ rows. give (member_by value rows)) }
{
    match found {
        Ok(rows) => Ok(member(&value, rows.as_slice())),
        Err(stop) => Err(stop),
    }
}

/// What a word makes of the values of all its operands.
pub fn value_of(
    alloc: Global,
    operation: BoundOperation,
    values: Result<Arguments, Stop>,
) -> Result<Value, Stop>
    ensures { Follows values result (λ vs. carried (strict_value (standing operation) vs)) }
{
    match values {
        Ok(values) => Ok(operation_value(alloc, operation, values.as_slice())?),
        Err(stop) => Err(stop),
    }
}

/// What an operator makes of the values of its two sides.
pub fn applied(
    alloc: Global,
    operator: Operator,
    left: Value,
    right: Result<Value, Stop>,
) -> Result<Value, Stop>
    ensures { Follows right result (λ v. outcome (applied_by operator left v)) }
{
    match right {
        Ok(right) => Ok(operator.apply(alloc, &left, &right)?),
        Err(stop) => Err(stop),
    }
}

/// A value as a type takes it.
pub fn assigned(alloc: Global, value: Result<Value, Stop>, to: SqlType) -> Result<Value, Stop>
    ensures { Follows value result (λ v. outcome (assigned_by to v)) }
{
    match value {
        Ok(value) => Ok(assign(alloc, value, to)?),
        Err(stop) => Err(stop),
    }
}

/// An argument more, assigned to the parameter at its place; without one the value itself.
pub fn with_argument(
    alloc: Global,
    values: Arguments,
    value: Result<Value, Stop>,
    parameters: &[SqlType],
    place: usize,
) -> Result<Arguments, Stop>
    ensures { Follows value result (λ v u. after
        (outcome (assigned_first (drop place parameters.now) v) u)
        (λ x. give (values ++ x ∷ []))) }
{
    match value {
        Ok(value) => {
            let mut values = values;
            values.push(assign_at(alloc, value, parameters, place)?)?;
            Ok(values)
        }
        Err(stop) => Err(stop),
    }
}

/// A row with a value more.
pub fn with_value(values: Row, value: Result<Value, Stop>) -> Result<Row, Stop>
    ensures { Follows value result (λ v. give (values ++ v ∷ [])) }
{
    match value {
        Ok(value) => {
            let mut values = values;
            values.push(value)?;
            Ok(values)
        }
        Err(stop) => Err(stop),
    }
}

/// Rows with a row more.
pub fn with_row(rows: Items<Row>, row: Result<Row, Stop>) -> Result<Items<Row>, Stop>
    ensures { Follows row result (λ r. give (rows ++ r ∷ [])) }
{
    match row {
        Ok(row) => {
            let mut rows = rows;
            rows.push(row)?;
            Ok(rows)
        }
        Err(stop) => Err(stop),
    }
}

/// Rows with a row more, where there is one.
pub fn with_kept(rows: Items<Row>, row: Result<Option<Row>, Stop>) -> Result<Items<Row>, Stop>
    ensures { Follows row result (λ r. give (rows ++ with_front r [])) }
{
    match row {
        Ok(row) => {
            let mut rows = rows;
            add_row(&mut rows, row)?;
            Ok(rows)
        }
        Err(stop) => Err(stop),
    }
}

/// Rows with others after them.
pub fn with_rows(rows: Items<Row>, more: Result<Items<Row>, Stop>) -> Result<Items<Row>, Stop>
    ensures { Follows more result (λ rs. give (rows ++ rs)) }
{
    match more {
        Ok(more) => {
            let mut rows = rows;
            rows.append(more)?;
            Ok(rows)
        }
        Err(stop) => Err(stop),
    }
}

/// A record that is there.
pub fn some_row(row: Result<Row, Stop>) -> Result<Option<Row>, Stop>
    ensures { Follows row result (λ r. give (Some r)) }
{
    match row {
        Ok(row) => Ok(Some(row)),
        Err(stop) => Err(stop),
    }
}

/// A row, where it is kept.
pub fn kept(keep: Result<bool, Stop>, row: Row) -> Result<Option<Row>, Stop>
    ensures { Follows keep result (λ yes. kept_by yes (give row)) }
{
    match keep {
        Ok(true) => Ok(Some(row)),
        Ok(false) => Ok(None),
        Err(stop) => Err(stop),
    }
}

/// What a left row gives that has these pairs: with a number of NULLs, itself beside them where it
/// has none.
pub fn with_itself(
    alloc: Global,
    nulls: Option<usize>,
    left: &Row,
    found: Result<Items<Row>, Stop>,
) -> Result<Items<Row>, Stop>
    ensures { Follows found result (λ rows. give (or_itself_by nulls left.now rows)) }
{
    match found {
        Ok(found) => Ok(or_itself(alloc, nulls, left, found)?),
        Err(stop) => Err(stop),
    }
}

/// The rows of FROM with those of a join after the last comma.
pub fn with_found(joined: JoinedRows, found: Result<Items<Row>, Stop>) -> Result<JoinedRows, Stop>
    ensures { Follows found result (λ rows. give (with_current joined rows)) }
{
    match found {
        Ok(found) => Ok(joined.with_current(found)),
        Err(stop) => Err(stop),
    }
}

/// The parts of a row more, where it is kept.
pub fn with_parts(folding: Folding, parts: Result<Option<Row>, Stop>) -> Result<Folding, Stop>
    ensures { Follows parts result (λ ps. give (fold with_row_by folding (with_front ps []))) }
{
    match parts {
        Ok(parts) => {
            let mut folding = folding;
            take_parts(&mut folding, parts)?;
            Ok(folding)
        }
        Err(stop) => Err(stop),
    }
}

/// The groups of rows that are folded, each finished.
pub fn finished(folding: Result<Folding, Stop>) -> Result<Items<FinishedGroup>, Stop>
    ensures { Follows folding result (λ f. give (finished_by f)) }
{
    match folding {
        Ok(folding) => Ok(folding.finish()?),
        Err(stop) => Err(stop),
    }
}

/// Rows in the order of some columns (7.17).
pub fn ordered(
    alloc: Global,
    rows: Result<Items<Row>, Stop>,
    keys: &[SortKey],
) -> Result<Items<Row>, Stop>
    ensures { Follows rows result (λ rs. give (in_order keys.now rs)) }
{
    match rows {
        Ok(rows) => Ok(sorted(alloc, rows, keys)?),
        Err(stop) => Err(stop),
    }
}
