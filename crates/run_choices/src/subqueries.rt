//! What is made of a subquery's rows, all of which are there.

ghost use Rattle.std.specs.Prelude.{◌≡◌, IfOk};
ghost use Rattle.rel_algebra.specs.Endings.{value_at, equal_values};
ghost use Rattle.rel_algebra.specs.Joins.{single_of, exists_of, member_of};
ghost use Rattle.rel_algebra.specs.Meaning.{carried};
ghost use Rattle.run_choices.specs.Ending.{TellsAnywhere};

use crate::Stop;
use crate::values::is_true;
use row_types::Row;
use sql_conditions::EngineCondition;
use sql_values::{Comparison, NoMemory, Value};

/// The value of a scalar subquery (ISO/IEC 9075-2, 7.19): that of its one row, NULL of no row, and
/// of several rows a condition.
pub fn single(rows: &[Row]) -> Result<Value, Stop>
    ensures { TellsAnywhere result (carried (single_of rows.now)) }
{
    match rows {
        [] => Ok(Value::Null),
        [row] => Ok(first_value(row)?),
        _ => Err(Stop::of(EngineCondition::SeveralRows)),
    }
}

/// EXISTS (8.10): whether there is a row.
pub fn exists(rows: &[Row]) -> Value
    ensures { result ≡ exists_of rows.now }
{
    Value::Bool(!rows.is_empty())
}

/// IN over a query (8.4): TRUE where the one value of a row is equal, else unknown where a
/// comparison is, else FALSE.
pub fn member(value: &Value, rows: &[Row]) -> Value
    ensures { result ≡ member_of value.now rows.now }
{
    let mut so_far = Value::Bool(false);
    for row in rows {
        let equal = equal_first(value, row);
        if is_true(&equal) {
            return equal;
        }
        if equal.is_null() {
            so_far = equal;
        }
    }
    so_far
}

// The first value of a row; NULL where it has none.
#[tactic(auto, using(crate::proofs::Firsts::first_there, crate::proofs::Firsts::none_there, std::proofs::lemmas::Grind::common_steps))]
fn first_value(row: &Row) -> Result<Value, NoMemory>
    ensures { IfOk result (λ v. v ≡ value_at row.now 0) }
{
    match row.get(0) {
        Some(value) => value.copied(),
        None => Ok(Value::Null),
    }
}

// Whether a value is equal to the first of a row; NULL stands where the row has none.
#[tactic(auto, using(crate::proofs::Firsts::first_there, crate::proofs::Firsts::none_there, std::proofs::lemmas::Grind::common_steps))]
fn equal_first(value: &Value, row: &Row) -> Value
    ensures { result ≡ equal_values value.now (value_at row.now 0) }
{
    match row.get(0) {
        Some(first) => Comparison::Equals.of(value, first),
        None => Comparison::Equals.of(value, &Value::Null),
    }
}
