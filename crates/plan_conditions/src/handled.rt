//! Whether a handler waits for the conditions of a cell (ISO/IEC 9075-4, 14.2).

ghost use Rattle.std.specs.Prelude.{◌≡◌};
ghost use Rattle.rel_algebra.specs.OnConditions.{matches_cell as matches_cell_by};
ghost use Rattle.rel_algebra.specs.States as states;
ghost use Rattle.rel_algebra.specs.WordView.{condition_value};

use rel_algebra::ConditionValue;
use row_types::Cell;
use sql_conditions::{Class, SqlState};
use sql_values::Value;

// Whether what a handler waits for is a state by its name.
fn names(value: &ConditionValue, state: &SqlState) -> bool
    ensures { result ≡ states.names (condition_value value.now) state.now }
{
    match value {
        ConditionValue::State(named) => named.is(state),
        _ => false,
    }
}

// Whether what a handler waits for is the class of a state.
fn covers(value: &ConditionValue, state: &SqlState) -> bool
    ensures { result ≡ states.covers (condition_value value.now) state.now }
{
    match (value, state.class()) {
        (ConditionValue::SqlException, Class::Exception) => true,
        (ConditionValue::SqlWarning, Class::Warning) => true,
        (ConditionValue::NotFound, Class::NoData) => true,
        _ => false,
    }
}

/// Whether a handler waits for the newest condition of a cell; for a value none does.
pub fn matches_cell(value: &ConditionValue, cell: &Cell) -> Cell
    ensures { result ≡ matches_cell_by (condition_value value.now) cell.now }
{
    match cell {
        Cell::Val(_) => Cell::Val(Value::Bool(false)),
        Cell::Cond(area) => {
            let state = area.get().state();
            Cell::Val(Value::Bool(names(value, state) || covers(value, state)))
        }
    }
}
