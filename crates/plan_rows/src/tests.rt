//! What the cell of a test decides of its row: a Filter, an ON or the whens of an Apply.

ghost use Rattle.std.specs.Prelude.{◌≡◌, List};
ghost use Rattle.row_types.specs.declared.cell.Cell.{Cell as PlainCell};
ghost use Rattle.rel_algebra.specs.Plan.{kept};
ghost use Rattle.plan_rows.specs.Tests.{test_of, tested_rows};

use crate::cells::is_true;
use row_types::Cell;
use sql_conditions::Area;
use sqlite_items::Boxed;

/// What a test says of its row.
#[derive(Drop)]
pub enum Tested {
    /// It is true: the row stays.
    Stays,
    /// It is false or unknown: the row is left out.
    Gone,
    /// It raises this area: the row is poisoned by it.
    Raises(Boxed<Area>),
}

/// What a Filter does with a row (ISO/IEC 9075-2, 7.12), by the cell of its test: the row stays
/// where that is TRUE, is left out where it is FALSE or unknown, and is poisoned where it is a
/// condition.
pub fn filtered(test: Cell) -> Tested
    ensures test { result ≡ test_of test }
    ensures rows { (row : List PlainCell) → tested_rows result row ≡ kept test row }
{
    match test {
        Cell::Val(value) => {
            if is_true(&value) {
                return Tested::Stays;
            }
            Tested::Gone
        }
        Cell::Cond(area) => Tested::Raises(area),
    }
}
