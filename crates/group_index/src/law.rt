//! The law of folded groups. The function does nothing; its contract is the law.

ghost use Rattle.std.specs.Prelude.{◌≡◌, List, ℕ};
ghost use Rattle.row_types.specs.Rows.{Row};
ghost use Rattle.row_types.specs.declared.aggregate_column.AggregateColumn.{AggregateColumn};
ghost use Rattle.group_index.specs.Folded.{finished, finished_groups, folded_rows};

use sql_values::folds_are_of_lists;

/// What is kept of rows that are taken one by one finishes as their groups, each with its
/// aggregates (ISO/IEC 9075-2, 7.13 and 10.9).
pub fn foldings_are_of_groups()
    ensures { (places : List ℕ) (aggregates : List AggregateColumn) (rows : List Row) →
        finished (folded_rows places aggregates rows) ≡ finished_groups places aggregates rows }
{
    folds_are_of_lists();
}
