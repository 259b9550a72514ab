//! Whether tables have as many columns as plans that read them were made for.

ghost use Rattle.std.specs.Prelude.{◌≡◌};
ghost use Rattle.std.specs.List.{list_all};
ghost use Rattle.rel_algebra.specs.Joins.{table_width};
ghost use Rattle.run_plans.specs.Widths.{has_width};

use scanned_tables::ScannedTable;
use sql_values::Name;
use table_store::Tables;

/// Whether each table that a plan reads has as many columns as it has there.
pub(crate) fn are_wide(scanned: &[ScannedTable], tables: &Tables) -> bool
    ensures { result ≡ list_all (has_width (table_width tables.now.tables)) scanned.now }
{
    for table in scanned {
        if !is_wide(table, tables) {
            return false;
        }
    }
    true
}

// Whether a table has as many columns as it has in a plan that reads it.
fn is_wide(scanned: &ScannedTable, tables: &Tables) -> bool
    ensures { result ≡ has_width (table_width tables.now.tables) scanned.now }
{
    columns_of(&scanned.name, tables) == scanned.columns
}

// How many columns a table has; a name without a table has none.
fn columns_of(name: &Name, tables: &Tables) -> usize
    ensures { result ≡ table_width tables.now.tables name.now }
{
    match tables.table(name) {
        Some(table) => table.columns().len(),
        None => 0,
    }
}
