//! Taking changes back. It takes no memory and can't fail.

ghost use Rattle.std.specs.Prelude.{◌≡◌, ◌<◌, ◌≤◌, ℕ, length, take};
ghost use Rattle.row_types.specs.Tables.{table_at, with_rows_at};
ghost use Rattle.table_store.specs.Memory.{kept_at, NoLess};
ghost use Rattle.atomic_undo.specs.Undo.{undo_edit, undo_entry, rows_before, back_to, CanUndo};
ghost use Rattle.atomic_undo.specs.Undo.{CanUndoEdit, CanUndoEntry, Belongs};

use crate::log::{Edit, Entry, Log, Mark};
use sqlite_items::Items;
use table_store::Tables;

// Takes one change of a table back.
fn undo(tables: &mut Tables, table: usize, edit: Edit)
    requires there { table < length tables.old.tables }
    requires can { CanUndoEdit (kept_at tables.old table) edit }
    ensures tables { tables.new.tables ≡ with_rows_at table
        (undo_edit edit (table_at tables.old.tables table).rows) tables.old.tables }
    ensures capacities { NoLess tables.old.capacities tables.new.capacities }
{
    match edit {
        Edit::Inserted(at) => {
            let _ = tables.remove_at(table, at);
        }
        Edit::Appended(at) => tables.truncate(table, at),
        Edit::InsertedAll(places) => tables.drop_all(table, places.as_slice()),
        Edit::Removed(at, row) => tables.insert_at(table, at, row),
        Edit::RemovedAll(removed) => tables.insert_all(table, removed),
        Edit::Replaced(at, row) => {
            let _ = tables.replace_at(table, at, row);
        }
    }
}

/// Takes the changes of one entry back, the last first.
pub fn undo_all(tables: &mut Tables, entry: Entry)
    requires { CanUndoEntry tables.old.capacities tables.old.tables entry }
    ensures tables { tables.new.tables ≡ undo_entry entry tables.old.tables }
    ensures capacities { NoLess tables.old.capacities tables.new.capacities }
{
    let Entry { table, edits } = entry;
    let mut edits = edits;
    while let Some(edit) = edits.pop() {
        undo(tables, table, edit);
    }
}

/// Takes changes of a table back that are not in a log yet.
pub fn take_back(tables: &mut Tables, table: usize, edits: Vec<Edit>)
    requires there { table < length tables.old.tables }
    requires can { CanUndo (kept_at tables.old table) edits.items }
    ensures tables { tables.new.tables ≡ with_rows_at table
        (rows_before edits.items (table_at tables.old.tables table).rows) tables.old.tables }
    ensures capacities { NoLess tables.old.capacities tables.new.capacities }
{
    let edits = Items::from_vec(edits);
    undo_all(tables, Entry { table, edits });
}

/// Takes all changes after a mark back. For each earlier mark, what a roll back to it would give
/// stays.
pub fn roll_back(tables: &mut Tables, log: &mut Log, mark: Mark)
    requires mark { mark ≤ length log.old.entries }
    requires belongs { Belongs tables.old.capacities log.old.entries tables.old.tables }
    ensures tables { tables.new.tables ≡ back_to mark log.old.entries tables.old.tables }
    ensures log { log.new.entries ≡ take mark log.old.entries }
    ensures belongs { Belongs tables.new.capacities log.new.entries tables.new.tables }
    ensures earlier { (m : ℕ) → m ≤ mark → back_to m log.new.entries tables.new.tables ≡
        back_to m log.old.entries tables.old.tables }
{
    while log.goes_past(mark) {
        undo_all(tables, log.pop());
    }
}
