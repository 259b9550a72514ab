//! Changes of tables, all or none, which can be taken back.

ghost use Rattle.std.specs.Prelude.{◌≡◌, ◌<◌, ◌≤◌, length};
ghost use Rattle.row_types.specs.Tables.{table_at};
ghost use Rattle.atomic_undo.specs.Undo.{Belongs};
ghost use Rattle.atomic_undo.specs.Changes.{rows_in, IsAnswer};
ghost use Rattle.atomic_undo.specs.Applying.{result_of, count_of, IsFor, IsApplied, KeepsMarks};

use crate::changes::Changes;
use crate::delete::delete_rows;
use crate::fault::ApplyFault;
use crate::insert::insert_rows;
use crate::log::{Edit, Entry, Log};
use crate::update::update_rows;
use sqlite_items::Items;
use std::alloc::Global;
use table_store::Tables;

impl Changes {
    // How many rows are met.
    fn count(&self) -> usize
        ensures { result ≡ count_of self.now }
    {
        match self {
            Changes::Insert(new) => new.len(),
            Changes::Update(_, new) => new.len(),
            Changes::Delete(places) => places.len(),
        }
    }
}

// Makes the changes, and gives the edits that take them back.
fn make(
    alloc: Global,
    tables: &mut Tables,
    table: usize,
    changes: Changes,
) -> Result<Items<Edit>, ApplyFault>
    requires there { table < length tables.old.tables }
    requires changes { IsFor (table_at tables.old.tables table) changes }
    ensures { IsAnswer tables.old tables.new table
        (result_of changes (rows_in tables.old.tables table)) result }
{
    match changes {
        Changes::Insert(new) => insert_rows(alloc, tables, table, new),
        Changes::Update(places, new) => update_rows(alloc, tables, table, places, new),
        Changes::Delete(places) => delete_rows(alloc, tables, table, places),
    }
}

/// Makes the changes in the table at a place, all or none, and notes in the log how to take them
/// back. The answer is the number of rows.
pub fn apply(
    tables: &mut Tables,
    log: &mut Log,
    table: usize,
    changes: Changes,
) -> Result<u64, ApplyFault>
    requires there { table < length tables.old.tables }
    requires changes { IsFor (table_at tables.old.tables table) changes }
    requires belongs { Belongs tables.old.capacities log.old.entries tables.old.tables }
    ensures answer { IsApplied tables.old log.old tables.new log.new table changes result }
    ensures belongs { Belongs tables.new.capacities log.new.entries tables.new.tables }
    ensures marks { KeepsMarks tables.old log.old tables.new log.new }
{
    let Ok(()) = log.reserve_one() else {
        return Err(ApplyFault::NoMemory);
    };
    let count = changes.count();
    match make(log.allocator(), tables, table, changes) {
        Ok(edits) => {
            log.push(Entry { table, edits });
            Ok(count as u64)
        }
        Err(fault) => Err(fault),
    }
}
