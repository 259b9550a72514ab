//! What is asked of tables, joins and subqueries by what they are alone (ISO/IEC 9075-2, 7.6, 7.10
//! and 7.19).

ghost use Rattle.std.specs.Prelude.{◌≡◌, OnOk};
ghost use Rattle.std.specs.Option.{option_copied};
ghost use Rattle.bind_faults.specs.Faults.{noted, taken};
ghost use Rattle.bind_names.specs.Asked as spec;

use bind_faults::{Fault, FaultKind, Notes, note_if};
use row_types::RowType;
use sql_values::NoMemory;
use syntax_trees::{Anchor, Ident};

/// A join with ON (ISO/IEC 9075-2, 7.10).
#[derive(Clone, Copy)]
pub enum Join {
    Inner,
    Left,
}

/// Whether a table is known, and that it is used.
pub fn note_table(ident: &Ident, table: Option<&RowType>, notes: &mut Notes) -> Result<(), NoMemory>
    ensures { OnOk result (notes.new ≡ taken notes.old
        (spec.table_head ident.now (option_copied table.entry))) }
{
    match table {
        Some(_) => notes.add_use(&ident.name),
        None => {
            note_if(true, FaultKind::UnknownName, ident.anchor, &mut notes.least);
            Ok(())
        }
    }
}

/// Whether a join keeps the rows of its left side that meet none of its right side.
pub fn keeps_unmatched(join: Join) -> bool
    ensures { result ≡ spec.keeps_unmatched join }
{
    match join {
        Join::Inner => false,
        Join::Left => true,
    }
}

/// A query of so many columns, where one is wanted.
pub fn note_width(columns: usize, at: Anchor, least: &mut Option<Fault>)
    ensures { least.new ≡ noted least.old (spec.one_column columns at) }
{
    let wrong = columns != 1;
    note_if(wrong, FaultKind::WrongCount, at, least);
}
