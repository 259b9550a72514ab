//! The tables as a dump has them: in the order of their making, each with its rows in the order of
//! their keys.

ghost use Rattle.std.specs.Prelude.{◌≡◌, ◌++◌, OnOk};
ghost use Rattle.std.specs.List.{flat_map};
ghost use Rattle.row_types.specs.Tables.{names_of};
ghost use Rattle.reply_text.specs.Texts.{record_text, table_text};
ghost use Rattle.psm_session.specs.Dump.{tables_text};

use reply_text::Dump;
use sql_values::{Name, NoMemory};
use table_store::{Table, Tables};

// Adds the rows of a table.
fn add_rows(dump: &mut Dump, table: &Table) -> Result<(), NoMemory>
    ensures { OnOk result (dump.new ≡ dump.old ++ flat_map record_text table.now.table.rows) }
{
    for at in 0..table.len() {
        dump.add_row(table.row_at(at))?;
    }
    Ok(())
}

// Adds a table with its rows.
fn add_table(dump: &mut Dump, name: &Name, table: &Table) -> Result<(), NoMemory>
    ensures { OnOk result (dump.new ≡ dump.old ++ table_text name.now table.now.table.rows) }
{
    dump.add_table(name, table.len())?;
    add_rows(dump, table)
}

/// Adds all tables, which have these names.
pub(crate) fn add_tables(dump: &mut Dump, names: &[Name], tables: &Tables) -> Result<(), NoMemory>
    requires { names.now ≡ names_of tables.now.tables }
    ensures { OnOk result (dump.new ≡ dump.old ++ tables_text tables.now.tables) }
{
    for at in 0..tables.len() {
        add_table(dump, &names[at], tables.table_at(at))?;
    }
    Ok(())
}
