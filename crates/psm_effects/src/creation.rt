//! A new entry of the catalog, with its plan or its table. The reply and the plan are made first,
//! and a table is taken back where there is no memory for its entry.

ghost use Rattle.std.specs.Prelude.{◌≡◌, ◌++◌, ◌∷◌, [], None, IfOk, OnOk, OnErr};
ghost use Rattle.row_types.specs.Tables.{table_named, without_table_named};
ghost use Rattle.catalog_store.specs.Catalog.{object_named};
ghost use Rattle.catalog_store.specs.Entries.{entry_of, object_of, ObjectFits, IsPlanned};
ghost use Rattle.psm_effects.specs.Effects.{created, with_table_of};
ghost use Rattle.psm_effects.specs.Conclusions.{database, IsEffect};
ghost use Rattle.psm_effects.specs.Shapes.{IsWhole};

use catalog_store::{Catalog, Object};
use plan_queries::with_plan;
use reply_text::{Reply, done_reply};
use sql_values::{Name, NoMemory};
use std::alloc::Global;
use table_store::{Table, Tables};

// Adds the table of an object, where it is one.
fn add_table(
    alloc: Global,
    name: &Name,
    object: &Object,
    catalog: &Catalog,
    tables: &mut Tables,
) -> Result<(), NoMemory>
    requires free { table_named name.now tables.old.tables ≡ None }
    requires fits { ObjectFits catalog.now object.now }
    ensures ok { OnOk result (tables.new.tables ≡ with_table_of name.now
        (object_of catalog.now object.now) tables.old.tables) }
    ensures err { OnErr result (tables.new ≡ tables.old) }
{
    match object {
        Object::Table(row_type) => {
            let row_type = row_type.copied(alloc)?;
            tables.add_table(name.copied()?, Table::new(alloc, row_type))
        }
        Object::Function(_) | Object::Interpreted(_) | Object::Procedure(_) => Ok(()),
    }
}

// Adds an entry to the catalog. Where there is no memory for it, its table goes.
fn add_entry(
    name: Name,
    object: Object,
    catalog: &mut Catalog,
    tables: &mut Tables,
) -> Result<(), NoMemory>
    requires free { object_named name catalog.old ≡ None }
    requires fits { ObjectFits catalog.old object }
    requires planned { IsPlanned catalog.old object }
    ensures added { OnOk result (catalog.new ≡ catalog.old ++ entry_of catalog.old name object ∷ []) }
    ensures stays { OnOk result (tables.new ≡ tables.old) }
    ensures err { OnErr result ((catalog.new ≡ catalog.old) ×
        (tables.new.tables ≡ without_table_named name tables.old.tables)) }
{
    match catalog.add(name, object) {
        Ok(()) => Ok(()),
        Err(failed) => {
            let (name, _) = failed.value;
            tables.drop_table(&name);
            Err(NoMemory)
        }
    }
}

// Adds a planned object to the catalog, with its table where it is one. Where there is no memory
// for both, neither stays.
fn add_object(
    alloc: Global,
    name: Name,
    object: Object,
    catalog: &mut Catalog,
    tables: &mut Tables,
) -> Result<(), NoMemory>
    requires free { object_named name catalog.old ≡ None }
    requires fits { ObjectFits catalog.old object }
    requires planned { IsPlanned catalog.old object }
    requires whole { IsWhole (database catalog.old tables.old) }
    ensures ok { OnOk result (database catalog.new tables.new ≡
        (created (entry_of catalog.old name object) (database catalog.old tables.old)).after) }
    ensures err { OnErr result (database catalog.new tables.new ≡ database catalog.old tables.old) }
    ensures whole { IsWhole (database catalog.new tables.new) }
{
    add_table(alloc, &name, &object, catalog, tables)?;
    add_entry(name, object, catalog, tables)
}

// Makes the plan of an object that is to have one, and adds it to the catalog.
fn add_planned(
    alloc: Global,
    name: Name,
    object: Object,
    catalog: &mut Catalog,
    tables: &mut Tables,
) -> Result<(), NoMemory>
    requires free { object_named name catalog.old ≡ None }
    requires fits { ObjectFits catalog.old object }
    requires whole { IsWhole (database catalog.old tables.old) }
    ensures ok { OnOk result (database catalog.new tables.new ≡
        (created (entry_of catalog.old name object) (database catalog.old tables.old)).after) }
    ensures err { OnErr result (database catalog.new tables.new ≡ database catalog.old tables.old) }
    ensures whole { IsWhole (database catalog.new tables.new) }
{
    let object = with_plan(alloc, object, catalog)?;
    add_object(alloc, name, object, catalog, tables)
}

/// Makes an entry of the catalog: a function with its plan, or a table, which has no rows yet.
/// Without memory nothing changes.
pub fn create(
    alloc: Global,
    name: Name,
    object: Object,
    catalog: &mut Catalog,
    tables: &mut Tables,
) -> Result<Reply, NoMemory>
    requires free { object_named name catalog.old ≡ None }
    requires fits { ObjectFits catalog.old object }
    requires whole { IsWhole (database catalog.old tables.old) }
    ensures ok { IfOk result (λ r. IsEffect (created (entry_of catalog.old name object)
        (database catalog.old tables.old)) r (database catalog.new tables.new)) }
    ensures err { OnErr result (database catalog.new tables.new ≡ database catalog.old tables.old) }
    ensures whole { IsWhole (database catalog.new tables.new) }
{
    let reply = done_reply(alloc, &[], None)?;
    add_planned(alloc, name, object, catalog, tables)?;
    Ok(reply)
}
