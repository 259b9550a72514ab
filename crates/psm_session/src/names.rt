//! The names of the tables, in the order of their making. A table is found by its name and tells
//! none, so the names stand in a list of their own, which grows and shrinks as tables come and go.

ghost use Rattle.std.specs.Prelude.{◌≡◌, ◌<◌, ◌++◌, IfOk, OnErr, OnOk, IsSome, None, vec_len};
ghost use Rattle.std.specs.Prelude.{vec_capacity};
ghost use Rattle.row_types.specs.Tables.{names_of};
ghost use Rattle.catalog_store.specs.Catalog.{object_named};
ghost use Rattle.catalog_store.specs.Entries.{entry_of, ObjectFits};
ghost use Rattle.catalog_store.specs.Users.{users_of};
ghost use Rattle.psm_effects.specs.Conclusions.{database, IsEffect};
ghost use Rattle.psm_effects.specs.Effects.{created, dropped};
ghost use Rattle.psm_effects.specs.Shapes.{IsWhole};
ghost use Rattle.psm_session.specs.Names.{names_of_object, optional, without_name};

use catalog_store::{Catalog, Object};
use kept_queries::KeptPlans;
use psm_effects::{create, drop_object};
use reply_text::Reply;
use sql_values::{Name, NoMemory};
use std::alloc::Global;
use table_store::Tables;

// The name of an object, once more, where it is a table; there is memory for it then behind the
// others.
fn noted_name(name: &Name, object: &Object, names: &mut Vec<Name>) -> Result<Option<Name>, NoMemory>
    ensures name { IfOk result (λ n. optional n ≡ names_of_object name.now object.now) }
    ensures room { OnOk result (vec_len names.new < vec_capacity names.new) }
    ensures names { names.new.items ≡ names.old.items }
{
    names.reserve(1)?;
    match object {
        Object::Table(_) => Ok(Some(name.copied()?)),
        Object::Function(_) | Object::Interpreted(_) | Object::Procedure(_) => Ok(None),
    }
}

// Puts a name behind the others, where there is one.
fn add_name(names: &mut Vec<Name>, name: Option<Name>)
    requires { vec_len names.old < vec_capacity names.old }
    ensures { names.new.items ≡ names.old.items ++ optional name }
{
    match name {
        Some(name) => names.push_reserved(name),
        None => {}
    }
}

// Takes a name out of the list, where it stands there.
fn remove_name(names: &mut Vec<Name>, name: &Name)
    ensures { names.new.items ≡ without_name name.now names.old.items }
{
    for at in 0..names.len() {
        if &names[at] == name {
            let _ = names.remove(at);
            return;
        }
    }
}

// Makes an entry of the catalog, and its table where it is one, whose name comes behind those of
// the others.
fn make_entry(
    alloc: Global,
    name: Name,
    object: Object,
    catalog: &mut Catalog,
    tables: &mut Tables,
    names: &mut Vec<Name>,
) -> Result<Reply, NoMemory>
    requires free { object_named name catalog.old ≡ None }
    requires fits { ObjectFits catalog.old object }
    requires whole { IsWhole (database catalog.old tables.old) }
    requires names { names.old.items ≡ names_of tables.old.tables }
    ensures ok { IfOk result (λ r. IsEffect (created (entry_of catalog.old name object)
        (database catalog.old tables.old)) r (database catalog.new tables.new)) }
    ensures err { OnErr result (database catalog.new tables.new ≡ database catalog.old tables.old) }
    ensures whole { IsWhole (database catalog.new tables.new) }
    ensures names { names.new.items ≡ names_of tables.new.tables }
{
    let noted = noted_name(&name, &object, names)?;
    let reply = create(alloc, name, object, catalog, tables)?;
    add_name(names, noted);
    Ok(reply)
}

/// Makes an entry of the catalog, and its table where it is one, whose name comes behind those of
/// the others. No plan of the old catalog is kept. Without memory nothing changes.
pub(crate) fn make(
    alloc: Global,
    name: Name,
    object: Object,
    catalog: &mut Catalog,
    tables: &mut Tables,
    names: &mut Vec<Name>,
    kept: &mut KeptPlans,
) -> Result<Reply, NoMemory>
    requires free { object_named name catalog.old ≡ None }
    requires fits { ObjectFits catalog.old object }
    requires whole { IsWhole (database catalog.old tables.old) }
    requires names { names.old.items ≡ names_of tables.old.tables }
    requires kept { kept.old ≡ catalog.old }
    ensures ok { IfOk result (λ r. IsEffect (created (entry_of catalog.old name object)
        (database catalog.old tables.old)) r (database catalog.new tables.new)) }
    ensures err { OnErr result (database catalog.new tables.new ≡ database catalog.old tables.old) }
    ensures whole { IsWhole (database catalog.new tables.new) }
    ensures names { names.new.items ≡ names_of tables.new.tables }
    ensures kept { kept.new ≡ catalog.new }
{
    let reply = make_entry(alloc, name, object, catalog, tables, names)?;
    *kept = KeptPlans::new(alloc, &*catalog);
    Ok(reply)
}

/// Takes an entry that nothing uses out of the catalog, and its table with its name, where it is
/// one. No plan of the old catalog is kept. Without memory nothing changes.
pub(crate) fn take_out(
    alloc: Global,
    name: &Name,
    catalog: &mut Catalog,
    tables: &mut Tables,
    names: &mut Vec<Name>,
    kept: &mut KeptPlans,
) -> Result<Reply, NoMemory>
    requires there { IsSome (object_named name.now catalog.old) }
    requires unused { users_of name.now catalog.old ≡ 0 }
    requires whole { IsWhole (database catalog.old tables.old) }
    requires names { names.old.items ≡ names_of tables.old.tables }
    requires kept { kept.old ≡ catalog.old }
    ensures ok { IfOk result (λ r. IsEffect (dropped name.now (database catalog.old tables.old)) r
        (database catalog.new tables.new)) }
    ensures err { OnErr result (database catalog.new tables.new ≡ database catalog.old tables.old) }
    ensures whole { IsWhole (database catalog.new tables.new) }
    ensures names { names.new.items ≡ names_of tables.new.tables }
    ensures kept { kept.new ≡ catalog.new }
{
    let reply = drop_object(alloc, name, catalog, tables)?;
    remove_name(names, name);
    *kept = KeptPlans::new(alloc, &*catalog);
    Ok(reply)
}
