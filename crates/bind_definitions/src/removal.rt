//! DROP (ISO/IEC 9075-2, 11.31 and 11.62).

ghost use Rattle.std.specs.Prelude.{◌≡◌, IfOk, OnOk};
ghost use Rattle.catalog_store.specs.Catalog.{object_named};
ghost use Rattle.bind_faults.specs.Faults.{noted};
ghost use Rattle.bind_definitions.specs.Removals as spec;

use bind_faults::Fault;
use bind_rules::{is_function, is_procedure, is_table, note_removal};
use catalog_store::{Catalog, Object};
use sql_values::{Name, NoMemory};
use statement_trees::{DropObject, ObjectSort};

// Whether what a name stands for is of a sort.
fn is_of_sort(sort: ObjectSort, name: &Name, catalog: &Catalog) -> bool
    ensures { result ≡ spec.is_of_sort sort (object_named name.now catalog.now) }
{
    match catalog.get(name) {
        Some(Object::Table(_)) => is_table(sort),
        Some(Object::Function(_)) => is_function(sort),
        Some(Object::Interpreted(_)) => is_function(sort),
        Some(Object::Procedure(_)) => is_procedure(sort),
        None => false,
    }
}

/// The name of a DROP, with its faults noted: no thing of the sort has it, or another entry uses
/// it.
pub fn bind_drop(
    removal: &DropObject,
    catalog: &Catalog,
    least: &mut Option<Fault>,
) -> Result<Name, NoMemory>
    ensures value { IfOk result (λ name. name ≡ (spec.judged_drop removal.now catalog.now).value) }
    ensures faults { OnOk result (least.new ≡ noted least.old
        (spec.judged_drop removal.now catalog.now).faults) }
{
    let ident = &removal.name;
    let stands = is_of_sort(removal.sort, &ident.name, catalog);
    note_removal(ident, stands, catalog.users_of(&ident.name), least);
    ident.name.copied()
}
