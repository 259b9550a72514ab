//! Which function a call names, and what a call asks by itself (ISO/IEC 9075-2, 10.4).

ghost use Rattle.std.specs.Prelude.{◌≡◌, OnOk};
ghost use Rattle.std.specs.Option.{option_copied};
ghost use Rattle.bind_faults.specs.Faults.{taken};
ghost use Rattle.bind_sight.specs.Sight.{seen_by};
ghost use Rattle.bind_names.specs.Calls as spec;

use bind_faults::{FaultKind, Notes, note_if};
use bind_sight::{EnclosingRoutine, Sight};
use catalog_store::{Catalog, DataAccess, FunctionHead, Object};
use sql_values::{Name, NoMemory};
use syntax_trees::Ident;

/// The function of a name in the catalog, with a plan or without one.
pub fn function_named<'a>(name: &Name, catalog: &'a Catalog) -> Option<&'a FunctionHead>
    ensures { option_copied result ≡ spec.head_named name.now catalog.now }
{
    match catalog.get(name) {
        Some(Object::Function(function)) => Some(&function.head),
        Some(Object::Interpreted(function)) => Some(&function.head),
        Some(Object::Table(_)) => None,
        Some(Object::Procedure(_)) => None,
        None => None,
    }
}

fn is_own(name: &Name, own: &Option<EnclosingRoutine>) -> bool
    ensures { result ≡ spec.is_own name.now own.now }
{
    match own {
        Some(routine) => routine.name == *name,
        None => false,
    }
}

fn own_head(own: &Option<EnclosingRoutine>) -> Option<&FunctionHead>
    ensures { option_copied result ≡ spec.own_head own.now }
{
    match own {
        Some(routine) => routine.head.as_ref(),
        None => None,
    }
}

/// The function of a name: the one in whose body the name stands, or one in the catalog.
pub fn function_in_sight<'a>(name: &Name, sight: &Sight<'a>) -> Option<&'a FunctionHead>
    ensures { option_copied result ≡ spec.function_in_sight name.now (seen_by sight.now) }
{
    if is_own(name, sight.own) {
        own_head(sight.own)
    } else {
        function_named(name, sight.catalog)
    }
}

fn is_modifying(access: DataAccess) -> bool
    ensures { result ≡ spec.is_modifying access }
{
    match access {
        DataAccess::ModifiesSqlData => true,
        DataAccess::ContainsSql | DataAccess::ReadsSqlData => false,
    }
}

/// What a call asks by itself, perhaps inside INSERT, UPDATE or DELETE.
pub fn note_call(
    writing: bool,
    ident: &Ident,
    arguments: usize,
    function: Option<&FunctionHead>,
    notes: &mut Notes,
) -> Result<(), NoMemory>
    ensures { OnOk result (notes.new ≡ taken notes.old
        (spec.call_head writing ident.now arguments (option_copied function.entry))) }
{
    match function {
        None => {
            note_if(true, FaultKind::UnknownName, ident.anchor, &mut notes.least);
            Ok(())
        }
        Some(head) => {
            let wrong = arguments != head.parameters.len();
            note_if(wrong, FaultKind::WrongCount, ident.anchor, &mut notes.least);
            let barred = writing && is_modifying(head.access);
            note_if(
                barred,
                FaultKind::NotPermitted,
                ident.anchor,
                &mut notes.least,
            );
            notes.add_use(&ident.name)
        }
    }
}
