//! CALL (ISO/IEC 9075-2, 15.1).

ghost use Rattle.std.specs.Prelude.{◌≡◌, IfOk, OnOk};
ghost use Rattle.std.specs.Option.{option_copied};
ghost use Rattle.catalog_store.specs.Catalog.{object_named};
ghost use Rattle.bind_faults.specs.Faults.{noted, taken};
ghost use Rattle.bind_simple.specs.Places.{place_by};
ghost use Rattle.bind_simple.specs.Calls as spec;

use crate::arguments::{bind_argument, wanted_at};
use crate::place::Surroundings;
use bind_faults::{Fault, FaultKind, Notes, note_if};
use bind_sight::EnclosingRoutine;
use bound_trees::{BoundArgument, BoundCall};
use catalog_store::{Catalog, Object, ProcedureHead};
use sql_values::{Name, NoMemory};
use sqlite_items::Items;
use statement_trees::{Argument, Call};
use std::alloc::Global;
use syntax_trees::Ident;

/// The procedure of a name in the catalog.
fn procedure_in<'a>(name: &Name, catalog: &'a Catalog) -> Option<&'a ProcedureHead>
    ensures { option_copied result ≡ spec.procedure_in (object_named name.now catalog.now) }
{
    match catalog.get(name) {
        Some(Object::Procedure(procedure)) => Some(&procedure.head),
        Some(Object::Table(_)) => None,
        Some(Object::Function(_)) => None,
        Some(Object::Interpreted(_)) => None,
        None => None,
    }
}

// Whether a name is that of the routine around the statement.
fn is_own(name: &Name, own: &Option<EnclosingRoutine>) -> bool
    ensures { result ≡ spec.is_own name.now own.now }
{
    match own {
        Some(own) => own.name == *name,
        None => false,
    }
}

// The procedure around the statement, or one of the catalog.
fn procedure_named<'a>(name: &Name, place: &Surroundings<'a>) -> Option<&'a ProcedureHead>
    ensures { option_copied result ≡ spec.procedure_named name.now (place_by place.now) }
{
    if is_own(name, place.own) {
        place.procedure.as_ref()
    } else {
        procedure_in(name, place.catalog)
    }
}

fn note_name(
    ident: &Ident,
    arguments: usize,
    procedure: Option<&ProcedureHead>,
    least: &mut Option<Fault>,
)
    ensures { least.new ≡ noted least.old (spec.name_faults ident.now arguments
        (option_copied procedure.entry)) }
{
    match procedure {
        Some(head) => {
            let wrong = arguments != head.parameters.len();
            note_if(wrong, FaultKind::WrongCount, ident.anchor, least);
        }
        None => note_if(true, FaultKind::UnknownName, ident.anchor, least),
    }
}

// The procedure is known, and is used.
fn note_procedure(
    ident: &Ident,
    arguments: usize,
    procedure: Option<&ProcedureHead>,
    notes: &mut Notes,
) -> Result<(), NoMemory>
    ensures { OnOk result (notes.new ≡ taken notes.old
        (spec.judged_name ident.now arguments (option_copied procedure.entry))) }
{
    note_name(ident, arguments, procedure, &mut notes.least);
    if procedure.is_some() {
        notes.add_use(&ident.name)?;
    }
    Ok(())
}

// One argument more, by the parameter of its place.
fn add_argument(
    alloc: Global,
    script: bool,
    procedure: Option<&ProcedureHead>,
    argument: &Argument,
    place: &Surroundings<'_>,
    so: &mut Items<BoundArgument>,
    notes: &mut Notes,
) -> Result<(), NoMemory>
    ensures value { OnOk result (so.new ≡ (spec.one_argument script (place_by place.now)
        (option_copied procedure.entry) so.old argument.now).value) }
    ensures notes { OnOk result (notes.new ≡ taken notes.old
        (spec.one_argument script (place_by place.now) (option_copied procedure.entry) so.old
        argument.now)) }
{
    let wanted = wanted_at(procedure, so.len());
    let bound = bind_argument(alloc, script, wanted, argument, place, notes)?;
    so.push(bound)?;
    Ok(())
}

fn bind_arguments(
    alloc: Global,
    script: bool,
    procedure: Option<&ProcedureHead>,
    arguments: &[Argument],
    place: &Surroundings<'_>,
    notes: &mut Notes,
) -> Result<Items<BoundArgument>, NoMemory>
    ensures value { IfOk result (λ bs. bs ≡ (spec.judged_arguments script (place_by place.now)
        (option_copied procedure.entry) arguments.now).value) }
    ensures notes { OnOk result (notes.new ≡ taken notes.old
        (spec.judged_arguments script (place_by place.now) (option_copied procedure.entry)
        arguments.now)) }
{
    let mut so = Items::new(alloc);
    for argument in arguments {
        add_argument(alloc, script, procedure, argument, place, &mut so, notes)?;
    }
    Ok(so)
}

/// A CALL of the script's, or of a routine or block, with its names resolved, and what is noted on
/// the way.
pub fn bind_call(
    alloc: Global,
    script: bool,
    call: &Call,
    place: &Surroundings<'_>,
    notes: &mut Notes,
) -> Result<BoundCall, NoMemory>
    ensures value { IfOk result (λ b. b ≡ (spec.judged_call script call.now (place_by place.now)).value) }
    ensures notes { OnOk result (notes.new ≡ taken notes.old
        (spec.judged_call script call.now (place_by place.now))) }
{
    let name = call.name.name.copied()?;
    let procedure = procedure_named(&call.name.name, place);
    note_procedure(&call.name, call.arguments.len(), procedure, notes)?;
    let arguments = call.arguments.as_slice();
    let arguments = bind_arguments(alloc, script, procedure, arguments, place, notes)?;
    Ok(BoundCall {
        procedure: name,
        arguments,
    })
}
