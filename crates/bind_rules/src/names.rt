//! What is asked of names in a row: of those that are new, and of lists of columns.

ghost use Rattle.std.specs.Prelude.{◌≡◌, ◌++◌, [], IfOk, OnOk};
ghost use Rattle.std.specs.List.{flat_map};
ghost use Rattle.bind_faults.specs.Faults.{noted};
ghost use Rattle.bind_rules.specs.Names.{repeated};
ghost use Rattle.bind_rules.specs.Names as spec;

use bind_faults::{Fault, FaultKind, note_if};
use bind_sight::NameList;
use catalog_store::Catalog;
use sql_values::{Name, NoMemory};
use sqlite_items::Items;
use std::alloc::Global;
use syntax_trees::Ident;

/// Whether what is to be made has a name that stands for something already.
pub fn note_taken(ident: &Ident, catalog: &Catalog, least: &mut Option<Fault>)
    ensures { least.new ≡ noted least.old (spec.taken_name ident.now catalog.now) }
{
    let found = catalog.get(&ident.name);
    note_if(
        found.is_some(),
        FaultKind::DuplicateName,
        ident.anchor,
        least,
    );
}

/// A copy of a name as it is written.
pub fn copied(ident: &Ident) -> Result<Ident, NoMemory>
    ensures { IfOk result (λ i. i ≡ ident.now) }
{
    Ok(Ident {
        name: ident.name.copied()?,
        anchor: ident.anchor,
    })
}

fn copied_names(alloc: Global, idents: &[Ident]) -> Result<Items<Name>, NoMemory>
    ensures { IfOk result (λ names. names ≡ spec.names_of idents.now) }
{
    let mut names = Items::new(alloc);
    for ident in idents {
        names.push(ident.name.copied()?)?;
    }
    Ok(names)
}

/// The names with an index by which each is found.
pub fn indexed(alloc: Global, idents: &[Ident]) -> Result<NameList, NoMemory>
    ensures { IfOk result (λ names. names ≡ spec.names_of idents.now) }
{
    NameList::of(alloc, copied_names(alloc, idents)?)
}

/// Names that earlier ones have.
pub fn note_repeated(idents: &[Ident], names: &NameList, least: &mut Option<Fault>)
    requires { names.now ≡ spec.names_of idents.now }
    ensures { least.new ≡ noted least.old (repeated [] idents.now) }
{
    for (place, ident) in idents.iter().enumerate() {
        let again = names.stands_before(&ident.name, place);
        note_if(again, FaultKind::DuplicateName, ident.anchor, least);
    }
}

// Names that no column has.
fn note_unknown(idents: &[Ident], columns: &NameList, least: &mut Option<Fault>)
    ensures { least.new ≡ noted least.old (flat_map (spec.unknown_in columns.now) idents.now) }
{
    for ident in idents {
        let unknown = columns.place(&ident.name).is_none();
        note_if(unknown, FaultKind::UnknownName, ident.anchor, least);
    }
}

// Of a table that is not known each name is taken to be a column's.
fn note_unknown_among(known: bool, idents: &[Ident], columns: &NameList, least: &mut Option<Fault>)
    ensures { least.new ≡ noted least.old (spec.unknown_among known columns.now idents.now) }
{
    if known {
        note_unknown(idents, columns, least);
    }
}

/// What is asked of a list of columns: none stands there twice, and each is one of these.
pub fn note_list(
    alloc: Global,
    known: bool,
    idents: &[Ident],
    columns: &NameList,
    least: &mut Option<Fault>,
) -> Result<(), NoMemory>
    ensures { OnOk result (least.new ≡ noted least.old
        (spec.list_faults known columns.now idents.now)) }
{
    let names = indexed(alloc, idents)?;
    note_repeated(idents, &names, least);
    note_unknown_among(known, idents, columns, least);
    Ok(())
}

/// The place of a column after other places, where it is one of these.
pub fn add_place(
    ident: &Ident,
    columns: &NameList,
    places: &mut Items<usize>,
) -> Result<(), NoMemory>
    ensures { OnOk result (places.new ≡ places.old ++ spec.place_in columns.now ident.now) }
{
    if let Some(place) = columns.place(&ident.name) {
        places.push(place)?;
    }
    Ok(())
}

/// The places of a list of columns.
pub fn places_in(
    alloc: Global,
    idents: &[Ident],
    columns: &NameList,
) -> Result<Items<usize>, NoMemory>
    ensures { IfOk result (λ places. places ≡ spec.places_in columns.now idents.now) }
{
    let mut places = Items::new(alloc);
    for ident in idents {
        add_place(ident, columns, &mut places)?;
    }
    Ok(places)
}
