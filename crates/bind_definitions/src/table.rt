//! CREATE TABLE (ISO/IEC 9075-2, 11.3, 11.4 and 11.7).

ghost use Rattle.std.specs.Prelude.{◌≡◌, ◌++◌, map, IfOk, OnOk};
ghost use Rattle.std.specs.List.{list_any, flat_map};
ghost use Rattle.bind_faults.specs.Faults.{noted};
ghost use Rattle.bind_rules.specs.Names.{names_of, place_in};
ghost use Rattle.bind_definitions.specs.Tables.{judged_table};
ghost use Rattle.bind_definitions.specs.Tables as spec;

use bind_faults::Fault;
use bind_kinds::{note_type, type_of};
use bind_rules::{
    add_place, copied, indexed, is_key, note_keys, note_list, note_repeated, note_taken, places_in,
    takes_no_null,
};
use bind_sight::NameList;
use catalog_store::{Catalog, Object};
use row_types::{ColumnType, RowType};
use sql_values::NoMemory;
use sqlite_items::Items;
use statement_trees::{Column, Constraint, CreateTable, TableElement};
use std::alloc::Global;
use syntax_trees::{Anchor, Ident};

fn add_ident(element: &TableElement, idents: &mut Items<Ident>) -> Result<(), NoMemory>
    ensures { OnOk result (idents.new ≡ idents.old ++ spec.idents_in element.now) }
{
    match element {
        TableElement::Column(column) => idents.push(copied(&column.name)?)?,
        TableElement::PrimaryKey(_, _) => {}
    }
    Ok(())
}

// The columns as they are written.
fn column_idents(alloc: Global, elements: &[TableElement]) -> Result<Items<Ident>, NoMemory>
    ensures { IfOk result (λ idents. idents ≡ spec.column_idents elements.now) }
{
    let mut idents = Items::new(alloc);
    for element in elements {
        add_ident(element, &mut idents)?;
    }
    Ok(idents)
}

fn note_type_in(element: &TableElement, least: &mut Option<Fault>)
    ensures { least.new ≡ noted least.old (spec.type_faults_in element.now) }
{
    match element {
        TableElement::Column(column) => note_type(column.data_type, least),
        TableElement::PrimaryKey(_, _) => {}
    }
}

// The written types of the columns.
fn note_types(elements: &[TableElement], least: &mut Option<Fault>)
    ensures { least.new ≡ noted least.old (flat_map spec.type_faults_in elements.now) }
{
    for element in elements {
        note_type_in(element, least);
    }
}

// Where the constraints of a column say PRIMARY KEY.
fn add_key_constraints(column: &Column, places: &mut Items<Anchor>) -> Result<(), NoMemory>
    ensures { OnOk result (places.new ≡ places.old ++ flat_map spec.key_place
        column.now.constraints) }
{
    for constraint in column.constraints.as_slice() {
        if let Constraint::PrimaryKey(anchor) = *constraint {
            places.push(anchor)?;
        }
    }
    Ok(())
}

fn add_key_places(element: &TableElement, places: &mut Items<Anchor>) -> Result<(), NoMemory>
    ensures { OnOk result (places.new ≡ places.old ++ spec.key_places_in element.now) }
{
    match element {
        TableElement::Column(column) => add_key_constraints(column, places),
        TableElement::PrimaryKey(anchor, _) => {
            places.push(*anchor)?;
            Ok(())
        }
    }
}

// Where the elements say PRIMARY KEY.
fn key_places(alloc: Global, elements: &[TableElement]) -> Result<Items<Anchor>, NoMemory>
    ensures { IfOk result (λ places. places ≡ spec.key_places elements.now) }
{
    let mut places = Items::new(alloc);
    for element in elements {
        add_key_places(element, &mut places)?;
    }
    Ok(places)
}

fn note_key_list(
    alloc: Global,
    element: &TableElement,
    names: &NameList,
    least: &mut Option<Fault>,
) -> Result<(), NoMemory>
    ensures { OnOk result (least.new ≡ noted least.old (spec.key_list_faults names.now element.now)) }
{
    match element {
        TableElement::Column(_) => Ok(()),
        TableElement::PrimaryKey(_, columns) => {
            note_list(alloc, true, columns.as_slice(), names, least)
        }
    }
}

// The columns of keys are columns of the table.
fn note_key_lists(
    alloc: Global,
    elements: &[TableElement],
    names: &NameList,
    least: &mut Option<Fault>,
) -> Result<(), NoMemory>
    ensures { OnOk result (least.new ≡ noted least.old
        (flat_map (spec.key_list_faults names.now) elements.now)) }
{
    for element in elements {
        note_key_list(alloc, element, names, least)?;
    }
    Ok(())
}

fn add_type(element: &TableElement, types: &mut Items<ColumnType>) -> Result<(), NoMemory>
    ensures { OnOk result (types.new ≡ types.old ++ spec.types_in element.now) }
{
    match element {
        TableElement::Column(column) => types.push(column_type(column)?)?,
        TableElement::PrimaryKey(_, _) => {}
    }
    Ok(())
}

fn column_type(column: &Column) -> Result<ColumnType, NoMemory>
    ensures { IfOk result (λ c. c ≡ spec.column_type column.now) }
{
    Ok(ColumnType {
        name: column.name.name.copied()?,
        data_type: type_of(column.data_type),
        not_null: takes_no_null(column),
    })
}

fn column_types(alloc: Global, elements: &[TableElement]) -> Result<Items<ColumnType>, NoMemory>
    ensures { IfOk result (λ types. types ≡ spec.column_types elements.now) }
{
    let mut types = Items::new(alloc);
    for element in elements {
        add_type(element, &mut types)?;
    }
    Ok(types)
}

fn own_place(alloc: Global, ident: &Ident, names: &NameList) -> Result<Items<usize>, NoMemory>
    ensures { IfOk result (λ places. places ≡ place_in names.now ident.now) }
{
    let mut places = Items::new(alloc);
    add_place(ident, names, &mut places)?;
    Ok(places)
}

// The places of the columns of an element's key.
fn key_in(
    alloc: Global,
    element: &TableElement,
    names: &NameList,
) -> Result<Option<Items<usize>>, NoMemory>
    ensures { IfOk result (λ key. key ≡ spec.key_in names.now element.now) }
{
    match element {
        TableElement::Column(column) => {
            if is_key(column) {
                Ok(Some(own_place(alloc, &column.name, names)?))
            } else {
                Ok(None)
            }
        }
        TableElement::PrimaryKey(_, columns) => {
            Ok(Some(places_in(alloc, columns.as_slice(), names)?))
        }
    }
}

// The first key.
fn key_of(
    alloc: Global,
    elements: &[TableElement],
    names: &NameList,
) -> Result<Items<usize>, NoMemory>
    ensures { IfOk result (λ key. key ≡ spec.key_of names.now elements.now) }
{
    for element in elements {
        if let Some(key) = key_in(alloc, element, names)? {
            return Ok(key);
        }
    }
    Ok(Items::new(alloc))
}

// All that is asked of the elements, by the columns as they are written and their names.
fn judge_elements(
    alloc: Global,
    create: &CreateTable,
    idents: &[Ident],
    names: &NameList,
    least: &mut Option<Fault>,
) -> Result<(), NoMemory>
    requires idents { idents.now ≡ spec.column_idents create.now.elements }
    requires names { names.now ≡ names_of idents.now }
    ensures { OnOk result (least.new ≡ noted least.old (spec.element_faults create.now)) }
{
    let elements = create.elements.as_slice();
    note_repeated(idents, names, least);
    note_types(elements, least);
    let places = key_places(alloc, elements)?;
    note_keys(&create.name, places.as_slice(), least);
    note_key_lists(alloc, elements, names, least)?;
    Ok(())
}

fn row_type(alloc: Global, elements: &[TableElement], names: &NameList) -> Result<RowType, NoMemory>
    requires { names.now ≡ spec.column_names elements.now }
    ensures { IfOk result (λ t. t ≡ spec.row_type elements.now) }
{
    let key = key_of(alloc, elements, names)?;
    let columns = column_types(alloc, elements)?;
    Ok(RowType { columns, key })
}

/// A new table, with its faults noted: the name is taken, two columns have one name, there is a
/// second primary key or none, or the columns of a key are none of the table, or stand there twice.
pub fn bind_table(
    alloc: Global,
    create: &CreateTable,
    catalog: &Catalog,
    least: &mut Option<Fault>,
) -> Result<Object, NoMemory>
    ensures value { IfOk result (λ o. o ≡ (judged_table create.now catalog.now).value) }
    ensures faults { OnOk result (least.new ≡ noted least.old
        (judged_table create.now catalog.now).faults) }
{
    note_taken(&create.name, catalog, least);
    let idents = column_idents(alloc, create.elements.as_slice())?;
    let names = indexed(alloc, idents.as_slice())?;
    judge_elements(alloc, create, idents.as_slice(), &names, least)?;
    let row_type = row_type(alloc, create.elements.as_slice(), &names)?;
    Ok(Object::Table(row_type))
}
