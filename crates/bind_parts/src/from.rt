//! What FROM brings in sight (ISO/IEC 9075-2, 7.5, 7.6 and 7.10).

ghost use Rattle.std.specs.Prelude.{◌≡◌, drop, IfOk, OnOk, map};
ghost use Rattle.std.specs.Option.{option_copied};
ghost use Rattle.bind_faults.specs.Faults.{noted, taken};
ghost use Rattle.bind_sight.specs.Sight.{seen_by, level_by};
ghost use Rattle.bind_parts.specs.From as spec;

use crate::typed::{TypedQuery, TypedSource};
use bind_faults::{Fault, FaultKind, Notes, note_if};
use bind_kinds::{Kind, kind_of_type};
use bind_names::{Join, any_named, keeps_unmatched, note_table};
use bind_sight::{ColumnList, GroupingKey, Item, ItemList, Level, Output, Sight};
use bound_trees::{BoundExpr, BoundFromItem, BoundSource};
use catalog_store::{Catalog, Object};
use row_types::{ColumnType, RowType};
use sql_values::{Name, NoMemory};
use sqlite_items::{Boxed, Items};
use std::alloc::Global;
use syntax_trees::{Anchor, Ident};

/// The items so far, with the number of their columns, and what each is bound to. The items since
/// the last comma begin at an item and at a column.
#[derive(Drop)]
pub struct Opened {
    pub items: ItemList,
    pub first_item: usize,
    pub base: usize,
    pub width: usize,
    pub from: Items<BoundFromItem>,
}

/// The table of a name.
pub fn table_named<'a>(name: &Name, catalog: &'a Catalog) -> Option<&'a RowType>
    ensures { option_copied result ≡ spec.table_named name.now catalog.now }
{
    match catalog.get(name) {
        Some(Object::Table(row_type)) => Some(row_type),
        Some(Object::Function(_)) => None,
        Some(Object::Interpreted(_)) => None,
        Some(Object::Procedure(_)) => None,
        None => None,
    }
}

fn output_of(column: &ColumnType) -> Result<Output, NoMemory>
    ensures { IfOk result (λ c. c ≡ spec.output_of column.now) }
{
    Ok(Output {
        name: Some(column.name.copied()?),
        kind: kind_of_type(column.data_type),
    })
}

fn outputs_of(alloc: Global, columns: &[ColumnType]) -> Result<Items<Output>, NoMemory>
    ensures { IfOk result (λ cs. cs ≡ map spec.output_of columns.now) }
{
    let mut found = Items::from_vec(Vec::with_capacity(alloc, columns.len())?);
    for column in columns {
        found.push(output_of(column)?)?;
    }
    Ok(found)
}

fn columns_of(alloc: Global, table: Option<&RowType>) -> Result<Items<Output>, NoMemory>
    ensures { IfOk result (λ cs. cs ≡ spec.columns_of (option_copied table.entry)) }
{
    match table {
        Some(row_type) => outputs_of(alloc, row_type.columns.as_slice()),
        None => Ok(Items::new(alloc)),
    }
}

// What an item of this name stands for.
fn sourced(
    alloc: Global,
    ident: &Ident,
    columns: Items<Output>,
    known: bool,
    source: BoundSource,
) -> Result<TypedSource, NoMemory>
    ensures { IfOk result (λ s. s ≡ spec.sourced ident.now columns known source) }
{
    let name = ident.name.copied()?;
    let columns = ColumnList::of(alloc, columns)?;
    Ok(TypedSource {
        name,
        at: ident.anchor,
        columns,
        known,
        source,
    })
}

fn called_as<'a>(alias: &'a Option<Ident>, table: &'a Ident) -> &'a Ident
    ensures { result.now ≡ spec.called_as alias.now table.now }
{
    match alias {
        Some(ident) => ident,
        None => table,
    }
}

// A table, by the name that is written for it or its own. One that is not known has no column.
fn table_source(
    alloc: Global,
    ident: &Ident,
    alias: &Option<Ident>,
    table: Option<&RowType>,
    notes: &mut Notes,
) -> Result<TypedSource, NoMemory>
    ensures value { IfOk result
        (λ s. s ≡ (spec.table_source ident.now alias.now (option_copied table.entry)).value) }
    ensures notes { OnOk result (notes.new ≡ taken notes.old
        (spec.table_source ident.now alias.now (option_copied table.entry))) }
{
    note_table(ident, table, notes)?;
    let columns = columns_of(alloc, table)?;
    let source = BoundSource::Table(ident.name.copied()?);
    sourced(
        alloc,
        called_as(alias, ident),
        columns,
        table.is_some(),
        source,
    )
}

/// A table of the catalog, by its name, perhaps under another. One that is not known has no column.
pub fn bind_table(
    alloc: Global,
    ident: &Ident,
    alias: &Option<Ident>,
    outside: &Sight<'_>,
    notes: &mut Notes,
) -> Result<TypedSource, NoMemory>
    ensures value { IfOk result (λ s. s ≡ (spec.table_judge ident.now alias.now (seen_by outside.now)).value) }
    ensures notes { OnOk result (notes.new ≡ taken notes.old
        (spec.table_judge ident.now alias.now (seen_by outside.now))) }
{
    let table = table_named(&ident.name, outside.catalog);
    table_source(alloc, ident, alias, table, notes)
}

fn named_output(name: &Name, kind: Kind) -> Result<Output, NoMemory>
    ensures { IfOk result (λ c. c ≡ spec.named_output name.now kind) }
{
    Ok(Output {
        name: Some(name.copied()?),
        kind,
    })
}

// Columns by a list of names.
fn renamed_all(
    alloc: Global,
    names: &[Ident],
    columns: &[Output],
) -> Result<Items<Output>, NoMemory>
    ensures { IfOk result (λ cs. cs ≡ spec.renamed_all names.now columns.now) }
{
    let mut found = Items::new(alloc);
    let mut names = names;
    let mut columns = columns;
    while let [name, more @ ..] = names {
        match columns {
            [column, rest @ ..] => {
                found.push(named_output(&name.name, column.kind)?)?;
                columns = rest;
            }
            [] => found.push(named_output(&name.name, Kind::Null)?)?,
        }
        names = more;
    }
    Ok(found)
}

fn renamed(
    alloc: Global,
    names: &[Ident],
    columns: Items<Output>,
) -> Result<Items<Output>, NoMemory>
    ensures { IfOk result (λ cs. cs ≡ spec.renamed names.now columns) }
{
    match names {
        [] => Ok(columns),
        [_, ..] => renamed_all(alloc, names, columns.as_slice()),
    }
}

fn note_names(at: Anchor, names: &[Ident], columns: &[Output], least: &mut Option<Fault>)
    ensures { least.new ≡ noted least.old (spec.list_faults at names.now columns.now) }
{
    match names {
        [] => {}
        [_, ..] => {
            let wrong = names.len() != columns.len();
            note_if(wrong, FaultKind::WrongCount, at, least);
        }
    }
}

/// A derived table, perhaps with names for its columns.
pub fn derived_source(
    alloc: Global,
    ident: &Ident,
    names: &[Ident],
    query: TypedQuery,
    notes: &mut Notes,
) -> Result<TypedSource, NoMemory>
    ensures value { IfOk result (λ s. s ≡ (spec.derived_source ident.now names.now query).value) }
    ensures notes { OnOk result (notes.new ≡ taken notes.old
        (spec.derived_source ident.now names.now query)) }
{
    note_names(
        ident.anchor,
        names,
        query.columns.as_slice(),
        &mut notes.least,
    );
    let columns = renamed(alloc, names, query.columns)?;
    let source = BoundSource::Derived(Boxed::new(alloc, query.tree)?);
    sourced(alloc, ident, columns, true, source)
}

/// What FROM brings in sight before its first item.
pub fn nothing_open(alloc: Global) -> Opened
    ensures { result ≡ spec.nothing_open }
{
    Opened {
        items: ItemList::new(alloc),
        first_item: 0,
        base: 0,
        width: 0,
        from: Items::new(alloc),
    }
}

// After a comma ON sees no item before it.
fn begin(so: &mut Opened)
    ensures { so.new ≡ spec.begun so.old }
{
    so.first_item = so.items.len();
    so.base = so.width;
}

fn wider(width: usize, columns: usize) -> Result<usize, NoMemory>
    ensures { IfOk result (λ n. n ≡ spec.wider width columns) }
{
    match width.checked_add(columns) {
        Some(width) => Ok(width),
        None => Err(NoMemory),
    }
}

// One item more of this name in sight.
fn push_item(so: &mut Opened, name: Name, columns: ColumnList, known: bool) -> Result<(), NoMemory>
    ensures { OnOk result (so.new ≡ spec.with_columns so.old name columns known) }
{
    let width = wider(so.width, columns.len())?;
    so.items.push(Item {
        name,
        columns,
        first: so.width,
        known,
    })?;
    so.width = width;
    Ok(())
}

/// One item more in sight. Its source is left for its place in FROM.
pub fn add_item(so: &mut Opened, sourced: TypedSource) -> Result<BoundSource, NoMemory>
    ensures opened { OnOk result (so.new ≡ spec.with_item so.old sourced) }
    ensures source { IfOk result (λ s. s ≡ sourced.source) }
{
    let TypedSource {
        name,
        columns,
        known,
        source,
        ..
    } = sourced;
    push_item(so, name, columns, known)?;
    Ok(source)
}

/// One item more in FROM.
pub fn add_from(so: &mut Opened, item: BoundFromItem) -> Result<(), NoMemory>
    ensures { OnOk result (so.new ≡ spec.with_from so.old item) }
{
    so.from.push(item)?;
    Ok(())
}

// What a join is bound to, with its conjuncts.
fn on_item(join: Join, source: BoundSource, conjuncts: Items<BoundExpr>) -> BoundFromItem
    ensures { result ≡ spec.on_item join source conjuncts }
{
    if keeps_unmatched(join) {
        BoundFromItem::Left(source, conjuncts)
    } else {
        BoundFromItem::Inner(source, conjuncts)
    }
}

/// One joined item more in FROM, with the conjuncts of its ON.
pub fn add_joined(
    so: &mut Opened,
    join: Join,
    source: BoundSource,
    conjuncts: Items<BoundExpr>,
) -> Result<(), NoMemory>
    ensures { OnOk result (so.new ≡ spec.with_from so.old (spec.on_item join source conjuncts)) }
{
    add_from(so, on_item(join, source, conjuncts))
}

/// What is asked of an item: that none before it has its name.
pub fn note_repeated(sourced: &TypedSource, items: &ItemList, least: &mut Option<Fault>)
    ensures { least.new ≡ noted least.old (spec.repeated_item sourced.now items.now) }
{
    let again = any_named(&sourced.name, items);
    note_if(again, FaultKind::DuplicateName, sourced.at, least);
}

/// An item after a comma, or the first.
pub fn put_comma(so: &mut Opened, sourced: TypedSource, notes: &mut Notes) -> Result<(), NoMemory>
    ensures value { OnOk result (so.new ≡ (spec.put_comma so.old sourced).value) }
    ensures notes { OnOk result (notes.new ≡ taken notes.old (spec.put_comma so.old sourced)) }
{
    note_repeated(&sourced, &so.items, &mut notes.least);
    begin(so);
    let source = add_item(so, sourced)?;
    add_from(so, BoundFromItem::Comma(source))
}

/// An item after CROSS JOIN.
pub fn put_cross(so: &mut Opened, sourced: TypedSource, notes: &mut Notes) -> Result<(), NoMemory>
    ensures value { OnOk result (so.new ≡ (spec.put_cross so.old sourced).value) }
    ensures notes { OnOk result (notes.new ≡ taken notes.old (spec.put_cross so.old sourced)) }
{
    note_repeated(&sourced, &so.items, &mut notes.least);
    let source = add_item(so, sourced)?;
    add_from(so, BoundFromItem::Cross(source))
}

fn after(items: &[Item], first: usize) -> &[Item]
    ensures { result.now ≡ drop first items.now }
{
    if first <= items.len() {
        &items[first..]
    } else {
        &[]
    }
}

/// What ON sees: the items since the last comma.
pub fn on_level<'a>(so: &'a Opened) -> Level<'a>
    ensures { level_by result ≡ spec.on_level so.now }
{
    Level {
        items: after(so.items.as_slice(), so.first_item),
        base: so.base,
        keys: &[],
        grouped: false,
        aggregates: false,
    }
}

/// What WHERE and GROUP BY see.
pub fn row_level<'a>(so: &'a Opened) -> Level<'a>
    ensures { level_by result ≡ spec.row_level so.now }
{
    Level {
        items: so.items.as_slice(),
        base: 0,
        keys: &[],
        grouped: false,
        aggregates: false,
    }
}

/// What the list and HAVING see; in a grouped query by these grouping columns.
pub fn list_level<'a>(so: &'a Opened, keys: &'a [GroupingKey], grouped: bool) -> Level<'a>
    ensures { level_by result ≡ spec.list_level so.now keys.now grouped }
{
    Level {
        items: so.items.as_slice(),
        base: 0,
        keys,
        grouped,
        aggregates: grouped,
    }
}
