//! INSERT (ISO/IEC 9075-2, 14.11).

ghost use Rattle.std.specs.Prelude.{◌≡◌, map, IfOk, OnOk};
ghost use Rattle.bind_faults.specs.Faults.{noted, taken};
ghost use Rattle.bind_sight.specs.Sight.{seen_by};
ghost use Rattle.bind_changes.specs.Writing.{insert_into, judged_insert};
ghost use Rattle.bind_changes.specs.Writing as spec;

use crate::target::{Target, kind_named, note_columns, target_of};
use bind_faults::{Fault, FaultKind, Notes, note_if};
use bind_kinds::Kind;
use bind_parts::{TypedQuery, table_named};
use bind_queries::bind_typed;
use bind_rules::{inside_writing, places_in};
use bind_sight::Sight;
use bound_trees::BoundInsert;
use sql_values::NoMemory;
use sqlite_items::Items;
use statement_trees::Insert;
use std::alloc::Global;
use syntax_trees::Ident;

/// An INSERT, and the places of the listed columns, where some are listed.
#[derive(Drop)]
pub struct ListedInsert {
    pub insert: BoundInsert,
    pub listed: Option<Items<usize>>,
}

fn kinds_named(alloc: Global, target: &Target, idents: &[Ident]) -> Result<Items<Kind>, NoMemory>
    ensures { IfOk result (λ kinds. kinds ≡ map (spec.kind_named target.now) idents.now) }
{
    let mut kinds = Items::new(alloc);
    for ident in idents {
        kinds.push(kind_named(target, ident))?;
    }
    Ok(kinds)
}

fn copied_kinds(alloc: Global, kinds: &[Kind]) -> Result<Items<Kind>, NoMemory>
    ensures { IfOk result (λ ks. ks ≡ kinds.now) }
{
    let mut found = Items::new(alloc);
    for kind in kinds {
        found.push(*kind)?;
    }
    Ok(found)
}

// The kinds of the columns into which values are stored.
fn kinds_into(alloc: Global, target: &Target, columns: &[Ident]) -> Result<Items<Kind>, NoMemory>
    ensures { IfOk result (λ kinds. kinds ≡ spec.kinds_into target.now columns.now) }
{
    match columns {
        [] => copied_kinds(alloc, target.kinds.as_slice()),
        [_, ..] => kinds_named(alloc, target, columns),
    }
}

// The query has as many columns as are listed, or as a known table has.
fn note_width(target: &Target, columns: &[Ident], query: &TypedQuery, least: &mut Option<Fault>)
    ensures { least.new ≡ noted least.old (spec.wrong_width target.now columns.now query.now) }
{
    match columns {
        [] => {
            let wrong = target.known && query.columns.len() != target.kinds.len();
            note_if(wrong, FaultKind::WrongCount, query.at, least);
        }
        [_, ..] => {
            let wrong = query.columns.len() != columns.len();
            note_if(wrong, FaultKind::WrongCount, query.at, least);
        }
    }
}

// The places of the columns that are listed, where some are.
fn listed(
    alloc: Global,
    target: &Target,
    columns: &[Ident],
) -> Result<Option<Items<usize>>, NoMemory>
    ensures { IfOk result (λ places. places ≡ spec.listed target.now columns.now) }
{
    match columns {
        [] => Ok(None),
        [_, ..] => Ok(Some(places_in(alloc, columns, &target.names)?)),
    }
}

// Whether the table is known, and what is asked of the columns that are listed.
fn note_target(
    alloc: Global,
    insert: &Insert,
    target: &Target,
    least: &mut Option<Fault>,
) -> Result<(), NoMemory>
    ensures { OnOk result (least.new ≡ noted least.old (spec.into_faults insert.now target.now)) }
{
    let table = &insert.table;
    note_if(!target.known, FaultKind::UnknownName, table.anchor, least);
    note_columns(alloc, target, insert.columns.as_slice(), least)
}

// The table that is written is used.
fn note_use(table: &Ident, target: &Target, notes: &mut Notes) -> Result<(), NoMemory>
    ensures { OnOk result (notes.new ≡ taken notes.old (spec.uses_of table.now target.now)) }
{
    if target.known {
        notes.add_use(&table.name)?;
    }
    Ok(())
}

// The query of an INSERT, in which no writing function is called.
fn source_of(
    alloc: Global,
    insert: &Insert,
    target: &Target,
    outside: &Sight<'_>,
    notes: &mut Notes,
) -> Result<TypedQuery, NoMemory>
    ensures value { IfOk result (λ q. q ≡ (spec.source_of insert.now target.now (seen_by outside.now)).value) }
    ensures notes { OnOk result (notes.new ≡ taken notes.old
        (spec.source_of insert.now target.now (seen_by outside.now))) }
{
    let kinds = kinds_into(alloc, target, insert.columns.as_slice())?;
    let sight = inside_writing(outside);
    let query = bind_typed(alloc, &insert.source, kinds.as_slice(), &sight, notes)?;
    Ok(query)
}

// An INSERT of its query, with its width noted. Its parts are read before the query is there.
fn rows_into(
    alloc: Global,
    insert: &Insert,
    target: &Target,
    outside: &Sight<'_>,
    notes: &mut Notes,
) -> Result<ListedInsert, NoMemory>
    ensures value { IfOk result
        (λ b. b ≡ (spec.judged_rows insert.now target.now (seen_by outside.now)).value) }
    ensures notes { OnOk result (notes.new ≡ taken notes.old
        (spec.judged_rows insert.now target.now (seen_by outside.now))) }
{
    let columns = insert.columns.as_slice();
    let table = insert.table.name.copied()?;
    let listed = listed(alloc, target, columns)?;
    let query = source_of(alloc, insert, target, outside, notes)?;
    note_width(target, columns, &query, &mut notes.least);
    Ok(ListedInsert {
        insert: BoundInsert {
            table,
            source: query.tree,
        },
        listed,
    })
}

fn insert_used(
    alloc: Global,
    insert: &Insert,
    target: &Target,
    outside: &Sight<'_>,
    notes: &mut Notes,
) -> Result<ListedInsert, NoMemory>
    ensures value { IfOk result
        (λ b. b ≡ (spec.insert_used insert.now target.now (seen_by outside.now)).value) }
    ensures notes { OnOk result (notes.new ≡ taken notes.old
        (spec.insert_used insert.now target.now (seen_by outside.now))) }
{
    note_use(&insert.table, target, notes)?;
    let rows = rows_into(alloc, insert, target, outside, notes)?;
    Ok(rows)
}

fn insert_into(
    alloc: Global,
    insert: &Insert,
    target: &Target,
    outside: &Sight<'_>,
    notes: &mut Notes,
) -> Result<ListedInsert, NoMemory>
    ensures value { IfOk result (λ b. b ≡ (insert_into insert.now target.now (seen_by outside.now)).value) }
    ensures notes { OnOk result (notes.new ≡ taken notes.old
        (insert_into insert.now target.now (seen_by outside.now))) }
{
    note_target(alloc, insert, target, &mut notes.least)?;
    insert_used(alloc, insert, target, outside, notes)
}

/// An INSERT with its names resolved, and what is noted on the way.
pub fn bind_insert(
    alloc: Global,
    insert: &Insert,
    outside: &Sight<'_>,
    notes: &mut Notes,
) -> Result<ListedInsert, NoMemory>
    ensures value { IfOk result (λ b. b ≡ (judged_insert insert.now (seen_by outside.now)).value) }
    ensures notes { OnOk result (notes.new ≡ taken notes.old
        (judged_insert insert.now (seen_by outside.now))) }
{
    let table = table_named(&insert.table.name, outside.catalog);
    let target = target_of(alloc, table)?;
    insert_into(alloc, insert, &target, outside, notes)
}
