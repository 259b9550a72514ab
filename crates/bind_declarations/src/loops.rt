//! FOR: the columns of its query as variables (ISO/IEC 9075-4, 14.13).

ghost use Rattle.std.specs.Prelude.{◌≡◌, ◌++◌, [], map, IfOk, OnOk};
ghost use Rattle.bind_faults.specs.Faults.{noted};
ghost use Rattle.bind_sight.specs.Scopes.{scope_by};
ghost use Rattle.bind_declarations.specs.Loops as spec;

use bind_faults::{Fault, FaultKind, note_if};
use bind_sight::{NameList, Output, Scope, ScopeRef, Variable, loop_scope};
use bind_simple::anchor_of_column;
use sql_values::{Name, NoMemory};
use sqlite_items::Items;
use std::alloc::Global;
use syntax_trees::{Anchor, Ident, Query};

/// The first slot of a variable after those of the scopes in sight.
pub fn next_slot(scopes: &[ScopeRef<'_>]) -> Result<usize, NoMemory>
    ensures { IfOk result (λ slot. slot ≡ spec.next_slot (map scope_by scopes.now)) }
{
    match scopes {
        [inner, ..] => slot_after(inner.scope),
        [] => Ok(0),
    }
}

/// The first slot of a variable after those of a scope.
pub(crate) fn slot_after(scope: &Scope) -> Result<usize, NoMemory>
    ensures { IfOk result (λ slot. slot ≡ spec.slot_after scope.now) }
{
    match scope.first.checked_add(scope.held.len()) {
        Some(slot) => Ok(slot),
        None => Err(NoMemory),
    }
}

fn cursor_after(scope: &Scope) -> Result<usize, NoMemory>
    ensures { IfOk result (λ slot. slot ≡ spec.cursor_after scope.now) }
{
    match scope.first_cursor.checked_add(scope.columns.len()) {
        Some(slot) => Ok(slot),
        None => Err(NoMemory),
    }
}

/// The first slot of a cursor after those of the scopes in sight.
pub(crate) fn next_cursor(scopes: &[ScopeRef<'_>]) -> Result<usize, NoMemory>
    ensures { IfOk result (λ slot. slot ≡ spec.next_cursor (map scope_by scopes.now)) }
{
    match scopes {
        [inner, ..] => cursor_after(inner.scope),
        [] => Ok(0),
    }
}

fn note_column(at: Anchor, before: &NameList, name: &Option<Name>, least: &mut Option<Fault>)
    ensures { least.new ≡ noted least.old (spec.column_faults at before.now name.now) }
{
    match name {
        Some(name) => {
            let again = before.place(name).is_some();
            note_if(again, FaultKind::DuplicateName, at, least);
        }
        None => note_if(true, FaultKind::NotPermitted, at, least),
    }
}

fn add_name(name: &Option<Name>, names: &mut NameList) -> Result<(), NoMemory>
    ensures { OnOk result (names.new ≡ names.old ++ spec.name_in name.now) }
{
    if let Some(name) = name {
        names.push(name.copied()?)?;
    }
    Ok(())
}

// The names of the columns. Each has a name, and one that none before it has.
fn column_names(
    alloc: Global,
    query: &Query,
    columns: &[Output],
    least: &mut Option<Fault>,
) -> Result<NameList, NoMemory>
    ensures value { IfOk result (λ names. names ≡ spec.names_of_columns columns.now) }
    ensures faults { OnOk result (least.new ≡ noted least.old
        (spec.columns_faults query.now 0 [] columns.now)) }
{
    let mut names = NameList::new(alloc);
    for (place, column) in columns.iter().enumerate() {
        note_column(anchor_of_column(query, place), &names, &column.name, least);
        add_name(&column.name, &mut names)?;
    }
    Ok(names)
}

fn columns_held(alloc: Global, columns: &[Output]) -> Result<Items<Variable>, NoMemory>
    ensures { IfOk result (λ held. held ≡ map spec.column_held columns.now) }
{
    let mut held = Items::new(alloc);
    for column in columns {
        held.push(Variable {
            kind: column.kind,
            data_type: None,
        })?;
    }
    Ok(held)
}

/// The columns of a FOR loop as variables, after those of the scopes outside, with what is asked of
/// them.
pub fn scope_of_columns(
    alloc: Global,
    ident: &Ident,
    query: &Query,
    columns: &[Output],
    outside: &[ScopeRef<'_>],
    least: &mut Option<Fault>,
) -> Result<Scope, NoMemory>
    ensures value { IfOk result (λ s. s ≡ spec.scope_of_columns ident.now columns.now
        (map scope_by outside.now)) }
    ensures faults { OnOk result (least.new ≡ noted least.old
        (spec.columns_faults query.now 0 [] columns.now)) }
{
    let names = column_names(alloc, query, columns, least)?;
    let held = columns_held(alloc, columns)?;
    let first = next_slot(outside)?;
    let first_cursor = next_cursor(outside)?;
    let name = ident.name.copied()?;
    Ok(loop_scope(alloc, Some(name), first, first_cursor, names, held))
}
