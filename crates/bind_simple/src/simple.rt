//! Statements that hold no statement (ISO/IEC 9075-4, 14 and 17).

ghost use Rattle.std.specs.Prelude.{◌≡◌, IfOk, OnOk};
ghost use Rattle.bind_faults.specs.Faults.{noted, taken};
ghost use Rattle.bind_simple.specs.Places.{place_by};
ghost use Rattle.bind_simple.specs.Simple as spec;

use crate::diagnostics::bind_diagnostics;
use crate::place::{Surroundings, seen_from};
use crate::storing::{bind_cursor, bind_fetch, fetched_slot};
use crate::target::bind_of_kind;
use bind_changes::{bind_delete, bind_insert, bind_update};
use bind_faults::{Fault, FaultKind, Notes, note_if};
use bind_kinds::{Kind, kind_of_type};
use bind_rules::{Labelled, label_named, note_return};
use bound_trees::BoundStmt;
use sql_values::{NoMemory, SqlType};
use sqlite_items::Items;
use statement_trees::{Delete, Fetch, GetDiagnostics, Insert, Update};
use std::alloc::Global;
use syntax_trees::{Anchor, Expr, Ident};

/// What stands in no routine: a definition, DROP, a query or EXPLAIN. It is not permitted there.
pub fn misplaced(alloc: Global, at: Anchor, notes: &mut Notes) -> BoundStmt
    ensures value { result ≡ (spec.misplaced at).value }
    ensures notes { notes.new ≡ taken notes.old (spec.misplaced at) }
{
    note_if(true, FaultKind::NotPermitted, at, &mut notes.least);
    BoundStmt::Loop(Items::new(alloc))
}

fn level_of(found: Option<Labelled>) -> usize
    ensures { result ≡ spec.level_of found }
{
    match found {
        Some(labelled) => labelled.level,
        None => 0,
    }
}

fn note_leave(ident: &Ident, found: Option<Labelled>, least: &mut Option<Fault>)
    ensures { least.new ≡ noted least.old (spec.leave_faults ident.now found) }
{
    let unknown = found.is_none();
    note_if(unknown, FaultKind::UnknownName, ident.anchor, least);
}

fn note_iterate(at: Anchor, ident: &Ident, found: Option<Labelled>, least: &mut Option<Fault>)
    ensures { least.new ≡ noted least.old (spec.iterate_faults at ident.now found) }
{
    match found {
        Some(labelled) => {
            let wrong = !labelled.is_loop;
            note_if(wrong, FaultKind::NotPermitted, at, least);
        }
        None => note_if(true, FaultKind::UnknownName, ident.anchor, least),
    }
}

/// A LEAVE with its label resolved.
pub fn bind_leave(ident: &Ident, place: &Surroundings<'_>, notes: &mut Notes) -> BoundStmt
    ensures value { result ≡ (spec.judged_leave ident.now (place_by place.now)).value }
    ensures notes { notes.new ≡ taken notes.old (spec.judged_leave ident.now (place_by place.now)) }
{
    let found = label_named(&ident.name, place.labels);
    note_leave(ident, found, &mut notes.least);
    BoundStmt::Leave(level_of(found))
}

/// An ITERATE with its label resolved.
pub fn bind_iterate(
    at: Anchor,
    ident: &Ident,
    place: &Surroundings<'_>,
    notes: &mut Notes,
) -> BoundStmt
    ensures value { result ≡ (spec.judged_iterate at ident.now (place_by place.now)).value }
    ensures notes { notes.new ≡ taken notes.old
        (spec.judged_iterate at ident.now (place_by place.now)) }
{
    let found = label_named(&ident.name, place.labels);
    note_iterate(at, ident, found, &mut notes.least);
    BoundStmt::Iterate(level_of(found))
}

fn returned_kind(returns: Option<SqlType>) -> Kind
    ensures { result ≡ spec.returned_kind returns }
{
    match returns {
        Some(data_type) => kind_of_type(data_type),
        None => Kind::Null,
    }
}

/// A RETURN, in a function alone.
pub fn bind_return(
    alloc: Global,
    at: Anchor,
    value: &Expr,
    place: &Surroundings<'_>,
    notes: &mut Notes,
) -> Result<BoundStmt, NoMemory>
    ensures value { IfOk result (λ b. b ≡ (spec.judged_return at value.now (place_by place.now)).value) }
    ensures notes { OnOk result (notes.new ≡ taken notes.old
        (spec.judged_return at value.now (place_by place.now))) }
{
    note_return(at, place.returns, &mut notes.least);
    let kind = returned_kind(place.returns);
    let value = bind_of_kind(alloc, kind, value, place, notes)?;
    Ok(BoundStmt::Return(value))
}

/// An OPEN with its cursor resolved.
pub fn bind_open(
    ident: &Ident,
    place: &Surroundings<'_>,
    notes: &mut Notes,
) -> Result<BoundStmt, NoMemory>
    ensures value { IfOk result (λ b. b ≡ (spec.judged_open ident.now (place_by place.now)).value) }
    ensures notes { OnOk result (notes.new ≡ taken notes.old
        (spec.judged_open ident.now (place_by place.now))) }
{
    let slot = bind_cursor(ident, place, &mut notes.least)?;
    Ok(BoundStmt::Open(slot))
}

/// A CLOSE with its cursor resolved.
pub fn bind_close(
    ident: &Ident,
    place: &Surroundings<'_>,
    notes: &mut Notes,
) -> Result<BoundStmt, NoMemory>
    ensures value { IfOk result (λ b. b ≡ (spec.judged_close ident.now (place_by place.now)).value) }
    ensures notes { OnOk result (notes.new ≡ taken notes.old
        (spec.judged_close ident.now (place_by place.now))) }
{
    let slot = bind_cursor(ident, place, &mut notes.least)?;
    Ok(BoundStmt::Close(slot))
}

/// A FETCH with its cursor and its targets resolved.
pub fn bind_fetched(
    alloc: Global,
    fetch: &Fetch,
    place: &Surroundings<'_>,
    notes: &mut Notes,
) -> Result<BoundStmt, NoMemory>
    ensures value { IfOk result (λ b. b ≡ (spec.judged_fetch fetch.now (place_by place.now)).value) }
    ensures notes { OnOk result (notes.new ≡ taken notes.old
        (spec.judged_fetch fetch.now (place_by place.now))) }
{
    let slot = fetched_slot(fetch, place)?;
    let targets = bind_fetch(alloc, fetch, place, &mut notes.least)?;
    Ok(BoundStmt::Fetch(slot, targets))
}

/// A GET DIAGNOSTICS with its targets resolved.
pub fn bind_get(
    alloc: Global,
    get: &GetDiagnostics,
    place: &Surroundings<'_>,
    notes: &mut Notes,
) -> Result<BoundStmt, NoMemory>
    ensures value { IfOk result (λ b. b ≡ (spec.judged_get get.now (place_by place.now)).value) }
    ensures notes { OnOk result (notes.new ≡ taken notes.old
        (spec.judged_get get.now (place_by place.now))) }
{
    let diagnostics = bind_diagnostics(alloc, get, place, &mut notes.least)?;
    Ok(BoundStmt::GetDiagnostics(diagnostics))
}

/// An INSERT with its names resolved.
pub fn bind_insertion(
    alloc: Global,
    insert: &Insert,
    place: &Surroundings<'_>,
    notes: &mut Notes,
) -> Result<BoundStmt, NoMemory>
    ensures value { IfOk result (λ b. b ≡ (spec.inserted insert.now (place_by place.now)).value) }
    ensures notes { OnOk result (notes.new ≡ taken notes.old
        (spec.inserted insert.now (place_by place.now))) }
{
    let sight = seen_from(place);
    let bound = bind_insert(alloc, insert, &sight, notes)?;
    Ok(BoundStmt::Insert(bound.insert, bound.listed))
}

/// An UPDATE with its names resolved.
pub fn bind_changed(
    alloc: Global,
    update: &Update,
    place: &Surroundings<'_>,
    notes: &mut Notes,
) -> Result<BoundStmt, NoMemory>
    ensures value { IfOk result (λ b. b ≡ (spec.changed update.now (place_by place.now)).value) }
    ensures notes { OnOk result (notes.new ≡ taken notes.old
        (spec.changed update.now (place_by place.now))) }
{
    let sight = seen_from(place);
    let bound = bind_update(alloc, update, &sight, notes)?;
    Ok(BoundStmt::Update(bound))
}

/// A DELETE with its names resolved.
pub fn bind_removed(
    alloc: Global,
    delete: &Delete,
    place: &Surroundings<'_>,
    notes: &mut Notes,
) -> Result<BoundStmt, NoMemory>
    ensures value { IfOk result (λ b. b ≡ (spec.removed delete.now (place_by place.now)).value) }
    ensures notes { OnOk result (notes.new ≡ taken notes.old
        (spec.removed delete.now (place_by place.now))) }
{
    let sight = seen_from(place);
    let bound = bind_delete(alloc, delete, &sight, notes)?;
    Ok(BoundStmt::Delete(bound))
}
