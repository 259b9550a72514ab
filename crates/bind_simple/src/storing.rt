//! SET, SELECT INTO, OPEN, CLOSE and FETCH (ISO/IEC 9075-4, 14.5; ISO/IEC 9075-2, 14.4 to 14.7).

ghost use Rattle.std.specs.Prelude.{◌≡◌, option_map, IfOk, OnOk};
ghost use Rattle.bind_faults.specs.Faults.{noted, taken};
ghost use Rattle.bind_sight.specs.Scopes.{cursor_by};
ghost use Rattle.bind_sight.specs.Sight.{seen_by};
ghost use Rattle.bind_simple.specs.Places.{place_by};
ghost use Rattle.bind_simple.specs.Values.{targets_at};
ghost use Rattle.bind_simple.specs.Storing as spec;

use crate::place::{Surroundings, seen_from};
use crate::target::{
    Stored, bind_of_kind, bind_target, bind_targets, heads_at, kinds_of, targets_of,
};
use bind_faults::{Fault, FaultKind, Notes, note_if};
use bind_kinds::{Kind, in_turn};
use bind_names::cursor_named;
use bind_parts::TypedQuery;
use bind_selects::{SelectParts, bind_select_parts};
use bind_sight::{FoundCursor, Sight};
use bound_trees::{BoundExpr, BoundQuery, BoundTarget};
use sql_values::NoMemory;
use sqlite_items::Items;
use statement_trees::{Assignment, Fetch, SelectInto};
use std::alloc::Global;
use syntax_trees::Ident;

/// A SET with its names resolved.
#[derive(Drop)]
pub struct Assigned {
    pub target: BoundTarget,
    pub value: BoundExpr,
}

/// A SELECT INTO with its names resolved.
#[derive(Drop)]
pub struct SelectedInto {
    pub query: BoundQuery,
    pub targets: Items<BoundTarget>,
}

/// A SET: its value is of the kind of its target.
pub fn bind_set(
    alloc: Global,
    assignment: &Assignment,
    place: &Surroundings<'_>,
    notes: &mut Notes,
) -> Result<Assigned, NoMemory>
    ensures value { IfOk result (λ b. b ≡ (spec.judged_set assignment.now (place_by place.now)).value) }
    ensures notes { OnOk result (notes.new ≡ taken notes.old
        (spec.judged_set assignment.now (place_by place.now))) }
{
    let stored = bind_target(&assignment.target, place, &mut notes.least)?;
    let value = bind_of_kind(alloc, stored.kind, &assignment.value, place, notes)?;
    Ok(Assigned {
        target: stored.target,
        value,
    })
}

// As many columns as targets.
fn note_into(stored: &[Stored], query: &TypedQuery, least: &mut Option<Fault>)
    ensures { least.new ≡ noted least.old (spec.into_faults stored.now query.now) }
{
    let wrong = query.columns.len() != stored.len();
    note_if(wrong, FaultKind::WrongCount, query.at, least);
}

// The query of a SELECT INTO, whose columns are stored into what is of these kinds.
fn bind_selection(
    alloc: Global,
    select: &SelectInto,
    kinds: &[Kind],
    sight: &Sight<'_>,
    notes: &mut Notes,
) -> Result<TypedQuery, NoMemory>
    ensures value { IfOk result
        (λ q. q ≡ (spec.judge_selection select.now kinds.now (seen_by sight.now)).value) }
    ensures notes { OnOk result (notes.new ≡ taken notes.old
        (spec.judge_selection select.now kinds.now (seen_by sight.now))) }
{
    let parts = SelectParts {
        anchor: select.anchor,
        items: select.items.as_slice(),
        from: select.from.as_slice(),
        filter: &select.filter,
        group_by: select.group_by.as_slice(),
        having: &select.having,
    };
    let query = bind_select_parts(alloc, parts, kinds, sight, notes)?;
    Ok(query)
}

fn bind_selected(
    alloc: Global,
    select: &SelectInto,
    stored: &[Stored],
    place: &Surroundings<'_>,
    notes: &mut Notes,
) -> Result<SelectedInto, NoMemory>
    ensures value { IfOk result
        (λ b. b ≡ (spec.selected_for select.now stored.now (place_by place.now)).value) }
    ensures notes { OnOk result (notes.new ≡ taken notes.old
        (spec.selected_for select.now stored.now (place_by place.now))) }
{
    let targets = targets_of(alloc, stored)?;
    let kinds = kinds_of(alloc, stored)?;
    let sight = seen_from(place);
    let query = bind_selection(alloc, select, kinds.as_slice(), &sight, notes)?;
    note_into(stored, &query, &mut notes.least);
    Ok(SelectedInto {
        query: query.tree,
        targets,
    })
}

/// A SELECT INTO: each column is of the kind of its target.
pub fn bind_select_into(
    alloc: Global,
    select: &SelectInto,
    place: &Surroundings<'_>,
    notes: &mut Notes,
) -> Result<SelectedInto, NoMemory>
    ensures value { IfOk result (λ b. b ≡ (spec.judged_select_into select.now (place_by place.now)).value) }
    ensures notes { OnOk result (notes.new ≡ taken notes.old
        (spec.judged_select_into select.now (place_by place.now))) }
{
    let stored = bind_targets(alloc, select.targets.as_slice(), place, &mut notes.least)?;
    let bound = bind_selected(alloc, select, stored.as_slice(), place, notes)?;
    Ok(bound)
}

// ---- cursors

fn note_cursor(ident: &Ident, found: Option<FoundCursor<'_>>, least: &mut Option<Fault>)
    ensures { least.new ≡ noted least.old (spec.cursor_faults ident.now
        (option_map cursor_by found.entry)) }
{
    let unknown = found.is_none();
    note_if(unknown, FaultKind::UnknownName, ident.anchor, least);
}

fn slot_of(found: Option<FoundCursor<'_>>) -> usize
    ensures { result ≡ spec.cursor_slot (option_map cursor_by found.entry) }
{
    match found {
        Some(cursor) => cursor.slot,
        None => 0,
    }
}

/// The slot of a cursor, which is in sight.
pub(crate) fn bind_cursor(
    ident: &Ident,
    place: &Surroundings<'_>,
    least: &mut Option<Fault>,
) -> Result<usize, NoMemory>
    ensures value { IfOk result (λ slot. slot ≡ spec.cursor_slot
        (spec.cursor_at ident.now (place_by place.now))) }
    ensures faults { OnOk result (least.new ≡ noted least.old
        (spec.cursor_faults ident.now (spec.cursor_at ident.now (place_by place.now)))) }
{
    let found = cursor_named(&ident.name, place.scopes)?;
    note_cursor(ident, found, least);
    Ok(slot_of(found))
}

// A cursor has as many columns as there are targets, and each is of the kind of its target.
fn note_fetch(
    alloc: Global,
    ident: &Ident,
    found: Option<FoundCursor<'_>>,
    stored: &[Stored],
    least: &mut Option<Fault>,
) -> Result<(), NoMemory>
    ensures { OnOk result (least.new ≡ noted least.old
        (spec.fetch_faults ident.now (option_map cursor_by found.entry) stored.now)) }
{
    if let Some(cursor) = found {
        let wrong = cursor.kinds.len() != stored.len();
        note_if(wrong, FaultKind::WrongCount, ident.anchor, least);
        let heads = heads_at(alloc, stored)?;
        in_turn(cursor.kinds, heads.as_slice(), least);
    }
    Ok(())
}

/// The targets of a FETCH, with what is asked of them and of the cursor.
pub(crate) fn bind_fetch(
    alloc: Global,
    fetch: &Fetch,
    place: &Surroundings<'_>,
    least: &mut Option<Fault>,
) -> Result<Items<BoundTarget>, NoMemory>
    ensures value { IfOk result (λ ts. ts ≡ spec.fetched_targets fetch.now (place_by place.now)) }
    ensures faults { OnOk result (least.new ≡ noted least.old
        (spec.fetched_faults fetch.now (place_by place.now))) }
{
    let found = cursor_named(&fetch.cursor.name, place.scopes)?;
    note_cursor(&fetch.cursor, found, least);
    let stored = bind_targets(alloc, fetch.targets.as_slice(), place, least)?;
    note_fetch(alloc, &fetch.cursor, found, stored.as_slice(), least)?;
    targets_of(alloc, stored.as_slice())
}

/// The slot of the cursor of a FETCH.
pub(crate) fn fetched_slot(fetch: &Fetch, place: &Surroundings<'_>) -> Result<usize, NoMemory>
    ensures { IfOk result (λ slot. slot ≡ spec.cursor_slot
        (spec.cursor_at fetch.now.cursor (place_by place.now))) }
{
    let found = cursor_named(&fetch.cursor.name, place.scopes)?;
    Ok(slot_of(found))
}
