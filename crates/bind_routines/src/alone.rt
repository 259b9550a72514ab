//! Statements that hold no statement, by their form (ISO/IEC 9075-4, 14 and 17). They stand outside
//! of the recursion, and know nothing of it.

ghost use Rattle.std.specs.Prelude.{◌≡◌, IfOk, OnOk};
ghost use Rattle.statement_trees.specs.declared.statement.Stmt.{out-Stmt};
ghost use Rattle.bind_faults.specs.Faults.{taken};
ghost use Rattle.bind_simple.specs.Places.{place_by};
ghost use Rattle.bind_routines.specs.Alone as spec;

use bind_faults::Notes;
use bind_simple::{
    Surroundings, anchor_of_query, bind_call, bind_changed, bind_close, bind_fetched, bind_get,
    bind_insertion, bind_iterate, bind_leave, bind_open, bind_removed, bind_resignal, bind_return,
    bind_select_into, bind_set, bind_signal, misplaced,
};
use bound_trees::BoundStmt;
use sql_values::NoMemory;
use statement_trees::{Assignment, Call, Resignal, SelectInto, Signal, Stmt};
use std::alloc::Global;

fn bind_called(
    alloc: Global,
    call: &Call,
    place: &Surroundings<'_>,
    notes: &mut Notes,
) -> Result<BoundStmt, NoMemory>
    ensures value { IfOk result (λ b. b ≡ (spec.called call.now (place_by place.now)).value) }
    ensures notes { OnOk result (notes.new ≡ taken notes.old
        (spec.called call.now (place_by place.now))) }
{
    let bound = bind_call(alloc, false, call, place, notes)?;
    Ok(BoundStmt::Call(bound))
}

fn bind_assigned(
    alloc: Global,
    assignment: &Assignment,
    place: &Surroundings<'_>,
    notes: &mut Notes,
) -> Result<BoundStmt, NoMemory>
    ensures value { IfOk result
        (λ b. b ≡ (spec.assigned assignment.now (place_by place.now)).value) }
    ensures notes { OnOk result (notes.new ≡ taken notes.old
        (spec.assigned assignment.now (place_by place.now))) }
{
    let bound = bind_set(alloc, assignment, place, notes)?;
    Ok(BoundStmt::Set(bound.target, bound.value))
}

fn bind_selected(
    alloc: Global,
    select: &SelectInto,
    place: &Surroundings<'_>,
    notes: &mut Notes,
) -> Result<BoundStmt, NoMemory>
    ensures value { IfOk result (λ b. b ≡ (spec.selected select.now (place_by place.now)).value) }
    ensures notes { OnOk result (notes.new ≡ taken notes.old
        (spec.selected select.now (place_by place.now))) }
{
    let bound = bind_select_into(alloc, select, place, notes)?;
    Ok(BoundStmt::SelectInto(bound.query, bound.targets))
}

fn bind_signalled(
    alloc: Global,
    signal: &Signal,
    place: &Surroundings<'_>,
    notes: &mut Notes,
) -> Result<BoundStmt, NoMemory>
    ensures value { IfOk result (λ b. b ≡ (spec.signalled signal.now (place_by place.now)).value) }
    ensures notes { OnOk result (notes.new ≡ taken notes.old
        (spec.signalled signal.now (place_by place.now))) }
{
    let bound = bind_signal(alloc, signal, place, notes)?;
    Ok(BoundStmt::Signal(bound))
}

fn bind_resignalled(
    alloc: Global,
    signal: &Resignal,
    place: &Surroundings<'_>,
    notes: &mut Notes,
) -> Result<BoundStmt, NoMemory>
    ensures value { IfOk result
        (λ b. b ≡ (spec.resignalled signal.now (place_by place.now)).value) }
    ensures notes { OnOk result (notes.new ≡ taken notes.old
        (spec.resignalled signal.now (place_by place.now))) }
{
    let bound = bind_resignal(alloc, signal, place, notes)?;
    Ok(BoundStmt::Resignal(bound))
}

/// A statement that holds no other, with its names resolved. One that holds others is not asked
/// for here, and counts as one that stands in no routine.
pub(crate) fn bind_alone(
    alloc: Global,
    stmt: &Stmt,
    place: &Surroundings<'_>,
    notes: &mut Notes,
) -> Result<BoundStmt, NoMemory>
    ensures value { IfOk result
        (λ b. b ≡ (spec.judged_alone (out-Stmt stmt.now) (place_by place.now)).value) }
    ensures notes { OnOk result (notes.new ≡ taken notes.old
        (spec.judged_alone (out-Stmt stmt.now) (place_by place.now))) }
{
    match stmt {
        Stmt::CreateTable(create) => Ok(misplaced(alloc, create.anchor, notes)),
        Stmt::CreateFunction(create) => Ok(misplaced(alloc, create.anchor, notes)),
        Stmt::CreateProcedure(create) => Ok(misplaced(alloc, create.anchor, notes)),
        Stmt::Drop(removal) => Ok(misplaced(alloc, removal.anchor, notes)),
        Stmt::Query(query) => Ok(misplaced(alloc, anchor_of_query(&query.query), notes)),
        Stmt::Explain(at, _) => Ok(misplaced(alloc, *at, notes)),
        Stmt::Labelled(labelled) => Ok(misplaced(alloc, labelled.anchor, notes)),
        Stmt::If(branching) => Ok(misplaced(alloc, branching.anchor, notes)),
        Stmt::Case(branching) => Ok(misplaced(alloc, branching.anchor, notes)),
        Stmt::Insert(insert) => bind_insertion(alloc, insert, place, notes),
        Stmt::Update(update) => bind_changed(alloc, update, place, notes),
        Stmt::Delete(delete) => bind_removed(alloc, delete, place, notes),
        Stmt::Call(call) => bind_called(alloc, call, place, notes),
        Stmt::Set(_, assignment) => bind_assigned(alloc, assignment, place, notes),
        Stmt::SelectInto(select) => bind_selected(alloc, select, place, notes),
        Stmt::Open(_, ident) => bind_open(ident, place, notes),
        Stmt::Close(_, ident) => bind_close(ident, place, notes),
        Stmt::Fetch(fetch) => bind_fetched(alloc, fetch, place, notes),
        Stmt::Signal(signal) => bind_signalled(alloc, signal, place, notes),
        Stmt::Resignal(signal) => bind_resignalled(alloc, signal, place, notes),
        Stmt::GetDiagnostics(get) => bind_get(alloc, get, place, notes),
        Stmt::Leave(_, ident) => Ok(bind_leave(ident, place, notes)),
        Stmt::Iterate(at, ident) => Ok(bind_iterate(*at, ident, place, notes)),
        Stmt::Return(at, value) => bind_return(alloc, *at, value, place, notes),
    }
}
