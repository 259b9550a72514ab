//! What a name stands for in the scopes of routines, compound statements and FOR loops (ISO/IEC
//! 9075-4, 4.2 and 13.1). No query is known here.

ghost use Rattle.std.specs.Prelude.{◌≡◌, IfOk, map, option_map};
ghost use Rattle.bind_sight.specs.Scopes as spec;
ghost use Rattle.bind_sight.specs.Scopes.{scope_by, cursor_by};

use crate::hits::same;
use bind_kinds::Kind;
use bind_sight::{Cursor, FoundCursor, Scope, ScopeRef, Variable};
use sql_conditions::SqlState;
use sql_values::{Name, NoMemory};

// ---- variables

// A slot by its place after the first.
fn slot_of(first: usize, place: usize) -> Result<usize, NoMemory>
    ensures { IfOk result (λ slot. slot ≡ spec.slot_of first place) }
{
    match first.checked_add(place) {
        Some(slot) => Ok(slot),
        None => Err(NoMemory),
    }
}

// What a variable is, by its place.
fn held_at(held: &[Variable], place: usize) -> Variable
    ensures { result ≡ spec.held_at held.now place }
{
    match held.get(place) {
        Some(variable) => *variable,
        None => Variable {
            kind: Kind::Null,
            data_type: None,
        },
    }
}

// The variable of a name in one scope.
fn variable_in(name: &Name, scope: &Scope) -> Result<Option<(usize, Variable)>, NoMemory>
    ensures { IfOk result (λ v. v ≡ spec.variable_in name.now scope.now) }
{
    match scope.variables.place(name) {
        Some(place) => {
            let slot = slot_of(scope.first, place)?;
            Ok(Some((slot, held_at(scope.held.as_slice(), place))))
        }
        None => Ok(None),
    }
}

/// The variable, the parameter or the column of FOR that a name stands for, and its slot: of the
/// innermost scope that has the name.
pub fn variable_named(
    name: &Name,
    scopes: &[ScopeRef<'_>],
) -> Result<Option<(usize, Variable)>, NoMemory>
    ensures { IfOk result (λ v. v ≡ spec.variable_named name.now (map scope_by scopes.now)) }
{
    for inner in scopes {
        if let Some(found) = variable_in(name, inner.scope)? {
            return Ok(Some(found));
        }
    }
    Ok(None)
}

// Whether a scope is that of the FOR loop of a name.
fn is_loop(loop_name: &Option<Name>, qualifier: &Name) -> bool
    ensures { result ≡ spec.is_loop qualifier.now loop_name.now }
{
    match loop_name {
        Some(own) => same(own, qualifier),
        None => false,
    }
}

/// The column of a FOR loop: the innermost loop of the name has it, or there is none.
pub fn loop_variable(
    qualifier: &Name,
    name: &Name,
    scopes: &[ScopeRef<'_>],
) -> Result<Option<(usize, Variable)>, NoMemory>
    ensures { IfOk result (λ v. v ≡ spec.loop_variable qualifier.now name.now
        (map scope_by scopes.now)) }
{
    for inner in scopes {
        if is_loop(&inner.scope.loop_name, qualifier) {
            let found = variable_in(name, inner.scope)?;
            return Ok(found);
        }
    }
    Ok(None)
}

// ---- conditions

/// The SQLSTATE of the condition that a name stands for: of the innermost scope that has the name.
pub fn condition_named(name: &Name, scopes: &[ScopeRef<'_>]) -> Option<SqlState>
    ensures { result ≡ spec.condition_named name.now (map scope_by scopes.now) }
{
    for inner in scopes {
        if let Some(place) = inner.scope.conditions.place(name) {
            return inner.scope.states.get(place).copied();
        }
    }
    None
}

// ---- cursors

// The kinds of a cursor's columns, by its place.
fn kinds_at(columns: &[Cursor], place: usize) -> &[Kind]
    ensures { result.now ≡ spec.kinds_at columns.now place }
{
    match columns.get(place) {
        Some(cursor) => cursor.kinds.as_slice(),
        None => &[],
    }
}

// The cursor of a name in one scope.
fn cursor_in<'a>(name: &Name, scope: &'a Scope) -> Result<Option<FoundCursor<'a>>, NoMemory>
    ensures { IfOk result (λ c. option_map cursor_by c ≡ spec.cursor_in name.now scope.now) }
{
    match scope.cursors.place(name) {
        Some(place) => {
            let slot = slot_of(scope.first_cursor, place)?;
            let kinds = kinds_at(scope.columns.as_slice(), place);
            Ok(Some(FoundCursor { slot, kinds }))
        }
        None => Ok(None),
    }
}

/// The cursor that a name stands for, and its slot: of the innermost scope that has the name.
pub fn cursor_named<'a>(
    name: &Name,
    scopes: &[ScopeRef<'a>],
) -> Result<Option<FoundCursor<'a>>, NoMemory>
    ensures { IfOk result (λ c. option_map cursor_by c ≡ spec.cursor_named name.now
        (map scope_by scopes.now)) }
{
    for inner in scopes {
        if let Some(found) = cursor_in(name, inner.scope)? {
            return Ok(Some(found));
        }
    }
    Ok(None)
}
