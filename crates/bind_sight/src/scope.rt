//! What routines, compound statements and FOR loops bring in sight beside the columns of queries:
//! variables, conditions and cursors (ISO/IEC 9075-4, 4.2 and 13.1). No query is known here.

ghost use Rattle.std.specs.Prelude.{◌≡◌, ◌∷◌, IfOk, map};
ghost use Rattle.bind_sight.specs.Scopes as spec;
ghost use Rattle.bind_sight.specs.Scopes.{scope_by};

use crate::name_list::NameList;
use bind_kinds::Kind;
use catalog_store::FunctionHead;
use sql_conditions::SqlState;
use sql_values::{Name, NoMemory, SqlType};
use sqlite_items::Items;
use std::alloc::Global;

/// A variable, a parameter or a column of FOR: its kind, and its type, which a column of FOR has
/// not.
#[derive(Clone, Copy)]
pub struct Variable {
    pub kind: Kind,
    pub data_type: Option<SqlType>,
}

/// A cursor: the kinds of its columns.
#[derive(Drop)]
pub struct Cursor {
    pub kinds: Items<Kind>,
}

/// What the parameters of a routine, a compound statement or a FOR loop bring in sight.
#[derive(Drop)]
pub struct Scope {
    /// The name of the FOR loop, where it is one's.
    pub loop_name: Option<Name>,
    /// The slot of its first variable.
    pub first: usize,
    /// The names of its variables.
    pub variables: NameList,
    /// What each variable is, in the order of their names.
    pub held: Items<Variable>,
    /// The names of its conditions.
    pub conditions: NameList,
    /// The SQLSTATE of each condition, in the order of their names.
    pub states: Items<SqlState>,
    /// The slot of its first cursor.
    pub first_cursor: usize,
    /// The names of its cursors.
    pub cursors: NameList,
    /// What each cursor is, in the order of their names.
    pub columns: Items<Cursor>,
}

/// A scope in sight.
#[derive(Clone, Copy)]
pub struct ScopeRef<'a> {
    pub scope: &'a Scope,
}

/// The routine in whose body a name stands: its name, and its head where it is a function. Inside
/// its own INSERT, UPDATE and DELETE a routine writes, so its head says that it modifies SQL data.
#[derive(Drop)]
pub struct EnclosingRoutine {
    pub name: Name,
    pub head: Option<FunctionHead>,
}

/// A cursor that a name stands for: its slot, and the kinds of its columns.
#[derive(Clone, Copy)]
pub struct FoundCursor<'a> {
    pub slot: usize,
    pub kinds: &'a [Kind],
}

/// A scope of its own without a name in it, whose variables and cursors begin at these slots.
pub fn empty_scope(alloc: Global, first: usize, first_cursor: usize) -> Scope
    ensures { result ≡ spec.empty_scope first first_cursor }
{
    Scope {
        loop_name: None,
        first,
        variables: NameList::new(alloc),
        held: Items::new(alloc),
        conditions: NameList::new(alloc),
        states: Items::new(alloc),
        first_cursor,
        cursors: NameList::new(alloc),
        columns: Items::new(alloc),
    }
}

/// The parameters of a routine, which have the first slots.
pub fn parameter_scope(alloc: Global, names: NameList, held: Items<Variable>) -> Scope
    ensures { result ≡ spec.parameter_scope names held }
{
    Scope {
        loop_name: None,
        first: 0,
        variables: names,
        held,
        conditions: NameList::new(alloc),
        states: Items::new(alloc),
        first_cursor: 0,
        cursors: NameList::new(alloc),
        columns: Items::new(alloc),
    }
}

/// The columns of a FOR loop, whose variables and cursors begin at these slots.
pub fn loop_scope(
    alloc: Global,
    loop_name: Option<Name>,
    first: usize,
    first_cursor: usize,
    names: NameList,
    held: Items<Variable>,
) -> Scope
    ensures { result ≡ spec.loop_scope loop_name first first_cursor names held }
{
    Scope {
        loop_name,
        first,
        variables: names,
        held,
        conditions: NameList::new(alloc),
        states: Items::new(alloc),
        first_cursor,
        cursors: NameList::new(alloc),
        columns: Items::new(alloc),
    }
}

/// The scopes inside a scope.
pub fn entered_scope<'a>(
    alloc: Global,
    inner: ScopeRef<'a>,
    outside: &'a [ScopeRef<'a>],
) -> Result<Vec<ScopeRef<'a>>, NoMemory>
    ensures { IfOk result (λ ss. map scope_by ss.items ≡ scope_by inner.entry ∷
        map scope_by outside.now) }
{
    let mut scopes = Vec::new(alloc);
    scopes.push(inner)?;
    for outer in outside {
        scopes.push(*outer)?;
    }
    Ok(scopes)
}
