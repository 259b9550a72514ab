//! Declarations of variables, conditions and cursors (ISO/IEC 9075-4, 14.3 and 14.4; ISO/IEC
//! 9075-2, 14.1).

ghost use Rattle.std.specs.Prelude.{◌≡◌, map, IfOk, OnOk};
ghost use Rattle.bind_faults.specs.Faults.{noted, taken};
ghost use Rattle.bind_sight.specs.Scopes.{scope_by};
ghost use Rattle.bind_simple.specs.Places.{place_by};
ghost use Rattle.bind_declarations.specs.Declarations as spec;

use crate::loops::{next_cursor, next_slot, slot_after};
use bind_faults::{Fault, FaultKind, Notes, note_if};
use bind_kinds::{Kind, kind_of_type, note_type, type_of};
use bind_parts::TypedQuery;
use bind_rules::variable_of;
use bind_selects::bind_ordered_typed;
use bind_sight::{Cursor, Output, Scope, ScopeRef, Variable, empty_scope, entered_scope};
use bind_simple::{Surroundings, bind_of_kind, note_state, seen_from, state_of, with_scopes};
use bound_trees::{BoundExpr, BoundHandler, BoundQuery, BoundVariables};
use sql_values::{Name, NoMemory, SqlType};
use sqlite_items::Items;
use statement_trees::{ConditionDeclaration, CursorDeclaration, VariableDeclaration};
use std::alloc::Global;
use syntax_trees::{Expr, Ident, OrderedQuery};

/// What a compound statement declares so far: its names, its variables with their defaults, the
/// queries of its cursors, and its handlers.
#[derive(Drop)]
pub struct Declared {
    pub scope: Scope,
    pub variables: Items<BoundVariables>,
    pub cursors: Items<BoundQuery>,
    pub handlers: Items<BoundHandler>,
}

/// Nothing yet, after the scopes outside.
pub fn nothing_declared(alloc: Global, outside: &Surroundings<'_>) -> Result<Declared, NoMemory>
    ensures { IfOk result (λ so. so ≡ spec.nothing_declared (place_by outside.now)) }
{
    let first = next_slot(outside.scopes)?;
    let first_cursor = next_cursor(outside.scopes)?;
    Ok(Declared {
        scope: empty_scope(alloc, first, first_cursor),
        variables: Items::new(alloc),
        cursors: Items::new(alloc),
        handlers: Items::new(alloc),
    })
}

// Whether a compound statement has the name already.
fn is_declared(name: &Name, scope: &Scope) -> bool
    ensures { result ≡ spec.is_declared name.now scope.now }
{
    scope.variables.place(name).is_some()
        || scope.conditions.place(name).is_some()
        || scope.cursors.place(name).is_some()
}

fn note_again(ident: &Ident, scope: &Scope, least: &mut Option<Fault>)
    ensures { least.new ≡ noted least.old (spec.again ident.now scope.now) }
{
    let again = is_declared(&ident.name, scope);
    note_if(again, FaultKind::DuplicateName, ident.anchor, least);
}

// ---- variables

fn add_variable(name: &Name, variable: Variable, scope: &mut Scope) -> Result<(), NoMemory>
    ensures { OnOk result (scope.new ≡ spec.with_variable name.now variable scope.old) }
{
    scope.variables.push(name.copied()?)?;
    scope.held.push(variable)?;
    Ok(())
}

// The names of one declaration.
fn add_variables(
    idents: &[Ident],
    variable: Variable,
    scope: &mut Scope,
    least: &mut Option<Fault>,
) -> Result<(), NoMemory>
    ensures value { OnOk result (scope.new ≡ spec.with_variables idents.now variable scope.old) }
    ensures faults { OnOk result (least.new ≡ noted least.old
        (spec.names_faults idents.now variable scope.old)) }
{
    for ident in idents {
        note_again(ident, scope, least);
        add_variable(&ident.name, variable, scope)?;
    }
    Ok(())
}

fn bind_default(
    alloc: Global,
    default: &Option<Expr>,
    kind: Kind,
    place: &Surroundings<'_>,
    notes: &mut Notes,
) -> Result<Option<BoundExpr>, NoMemory>
    ensures value { IfOk result (λ d. d ≡ (spec.judged_default default.now kind (place_by place.now)).value) }
    ensures notes { OnOk result (notes.new ≡ taken notes.old
        (spec.judged_default default.now kind (place_by place.now))) }
{
    match default {
        Some(expr) => {
            let value = bind_of_kind(alloc, kind, expr, place, notes)?;
            Ok(Some(value))
        }
        None => Ok(None),
    }
}

// The default, which sees what is declared before it.
fn default_after(
    alloc: Global,
    declaration: &VariableDeclaration,
    scope: &Scope,
    outside: &Surroundings<'_>,
    notes: &mut Notes,
) -> Result<Option<BoundExpr>, NoMemory>
    ensures value { IfOk result
        (λ d. d ≡ (spec.default_after declaration.now scope.now (place_by outside.now)).value) }
    ensures notes { OnOk result (notes.new ≡ taken notes.old
        (spec.default_after declaration.now scope.now (place_by outside.now))) }
{
    let kind = kind_of_type(type_of(declaration.data_type));
    let scopes = entered_scope(alloc, ScopeRef { scope }, outside.scopes)?;
    let place = with_scopes(&*outside, scopes.as_slice());
    let default = bind_default(alloc, &declaration.default, kind, &place, notes)?;
    Ok(default)
}

/// Variables, after what is declared so far.
pub fn declare_variables(
    alloc: Global,
    declaration: &VariableDeclaration,
    outside: &Surroundings<'_>,
    so: &mut Declared,
    notes: &mut Notes,
) -> Result<(), NoMemory>
    ensures value { OnOk result
        (so.new ≡ (spec.judged_variables declaration.now (place_by outside.now) so.old).value) }
    ensures notes { OnOk result (notes.new ≡ taken notes.old
        (spec.judged_variables declaration.now (place_by outside.now) so.old)) }
{
    note_type(declaration.data_type, &mut notes.least);
    let data_type = type_of(declaration.data_type);
    let first = slot_after(&so.scope)?;
    let default = default_after(alloc, declaration, &so.scope, outside, notes)?;
    let count = declaration.names.len();
    so.variables.push(BoundVariables {
        first,
        count,
        data_type,
        default,
    })?;
    let names = declaration.names.as_slice();
    let variable = variable_of(data_type);
    add_variables(names, variable, &mut so.scope, &mut notes.least)
}

// ---- conditions

/// A condition, after what is declared so far.
pub fn declare_condition(
    declaration: &ConditionDeclaration,
    so: &mut Declared,
    least: &mut Option<Fault>,
) -> Result<(), NoMemory>
    ensures value { OnOk result (so.new ≡ spec.condition_declared declaration.now so.old) }
    ensures faults { OnOk result (least.new ≡ noted least.old
        (spec.condition_faults declaration.now so.old)) }
{
    note_state(&declaration.state, least);
    note_again(&declaration.name, &so.scope, least);
    so.scope.conditions.push(declaration.name.name.copied()?)?;
    so.scope.states.push(state_of(&declaration.state))?;
    Ok(())
}

// ---- cursors

fn column_kinds(alloc: Global, columns: &[Output]) -> Result<Items<Kind>, NoMemory>
    ensures { IfOk result (λ kinds. kinds ≡ map (λ c. c.kind) columns.now) }
{
    let mut kinds = Items::new(alloc);
    for column in columns {
        kinds.push(column.kind)?;
    }
    Ok(kinds)
}

// The query of a cursor, which sees what is declared before it.
fn query_after(
    alloc: Global,
    query: &OrderedQuery,
    scope: &Scope,
    outside: &Surroundings<'_>,
    notes: &mut Notes,
) -> Result<TypedQuery, NoMemory>
    ensures value { IfOk result (λ q. q ≡ (spec.query_after query.now scope.now (place_by outside.now)).value) }
    ensures notes { OnOk result (notes.new ≡ taken notes.old
        (spec.query_after query.now scope.now (place_by outside.now))) }
{
    let scopes = entered_scope(alloc, ScopeRef { scope }, outside.scopes)?;
    let place = with_scopes(&*outside, scopes.as_slice());
    let sight = seen_from(&place);
    let bound = bind_ordered_typed(alloc, query, &sight, notes)?;
    Ok(bound)
}

// A cursor by the columns of its query.
fn add_columns(
    alloc: Global,
    name: &Name,
    columns: &[Output],
    scope: &mut Scope,
) -> Result<(), NoMemory>
    ensures { OnOk result (scope.new ≡ spec.with_cursor name.now (spec.cursor_over columns.now)
        scope.old) }
{
    let kinds = column_kinds(alloc, columns)?;
    scope.cursors.push(name.copied()?)?;
    scope.columns.push(Cursor { kinds })?;
    Ok(())
}

// A cursor by its query.
fn add_cursor(
    alloc: Global,
    name: &Name,
    query: TypedQuery,
    so: &mut Declared,
) -> Result<(), NoMemory>
    ensures { OnOk result (so.new ≡ spec.with_cursor_of name.now so.old query) }
{
    add_columns(alloc, name, query.columns.as_slice(), &mut so.scope)?;
    so.cursors.push(query.tree)?;
    Ok(())
}

/// A cursor, after what is declared so far.
pub fn declare_cursor(
    alloc: Global,
    declaration: &CursorDeclaration,
    outside: &Surroundings<'_>,
    so: &mut Declared,
    notes: &mut Notes,
) -> Result<(), NoMemory>
    ensures value { OnOk result
        (so.new ≡ (spec.judged_cursor declaration.now (place_by outside.now) so.old).value) }
    ensures notes { OnOk result (notes.new ≡ taken notes.old
        (spec.judged_cursor declaration.now (place_by outside.now) so.old)) }
{
    let query = query_after(alloc, &declaration.query, &so.scope, outside, notes)?;
    note_again(&declaration.name, &so.scope, &mut notes.least);
    add_cursor(alloc, &declaration.name.name, query, so)
}
