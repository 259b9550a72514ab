//! What stands around a statement of a body that becomes a plan.

ghost use Rattle.std.specs.Prelude.{◌≡◌, ◌-◌, suc, take, IfOk};
ghost use Rattle.rel_algebra.specs.BodyChain.{column_at as column_by, reading};
ghost use Rattle.rel_algebra.specs.BodyDispatch.{action_env};
ghost use Rattle.plan_expressions.specs.Scopes.{env_of as names_of};
ghost use Rattle.plan_steps.specs.Places.{env_in, marked};

use crate::sight::{Scope, Sight};
use block_plans::Functions;
use plan_expressions::NameSources;
use sql_values::NoMemory;
use sqlite_items::at as item_at;
use std::alloc::Global;

/// Codes by levels, the newest first. Another level has code 2, at which nothing runs.
#[derive(Drop)]
pub enum Marks<'a> {
    /// None.
    Nothing,
    /// A level, its code, and what was marked before.
    Mark(usize, usize, &'a Marks<'a>),
}

/// What stands around a statement: what calls run; the handlers in sight; the columns of the
/// variables in sight, by their slots; the codes to go to by the level of a compound statement that
/// is left by its label, or for its handlers, and for what nothing takes; the column of the area
/// that the action around handles; and how many compound statements are around.
#[derive(Clone, Copy)]
pub struct Place<'a> {
    pub functions: &'a Functions<'a>,
    pub sight: &'a Sight<'a>,
    pub columns: &'a [usize],
    pub labels: &'a Marks<'a>,
    pub exits: &'a Marks<'a>,
    pub out: usize,
    pub stacked: Option<usize>,
    pub level: usize,
}

/// The code of a level.
pub fn code_at(marks: &Marks, level: usize) -> usize
    ensures { result ≡ marked marks.now level }
{
    match marks {
        Marks::Nothing => 2,
        Marks::Mark(own, code, others) => {
            if level == *own {
                *code
            } else {
                code_at(others, level)
            }
        }
    }
}

/// The code to which LEAVE goes, by how many compound statements outwards its label stands.
pub fn label_code(place: &Place, outwards: usize) -> usize
    ensures { result ≡ marked place.now.labels.now (place.now.level - suc outwards) }
{
    if outwards < place.level {
        code_at(place.labels, place.level - outwards - 1)
    } else {
        code_at(place.labels, 0)
    }
}

/// The column of a slot; of one that is not there a column that is not there.
pub fn column_at(place: &Place, slot: usize, beyond: usize) -> usize
    ensures { result ≡ column_by beyond place.now.columns.now slot }
{
    match item_at(place.columns, slot) {
        Some(column) => *column,
        None => beyond,
    }
}

/// Where expressions read the variables in sight.
pub fn names(alloc: Global, place: &Place) -> Result<NameSources, NoMemory>
    ensures { IfOk result (λ s. names_of s ≡ reading (env_in place.now)) }
{
    NameSources::listed(alloc, place.columns)
}

/// The same place where these columns are in sight.
pub fn with_columns<'a>(place: &Place<'a>, columns: &'a [usize]) -> Place<'a>
    ensures env { env_in result ≡ record {
      columns = columns.now;
      labels = (env_in place.now).labels;
      exits = (env_in place.now).exits;
      out = place.now.out;
      stacked = place.now.stacked;
      level = place.now.level;
    } }
    ensures sight { result.sight.now ≡ place.now.sight.now }
    ensures functions { result.functions.now ≡ place.now.functions.now }
{
    Place {
        functions: place.functions,
        sight: place.sight,
        columns,
        labels: place.labels,
        exits: place.exits,
        out: place.out,
        stacked: place.stacked,
        level: place.level,
    }
}

// So many of the columns in sight.
fn front<'a>(columns: &'a [usize], count: usize) -> &'a [usize]
    ensures { result.now ≡ take count columns.now }
{
    if count < columns.len() {
        return &columns[..count];
    }
    columns
}

/// The place of the action of a handler of a compound statement, by the handlers outside of that
/// one; the area that it handles stands in a column (ISO/IEC 9075-4, 14.2).
pub fn in_action<'a>(
    place: &Place<'a>,
    scope: &Scope<'a>,
    outer: &'a Sight<'a>,
    column: usize,
) -> Result<Place<'a>, NoMemory>
    ensures env { IfOk result (λ p. env_in p ≡ action_env (env_in place.now) scope.now.level
        scope.now.variables column) }
    ensures sight { IfOk result (λ p. p.sight.now ≡ outer.now) }
    ensures functions { IfOk result (λ p. p.functions.now ≡ place.now.functions.now) }
{
    match scope.level.checked_add(1) {
        Some(level) => Ok(Place {
            functions: place.functions,
            sight: outer,
            columns: front(place.columns, scope.variables),
            labels: place.labels,
            exits: place.exits,
            out: place.out,
            stacked: Some(column),
            level,
        }),
        None => Err(NoMemory),
    }
}
