//! What a column's name stands for in sight (ISO/IEC 9075-2, 5.4 and 6.6).

ghost use Rattle.std.specs.Prelude.{◌≡◌, IfOk, map};
ghost use Rattle.bind_sight.specs.Sight as spec;
ghost use Rattle.bind_sight.specs.Scopes.{scope_by};
ghost use Rattle.bind_sight.specs.Sight.{seen_by, level_by};

use crate::groups::{column_of, guess_of};
use crate::items::{among, hides, unknown_item};
use crate::scopes::{loop_variable, variable_named};
use bind_sight::{Hit, Level, Referent, ScopeRef, Sight, Variable};
use sql_values::NoMemory;
use syntax_trees::ColumnName;

// A column of an item that is not known, of the innermost query outwards.
fn guess(wanted: &ColumnName, levels: &[Level<'_>], other: Referent) -> Referent
    ensures { result ≡ spec.guess wanted.now 0 (map level_by levels.now) other }
{
    for (depth, level) in levels.iter().enumerate() {
        if let Some(item) = unknown_item(&wanted.qualifier, level.items) {
            return guess_of(depth, item, &wanted.name.name, level.grouped, level.keys);
        }
    }
    other
}

fn found_variable(found: Option<(usize, Variable)>) -> Referent
    ensures { result ≡ spec.found_variable found }
{
    match found {
        Some((slot, variable)) => Referent::Variable(slot, variable.kind),
        None => Referent::Unknown,
    }
}

// A variable or a parameter by its name alone, or a column after the name of its FOR loop.
fn variable_by(
    wanted: &ColumnName,
    scopes: &[ScopeRef<'_>],
) -> Result<Option<(usize, Variable)>, NoMemory>
    ensures { IfOk result (λ v. v ≡ spec.variable_by wanted.now.qualifier wanted.now.name.name
        (map scope_by scopes.now)) }
{
    match &wanted.qualifier {
        Some(qualifier) => loop_variable(&qualifier.get().name, &wanted.name.name, scopes),
        None => variable_named(&wanted.name.name, scopes),
    }
}

// A variable, a parameter or a column of a FOR loop.
fn variable(wanted: &ColumnName, scopes: &[ScopeRef<'_>]) -> Result<Referent, NoMemory>
    ensures { IfOk result (λ f. f ≡ spec.variable wanted.now (map scope_by scopes.now)) }
{
    let found = variable_by(wanted, scopes)?;
    Ok(found_variable(found))
}

// A column of a known item, of the innermost query outwards.
fn outwards(
    wanted: &ColumnName,
    levels: &[Level<'_>],
    other: Referent,
) -> Result<Referent, NoMemory>
    ensures { IfOk result (λ f. f ≡ spec.outwards wanted.now 0 (map level_by levels.now) other) }
{
    for (depth, level) in levels.iter().enumerate() {
        match among(wanted, level.items, level.base)? {
            Hit::Nowhere => {
                if hides(&wanted.qualifier, level.items) {
                    return Ok(Referent::Unknown);
                }
            }
            Hit::Once(place, kind) => {
                return Ok(column_of(depth, place, kind, level.grouped, level.keys));
            }
            Hit::Twice => return Ok(Referent::Several),
        }
    }
    Ok(other)
}

/// A column of a known item, then of any that is not known, then a variable, a parameter or a
/// column of a FOR loop.
pub fn stands_for(wanted: &ColumnName, sight: &Sight<'_>) -> Result<Referent, NoMemory>
    ensures { IfOk result (λ f. f ≡ spec.stands_for wanted.now (seen_by sight.now)) }
{
    let other = variable(wanted, sight.scopes)?;
    let other = guess(wanted, sight.levels, other);
    outwards(wanted, sight.levels, other)
}
