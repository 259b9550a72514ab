//! The functions whose bodies are statements that a query calls, directly or in the bodies of
//! others, each after those that it uses.

ghost use Rattle.std.specs.Prelude.{◌≡◌, length, IfOk, OnOk};
ghost use Rattle.called_names.specs.Reached as spec;
ghost use Rattle.called_names.specs.Called.{held};

use crate::calls::note_query;
use bound_trees::BoundQuery;
use catalog_store::{Catalog, Object};
use sql_values::{Name, NoMemory};
use std::alloc::Global;

// Whether a name is among others.
fn is_among(names: &[&Name], name: &Name) -> bool
    ensures { result ≡ spec.is_among name.now (held names.now) }
{
    for other in names {
        if **other == *name {
            return true;
        }
    }
    false
}

// The functions that a name reaches by so many steps at most, after those that were reached before.
fn reach<'a>(
    name: &'a Name,
    steps: usize,
    catalog: &'a Catalog,
    done: &mut Vec<&'a Name>,
) -> Result<(), NoMemory>
    ensures { OnOk result (held done.new.items ≡ spec.reach steps catalog.now name.now
        (held done.old.items)) }
{
    if steps == 0 || is_among(done.as_slice(), name) {
        return Ok(());
    }
    match catalog.get(name) {
        Some(Object::Interpreted(function)) => {
            let uses = function.head.uses.as_slice();
            for used in uses {
                reach(used, steps - 1, catalog, done)?;
            }
            done.push(name)?;
            Ok(())
        }
        Some(Object::Function(_)) => Ok(()),
        Some(Object::Procedure(_)) => Ok(()),
        Some(Object::Table(_)) => Ok(()),
        None => Ok(()),
    }
}

// Those that some names reach, one name after another.
fn reach_called<'a>(
    names: &[&'a Name],
    catalog: &'a Catalog,
    done: &mut Vec<&'a Name>,
) -> Result<(), NoMemory>
    ensures { OnOk result (held done.new.items ≡ spec.in_turn
        (spec.reach (length catalog.now) catalog.now) (held names.now) (held done.old.items)) }
{
    let steps = catalog.len();
    for name in names {
        reach(*name, steps, catalog, done)?;
    }
    Ok(())
}

/// Those that a query reaches, each after those that it uses. It can fail for want of memory alone.
pub fn reached<'a>(
    alloc: Global,
    query: &'a BoundQuery,
    catalog: &'a Catalog,
) -> Result<Vec<&'a Name>, NoMemory>
    ensures { IfOk result (λ names. held names.items ≡ spec.reached catalog.now query.now) }
{
    let mut called = Vec::new(alloc);
    note_query(query, &mut called)?;
    let mut done = Vec::new(alloc);
    reach_called(called.as_slice(), catalog, &mut done)?;
    Ok(done)
}
