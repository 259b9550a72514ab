//! What CREATE FUNCTION and CREATE PROCEDURE have in common: parameters, names in use and heights.

ghost use Rattle.std.specs.Prelude.{◌≡◌, map, filter, IfOk, OnOk};
ghost use Rattle.bind_faults.specs.Faults.{noted};
ghost use Rattle.bind_queries.specs.Heights as heights;
ghost use Rattle.bind_definitions.specs.Routines as spec;

use bind_faults::Fault;
use bind_kinds::{note_type, type_of};
use bind_rules::{copied, indexed, note_repeated, variable_of};
use bind_sight::{Scope, Variable, parameter_scope};
use catalog_store::{Catalog, Object};
use sql_values::{Name, NoMemory, SqlType};
use sqlite_items::Items;
use statement_trees::Parameter;
use std::alloc::Global;
use syntax_trees::Ident;

fn parameter_idents(alloc: Global, parameters: &[Parameter]) -> Result<Items<Ident>, NoMemory>
    ensures { IfOk result (λ idents. idents ≡ spec.parameter_idents parameters.now) }
{
    let mut idents = Items::new(alloc);
    for parameter in parameters {
        idents.push(copied(&parameter.name)?)?;
    }
    Ok(idents)
}

// The written types of the parameters.
fn note_types(parameters: &[Parameter], least: &mut Option<Fault>)
    ensures { least.new ≡ noted least.old (spec.types_faults parameters.now) }
{
    for parameter in parameters {
        note_type(parameter.data_type, least);
    }
}

fn parameters_held(alloc: Global, parameters: &[Parameter]) -> Result<Items<Variable>, NoMemory>
    ensures { IfOk result (λ vs. vs ≡ spec.parameters_held parameters.now) }
{
    let mut held = Items::new(alloc);
    for parameter in parameters {
        held.push(variable_of(type_of(parameter.data_type)))?;
    }
    Ok(held)
}

/// The parameters. One of a name that an earlier one has is a fault, and so is a type out of range.
pub fn parameters_of(
    alloc: Global,
    parameters: &[Parameter],
    least: &mut Option<Fault>,
) -> Result<Scope, NoMemory>
    ensures scope { IfOk result (λ s. s ≡ spec.parameters_of parameters.now) }
    ensures faults { OnOk result (least.new ≡ noted least.old
        (spec.parameter_faults parameters.now)) }
{
    let idents = parameter_idents(alloc, parameters)?;
    let names = indexed(alloc, idents.as_slice())?;
    note_repeated(idents.as_slice(), &names, least);
    note_types(parameters, least);
    let held = parameters_held(alloc, parameters)?;
    Ok(parameter_scope(alloc, names, held))
}

/// The types of the parameters.
pub fn parameter_types(alloc: Global, parameters: &[Parameter]) -> Result<Items<SqlType>, NoMemory>
    ensures { IfOk result (λ ts. ts ≡ spec.parameter_types parameters.now) }
{
    let mut types = Items::new(alloc);
    for parameter in parameters {
        types.push(type_of(parameter.data_type))?;
    }
    Ok(types)
}

/// The names that stand for something.
pub fn used_in(alloc: Global, catalog: &Catalog, names: &[Name]) -> Result<Items<Name>, NoMemory>
    ensures { IfOk result (λ ns. ns ≡ spec.used_in catalog.now names.now) }
{
    let mut used = Items::new(alloc);
    for name in names {
        if catalog.get(name).is_some() {
            used.push(name.copied()?)?;
        }
    }
    Ok(used)
}

/// Whether a name is among others.
pub fn calls(name: &Name, names: &[Name]) -> bool
    ensures { result ≡ spec.calls name.now names.now }
{
    names.contains(name)
}

fn height_of(name: &Name, catalog: &Catalog) -> u32
    ensures { result ≡ heights.height_named catalog.now name.now }
{
    match catalog.get(name) {
        Some(Object::Function(function)) => function.head.height,
        Some(Object::Interpreted(function)) => function.head.height,
        Some(Object::Procedure(procedure)) => procedure.head.height,
        Some(Object::Table(_)) => 0,
        None => 0,
    }
}

/// The greatest height among routines, 0 where there is none.
pub fn greatest_height(catalog: &Catalog, names: &[Name]) -> u32
    ensures { result ≡ heights.greatest_height catalog.now names.now }
{
    let mut height = 0;
    for name in names {
        height = height_of(name, catalog).max(height);
    }
    height
}
