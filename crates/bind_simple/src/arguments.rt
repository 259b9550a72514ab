//! Arguments of CALL, by what their parameters want (ISO/IEC 9075-2, 15.1).

ghost use Rattle.std.specs.Prelude.{◌≡◌, IfOk, OnOk};
ghost use Rattle.std.specs.Option.{option_copied};
ghost use Rattle.bind_faults.specs.Faults.{taken};
ghost use Rattle.bind_simple.specs.Places.{place_by};
ghost use Rattle.bind_simple.specs.Calls as spec;

use crate::place::Surroundings;
use crate::target::bind_value;
use bind_faults::Notes;
use bind_names::variable_named;
use bind_rules::{Wanted, is_in, note_given, note_value};
use bind_sight::Variable;
use bound_trees::{BoundArgument, BoundExpr, BoundTarget};
use catalog_store::{ParameterMode, ProcedureHead};
use sql_values::{NoMemory, SqlType};
use statement_trees::Argument;
use std::alloc::Global;
use syntax_trees::Expr;

fn wanted_by(mode: Option<&ParameterMode>, data_type: Option<&SqlType>) -> Option<Wanted>
    ensures { result ≡ spec.wanted_by (option_copied mode.entry) (option_copied data_type.entry) }
{
    match mode {
        Some(mode) => match data_type {
            Some(data_type) => Some(Wanted {
                mode: *mode,
                data_type: *data_type,
            }),
            None => None,
        },
        None => None,
    }
}

/// What the parameter at a place wants, where there is one.
pub(crate) fn wanted_at(procedure: Option<&ProcedureHead>, place: usize) -> Option<Wanted>
    ensures { result ≡ spec.wanted_at (option_copied procedure.entry) place }
{
    match procedure {
        Some(head) => wanted_by(head.modes.get(place), head.parameters.get(place)),
        None => None,
    }
}

// The variable that an expression is.
fn variable_of(expr: &Expr, place: &Surroundings<'_>) -> Result<Option<(usize, Variable)>, NoMemory>
    ensures { IfOk result (λ v. v ≡ spec.variable_meant expr.now (place_by place.now)) }
{
    match expr {
        Expr::Name(column) => match &column.qualifier {
            Some(_) => Ok(None),
            None => variable_named(&column.name.name, place.scopes),
        },
        _ => Ok(None),
    }
}

fn with_type(slot: usize, data_type: Option<SqlType>) -> Option<BoundTarget>
    ensures { result ≡ spec.with_type slot data_type }
{
    match data_type {
        Some(data_type) => Some(BoundTarget { slot, data_type }),
        None => None,
    }
}

// The variable or parameter that an expression is, into which values may be stored.
fn target_meant(expr: &Expr, place: &Surroundings<'_>) -> Result<Option<BoundTarget>, NoMemory>
    ensures { IfOk result (λ t. t ≡ spec.target_meant expr.now (place_by place.now)) }
{
    match variable_of(expr, place)? {
        Some((slot, variable)) => Ok(with_type(slot, variable.data_type)),
        None => Ok(None),
    }
}

fn variable_or(tree: BoundExpr, target: Option<BoundTarget>) -> BoundArgument
    ensures { result ≡ spec.variable_or tree target }
{
    match target {
        Some(target) => BoundArgument::Variable(target),
        None => BoundArgument::Value(tree),
    }
}

fn argument_of(
    script: bool,
    wanted: Option<Wanted>,
    target: Option<BoundTarget>,
    tree: BoundExpr,
) -> BoundArgument
    ensures { result ≡ spec.argument_of script wanted target tree }
{
    match wanted {
        Some(wanted) => {
            if script || is_in(wanted.mode) {
                BoundArgument::Value(tree)
            } else {
                variable_or(tree, target)
            }
        }
        None => BoundArgument::Value(tree),
    }
}

// A value, or a variable.
fn bind_valued(
    alloc: Global,
    script: bool,
    wanted: Option<Wanted>,
    expr: &Expr,
    place: &Surroundings<'_>,
    notes: &mut Notes,
) -> Result<BoundArgument, NoMemory>
    ensures value { IfOk result
        (λ b. b ≡ (spec.judged_value script (place_by place.now) wanted expr.now).value) }
    ensures notes { OnOk result (notes.new ≡ taken notes.old
        (spec.judged_value script (place_by place.now) wanted expr.now)) }
{
    let target = target_meant(expr, place)?;
    let typed = bind_value(alloc, expr, place, notes)?;
    note_value(script, wanted, target, typed.head, &mut notes.least);
    Ok(argument_of(script, wanted, target, typed.tree))
}

/// An argument of a CALL of the script's, or of a routine or block.
pub(crate) fn bind_argument(
    alloc: Global,
    script: bool,
    wanted: Option<Wanted>,
    argument: &Argument,
    place: &Surroundings<'_>,
    notes: &mut Notes,
) -> Result<BoundArgument, NoMemory>
    ensures value { IfOk result
        (λ b. b ≡ (spec.judged_argument script (place_by place.now) wanted argument.now).value) }
    ensures notes { OnOk result (notes.new ≡ taken notes.old
        (spec.judged_argument script (place_by place.now) wanted argument.now)) }
{
    match argument {
        Argument::Value(expr) => bind_valued(alloc, script, wanted, expr, place, notes),
        Argument::Parameter(at) => {
            note_given(script, wanted, *at, &mut notes.least);
            Ok(BoundArgument::Given)
        }
    }
}
