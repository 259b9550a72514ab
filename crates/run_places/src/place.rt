//! Places, and what they are made of.

ghost use Rattle.std.specs.Prelude.{◌≡◌};
ghost use Rattle.run_places.specs.Standing.{before-prop, same-prop};
ghost use Rattle.viewing_laws.specs.Standing.{CallsStandBefore};

use bound_trees::BoundQuery;
use catalog_store::{Catalog, InterpretedFunction, Procedure};
use kept_queries::KeptPlans;
use run_choices::Raise;
use run_outcomes::Scope;
use sql_values::Name;

/// A routine whose body is a statement (ISO/IEC 9075-2, 11.60).
#[derive(Clone, Copy)]
pub enum RoutineBody<'a> {
    Function(&'a InterpretedFunction),
    Procedure(&'a Procedure),
}

/// The routine in whose body a tree stands, with its name, and how many activations of it may still
/// come inside this one. It matters only where the routine calls itself.
#[derive(Clone, Copy)]
pub struct Own<'a> {
    pub name: &'a Name,
    pub routine: RoutineBody<'a>,
    pub room: u32,
}

/// What stands around a tree: the catalog, and the plans that are kept in it; the routine of whose
/// body it is a part, if it is one of any; the queries of the cursors in sight, by their slots; the
/// compound statements in sight, the innermost last; how many compound statements and loops are
/// around it; and the conditions that the innermost action around it handles. Each routine of the
/// catalog calls itself and those before it alone.
#[derive(Clone, Copy)]
pub struct Place<'a> {
    pub catalog: &'a Catalog,
    pub kept: &'a KeptPlans,
    pub own: Option<Own<'a>>,
    pub cursors: &'a [&'a BoundQuery],
    pub scopes: &'a [Scope<'a>],
    pub level: usize,
    pub stacked: Option<&'a Raise>,
    ghost calls: { CallsStandBefore catalog.now } by { before-prop catalog.now },
    ghost same: { kept.now ≡ catalog.now } by { same-prop kept.now catalog.now },
}
