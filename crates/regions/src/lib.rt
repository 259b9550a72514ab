//! Functions with statements as plans of one row.
#![tactic(auto)]

ghost use Rattle.regions.specs.Examples.{RoutinesWorked};
ghost use Rattle.rel_algebra.specs.BodyHandlers.{RaisesByBest};
ghost use Rattle.regions.specs.Kinds.{KindedInlines};
ghost use Rattle.regions.specs.Sizes.{SizesWorked};
ghost use Rattle.regions.specs.Worlds.{BodyPlans, FormIsPlanned, FormIsPure};
ghost use Rattle.regions.specs.Theorem.{
  CallsByRegion,
  Inlines,
  InlinesWith,
  Regions,
  WellFormedInlines,
};

/// What worked functions give, by themselves and by their plans.
pub fn routines_worked()
    ensures { RoutinesWorked }
{}

/// The plan of a function in form has one row of one cell, the value or the area of a call,
/// whatever the tables hold.
pub fn inlines()
    ensures { Inlines }
{}

/// The same where its parameters are read by any scalars, as in a query that calls it.
pub fn inlines_with()
    ensures { InlinesWith }
{}

/// The plan of a function in form is a chain over Unit, and where each query in its body is simple,
/// each Apply in it can be removed.
pub fn chains_over_unit()
    ensures { Regions }
{}

/// The plan of a function in form is well formed, kinds of values aside, and names no argument but
/// by the scalars that read its parameters.
pub fn well_formed_inlines()
    ensures { WellFormedInlines }
{}

/// The plan of a function in form whose statements are typed is well kinded, and its one column is
/// of the kind of the result, where each scalar that reads a parameter has the kind of its type.
pub fn kinded_inlines()
    ensures { KindedInlines }
{}

/// How many nodes the plans of worked functions have.
pub fn sizes_worked()
    ensures { SizesWorked }
{}

/// A condition is handled by the one best handler among all in sight.
pub fn raises_by_best()
    ensures { RaisesByBest }
{}

/// A call of a function in form, its arguments in columns, is an Apply of its plan as a region.
pub fn calls_by_region()
    ensures { CallsByRegion }
{}

/// A function in form is planned, as it stands among all routines.
pub fn form_is_planned()
    ensures { FormIsPlanned }
{}

/// A call of a function in form ends, among all routines and in any world, with the value or the
/// area that it has by the tables alone, and leaves that world as it is.
pub fn form_is_pure()
    ensures { FormIsPure }
{}

/// A call of a function in form ends, in any world, as the one cell of its plan, and leaves that
/// world as it is.
pub fn body_plans()
    ensures { BodyPlans }
{}
