//! What decides which plain tree a bound tree stands for, and worked rows.

ghost use Rattle.viewing_laws.specs.Deciding.{ViewsDecided};
ghost use Rattle.viewing_laws.specs.Examples.{BodiesCall, NamesWorked, PlansWorked};
ghost use Rattle.viewing_laws.specs.Planned.{PlannedViews};
ghost use Rattle.viewing_laws.specs.Standing.{RoutinesByName, AddingLeavesViews};
ghost use Rattle.viewing_laws.specs.Standing.{DroppingLeavesViews, HeadsSuffice};

/// The names that a tree calls decide which plain tree it stands for.
pub fn views_decided()
    ensures { ViewsDecided }
{}

/// What a name stands for is its object, seen by the whole catalog.
pub fn routine_is()
    ensures { RoutinesByName }
{}

/// What is made later leaves what every other name stands for.
pub fn adding_leaves_views()
    ensures { AddingLeavesViews }
{}

/// An entry less that no other calls leaves what every other name stands for.
pub fn dropping_leaves_views()
    ensures { DroppingLeavesViews }
{}

/// Where heads list what bodies call, each routine of a sound catalog calls those before it.
pub fn heads_suffice()
    ensures { HeadsSuffice }
{}

/// What has a plan over the catalog is the same tree by the views of the catalog's routines.
pub fn planned_views()
    ensures { PlannedViews }
{}

/// What bodies call, and that it stands before them.
pub fn bodies_call()
    ensures { BodiesCall }
{}

/// What the names of a catalog stand for, as entries come and go.
pub fn names_worked()
    ensures { NamesWorked }
{}

/// What has a plan is the same by the views, and what has none may be another.
pub fn plans_worked()
    ensures { PlansWorked }
{}
