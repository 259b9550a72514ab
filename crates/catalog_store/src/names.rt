//! How names keep what they stand for as the catalog changes.

ghost use Rattle.catalog_store.specs.Examples.{ObjectsByName, UsersOfNames, CallsAfterADrop};
ghost use Rattle.catalog_store.specs.Examples.{ItemsFromTheLeft, GroupedOrNot, TablesInBodies};
ghost use Rattle.catalog_store.specs.Examples.{RoutinesWithoutPlans};
ghost use Rattle.catalog_store.specs.Laws.{AddingLeavesOthers, DroppingLeavesOthers};

/// One more entry leaves what every other name stands for, and so the trees that calls run.
pub fn adding_leaves_the_others()
    ensures { AddingLeavesOthers }
{}

/// An entry less leaves what every other name stands for, and so the trees that calls run.
pub fn dropping_leaves_the_others()
    ensures { DroppingLeavesOthers }
{}

/// A name stands for one object, or for nothing.
pub fn objects_by_name()
    ensures { ObjectsByName }
{}

/// The users of a name are the other routines that call it, read it or write it.
pub fn users_of_names()
    ensures { UsersOfNames }
{}

/// A function that calls another one still calls it where a third that stood between them is
/// dropped.
pub fn calls_after_a_drop()
    ensures { CallsAfterADrop }
{}

/// The items of FROM are joined from the left; a comma joins all that stands from it on to the next
/// one with what stands before.
pub fn items_from_the_left()
    ensures { ItemsFromTheLeft }
{}

/// A select with a grouping is read on the rows of its groups, one without on those of FROM.
pub fn grouped_or_not()
    ensures { GroupedOrNot }
{}

/// A function whose body reads a table uses it, as it uses the functions that it calls.
pub fn tables_in_bodies()
    ensures { TablesInBodies }
{}

/// A routine whose body is a statement uses what its head lists, and no query calls it.
pub fn routines_without_plans()
    ensures { RoutinesWithoutPlans }
{}
