//! How typing lasts as the catalog changes, and worked rows.

ghost use Rattle.typing_lasting.specs.Lasting.{UsedNamesDecide, SameCatalogsDecide};
ghost use Rattle.typing_lasting.specs.Lasting.{MakingLeavesTyped, MakingLeavesItself};
ghost use Rattle.typing_lasting.specs.Lasting.{DroppingLeavesTyped, UnusedLeavesTyped};
ghost use Rattle.typing_lasting.specs.Examples.{StatementsUseNames, BodiesOutlastOthers};

/// Typing looks at the names that are used, and at no other.
pub fn used_names_decide()
    ensures { UsedNamesDecide }
{}

/// In two catalogs where the used names stand for the same, typing is the same.
pub fn same_catalogs_decide()
    ensures { SameCatalogsDecide }
{}

/// What is made later leaves the typing of what uses names that stand for something.
pub fn making_leaves_typed()
    ensures { MakingLeavesTyped }
{}

/// The body of a routine that calls itself is typed the same before the routine is made and
/// afterwards.
pub fn making_leaves_itself()
    ensures { MakingLeavesItself }
{}

/// An entry less leaves the typing of what doesn't use its name.
pub fn dropping_leaves_typed()
    ensures { DroppingLeavesTyped }
{}

/// An entry that no other uses may be dropped: the bodies of the other routines keep their typing.
pub fn unused_leaves_typed()
    ensures { UnusedLeavesTyped }
{}

/// Which names statements use.
pub fn statements_use_names()
    ensures { StatementsUseNames }
{}

/// A body stays well typed when another table is dropped, and not when its own is.
pub fn bodies_outlast_others()
    ensures { BodiesOutlastOthers }
{}
