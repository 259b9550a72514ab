//! Laws on the plans of well typed trees, and worked rows.

ghost use Rattle.typing_plans.specs.Bodies.{TypedPlansFit, TypedPlansKinded};
ghost use Rattle.typing_plans.specs.Examples.{PlansWorked};
ghost use Rattle.typing_plans.specs.Kinding.{TypedTreesKinded};
ghost use Rattle.typing_plans.specs.Shaping.{TypedTreesShaped};

/// What is well typed has the shapes that make plans well formed.
pub fn trees_shaped()
    ensures { TypedTreesShaped }
{}

/// What is well typed has operands of the kinds that plans want.
pub fn trees_kinded()
    ensures { TypedTreesKinded }
{}

/// The plan of a well typed query is well formed, over functions that are well typed.
pub fn typed_plans_fit()
    ensures { TypedPlansFit }
{}

/// Each operand in that plan has its kind.
pub fn typed_plans_kinded()
    ensures { TypedPlansKinded }
{}

/// ORDER BY over VALUES, and VALUES without a row.
pub fn plans_worked()
    ensures { PlansWorked }
{}
