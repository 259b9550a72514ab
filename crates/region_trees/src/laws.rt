//! Worked rows, and laws on the trees of bodies in form.

ghost use Rattle.region_trees.specs.Examples.{FormsWorked, ChoicesWorked, OthersWorked};
ghost use Rattle.region_trees.specs.Examples.{BodiesWorked, RegionsWorked};
ghost use Rattle.region_trees.specs.Laws.{RegionsEmbed, RegionsAgree, BodiesFormed, BodiesMean};

use regions::body_plans;

/// Which statements that hold none are in form.
pub fn forms_worked()
    ensures { FormsWorked }
{}

/// Which statements that hold others are in form.
pub fn choices_worked()
    ensures { ChoicesWorked }
{}

/// Which statements never are.
pub fn others_worked()
    ensures { OthersWorked }
{}

/// Which bodies are in form, by what they call and by their weight.
pub fn bodies_worked()
    ensures { BodiesWorked }
{}

/// Which trees statements stand for.
pub fn regions_worked()
    ensures { RegionsWorked }
{}

/// The tree of a body in form is the very statement that the body stands for.
pub fn regions_embed()
    ensures { RegionsEmbed }
{}

/// Where what has a plan is seen alike in two ways, the tree of a body in form is the same by both.
pub fn regions_agree()
    ensures { RegionsAgree }
{}

/// The tree of a body in form that doesn't call itself is formed as plans want it.
pub fn bodies_formed()
    ensures { BodiesFormed }
{}

/// A call of a function in form ends as the one cell of the plan of its tree, and leaves its world.
pub fn bodies_mean()
    ensures { BodiesMean }
{
    body_plans();
}
