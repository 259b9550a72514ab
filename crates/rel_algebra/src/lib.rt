//! What expressions, queries and statements mean, as functions on plain trees; and the plans of
//! queries. Worked rows hold by computation.
#![tactic(auto)]

ghost use Rattle.std.specs.Prelude.{◌≡◌};
ghost use Rattle.rel_algebra.specs.Arguments.{RemovedFree};
ghost use Rattle.rel_algebra.specs.BlockExamples.{BlocksWorked};
ghost use Rattle.rel_algebra.specs.Bound.{WorkBound};
ghost use Rattle.rel_algebra.specs.CallExamples.{CallsAssign};
ghost use Rattle.rel_algebra.specs.Changes.{ChangesRun};
ghost use Rattle.rel_algebra.specs.Examples.{InverseOfEachRow, KeysStandOnce, LeastHasNoOpposite};
ghost use Rattle.rel_algebra.specs.Examples.{RowsInTurn, NoValueLacks, ColumnsByLevel, SelfCalls};
ghost use Rattle.rel_algebra.specs.Kinds.{KindedPlans};
ghost use Rattle.rel_algebra.specs.Lasting.{LastingPlans};
ghost use Rattle.rel_algebra.specs.Merged.{MergedPlans};
ghost use Rattle.rel_algebra.specs.PlanExamples.{PlansWorked, QueriesWorked};
ghost use Rattle.rel_algebra.specs.Returning.{ReturnedMeans};
ghost use Rattle.rel_algebra.specs.PlanText.{WaysPrinted};
ghost use Rattle.rel_algebra.specs.RemovalExamples.{RemovalWorked};
ghost use Rattle.rel_algebra.specs.RemovalLaws.{LocalRules, LookupRules, NoneLeft, RegionRule};
ghost use Rattle.rel_algebra.specs.RemovalLaws.{RemovedEven, RemovedFits, RemovedKinds};
ghost use Rattle.rel_algebra.specs.RemovalLaws.{RemovedLeaves, RemovedMeans, RemovedSame};
ghost use Rattle.rel_algebra.specs.RemovalLaws.{RenamedSame, RowsLong, RunOnce};
ghost use Rattle.rel_algebra.specs.Simple.{ClosedPlans, RemovablePlans};
ghost use Rattle.rel_algebra.specs.WordExamples.{WordsWorked};
ghost use Rattle.rel_algebra.specs.Theorem.{FunctionPlans, KeptTablesFit, Means, MeansAsked};
ghost use Rattle.rel_algebra.specs.Theorem.{MeansPassing, MeansUnder, MeansWithin};
ghost use Rattle.rel_algebra.specs.WellFormed.{WellFormedPlans};

mod column_places;
mod condition_word;
mod count;
mod plan;
mod scalar;

pub use column_places::{ColumnPlaces, KeptPlaces};
pub use condition_word::{ConditionValue, ConditionWord, ItemWord};
pub use count::apply_count;
pub use plan::{ApplyKind, Leaf, Node, Plan, ScalarRow};
pub use scalar::{ListWord, Scalar, ScalarLink, UnaryWord};

/// The inverse of each row raises at the row with zero; where that row is left out it is a record.
pub fn inverse_of_each_row()
    ensures { InverseOfEachRow }
{}

/// An INSERT stores its rows in the order of their keys, and is refused where a key stands already,
/// or is NULL.
pub fn keys_stand_once()
    ensures { KeysStandOnce }
{}

/// The least INTEGER is a number that can be computed, and dividing it by -1, as turning its sign,
/// is out of range.
pub fn least_has_no_opposite()
    ensures { LeastHasNoOpposite }
{}

/// VALUES gives its rows in their order, whatever their keys, and the first condition ends it.
pub fn rows_in_turn()
    ensures { RowsInTurn }
{}

/// An INSERT is refused whole where one of its rows has NULL in a column that takes none.
pub fn no_value_lacks()
    ensures { NoValueLacks }
{}

/// A column is found in the row of its level, the innermost row at level 0; a comparison gives a
/// truth value.
pub fn columns_by_level()
    ensures { ColumnsByLevel }
{}

/// A function that calls itself takes a turn at each activation; the twenty-fifth raises.
pub fn self_calls()
    ensures { SelfCalls }
{}

/// A function whose body is one RETURN gives its expression, assigned to the result's type: what
/// the expression wrote is taken back where it raises an exception, and a planned one writes
/// nothing. A function is planned where its body is one RETURN of a planned expression, or a
/// statement in form; no other routine is.
pub fn returned_means()
    ensures { ReturnedMeans }
{}

/// INSERT, UPDATE and DELETE of a script store, change and remove rows, and raise where no row is
/// met; an INSERT that lists no columns is one of all columns, in their order.
pub fn changes_run()
    ensures { ChangesRun }
{}

/// A planned query ends as its plan does, whatever the tables hold, and leaves the world in which
/// it began: the same rows in the same order, or the same first condition. It is planned where each
/// function that it calls, in turn, only returns an expression, or has a body in form; the values
/// of the frame are the plan's arguments.
pub fn means_passing()
    ensures { MeansPassing }
{}

/// The same inside the body of a routine: what a self-call means there makes no difference to a
/// planned query.
pub fn means_within()
    ensures { MeansWithin }
{}

/// A query that is a statement does the same: a planned one changes nothing that has to be taken
/// back.
pub fn means_asked()
    ensures { MeansAsked }
{}

/// The plan of a function that is planned has one row of one cell, the value or the area of a call,
/// whatever the tables hold.
pub fn function_plans()
    ensures { FunctionPlans }
{}

/// The plan of a query means it under any rows outside, wherever its environment reads the names
/// from outside.
pub fn means()
    ensures { Means }
{}

/// The same under rows of values outside, each read at its level.
pub fn means_under()
    ensures { MeansUnder }
{}

/// Queries give the first condition in the order of their rows, or none that they don't come to;
/// and their worked rows.
pub fn queries_worked()
    ensures { QueriesWorked }
{}

/// Words over texts, numbers and truth values, what each gives and when it raises; and the same by
/// plans.
pub fn words_worked()
    ensures { WordsWorked }
{}

/// Each argument of a call is assigned to its parameter before the next is evaluated, and the
/// body's value to the result's type: worked rows, where these cut a text or raise, by plans too.
pub fn calls_assign()
    ensures { CallsAssign }
{}

/// What calls of functions give whose bodies are blocks: worked rows, by plans too.
pub fn blocks_worked()
    ensures { BlocksWorked }
{}

/// The plans of worked queries, what is done by them, and how many steps they take.
pub fn plans_worked()
    ensures { PlansWorked }
{}

/// A whole query has a plan that uses no outer column, whatever it names; and so has each function.
pub fn closed_plans()
    ensures { ClosedPlans }
{}

/// What the emitter makes of the body of a function in a call, whose arguments stand in the columns
/// from m on, is its own plan moved: its columns stand after the arguments, and the arguments are
/// read in their columns. So a plan that is kept for the function is merged in its stead.
pub fn merged_plans()
    ensures { MergedPlans }
{}

/// The plan of a query that is well typed is well formed, kinds of values aside: each name in it is
/// there, and a plan that is judged as one value has one column. So is the plan of each function.
pub fn well_formed_plans()
    ensures { WellFormedPlans }
{}

/// Each Apply in the plan of a simple query passes the test by which it can be removed: each query
/// nested in it names nothing outside itself, or names it only in one unbroken run of conjuncts
/// that compare its columns with names from outside. So does each in the plan of a function.
pub fn removable_plans()
    ensures { RemovablePlans }
{}

/// In the plan of a well-typed query each operand has the kind that it is wanted to have, where
/// NULL fits each kind, and the columns are of the query's kinds.
pub fn kinded_plans()
    ensures { KindedPlans }
{}

/// Tables whose rows each fit have rows of as many values as columns, which is all that the laws on
/// plans want of them.
pub fn kept_tables_fit()
    ensures { KeptTablesFit }
{}

/// A plan that is kept stays the plan of its query while the tables that it names, in the bodies of
/// called functions too, have their columns, whatever other tables are made.
pub fn lasting_plans()
    ensures { LastingPlans }
{}

/// What is left of worked plans when their Applies are removed, and what they give.
pub fn removal_worked()
    ensures { RemovalWorked }
{}

/// A plan with renamed outer columns has the same rows.
pub fn renamed_same()
    ensures { RenamedSame }
{}

/// The rows of a plan are as long as the plan is wide.
pub fn rows_long()
    ensures { RowsLong }
{}

/// The rules late, keep and cell give equal rows.
pub fn local_rules()
    ensures { LocalRules }
{}

/// An Apply of a chain is a Lookup, which means an Apply with a Filter for each equality.
pub fn lookup_rules()
    ensures { LookupRules }
{}

/// An Apply of a chain over Unit is columns of its input.
pub fn region_rule()
    ensures { RegionRule }
{}

/// What removal makes of an even plan is even, and as wide.
pub fn removed_even()
    ensures { RemovedEven }
{}

/// A plan without the Applies that can be removed has the same rows, in the same order, with the
/// same cells and poison.
pub fn removed_same()
    ensures { RemovedSame }
{}

/// What removal leaves: no Apply that can be removed, no more Applies than could not be, and no
/// outer column that the plan does not use.
pub fn removed_leaves()
    ensures { RemovedLeaves }
{}

/// What removal makes of a well-formed plan is well formed, for the same tables, arguments and
/// outer rows.
pub fn removed_fits()
    ensures { RemovedFits }
{}

/// The steps of a plan in which no Apply is left.
pub fn work_bound()
    ensures { WorkBound }
{}

/// A well-formed plan means the same after removal, for all tables, arguments and outer rows.
pub fn removed_means()
    ensures { RemovedMeans }
{}

/// Of a plan whose Applies all pass the test none is left.
pub fn none_left()
    ensures { NoneLeft }
{}

/// What the code of Once and Lookup stands on: the inner plan has the same rows for each outer row,
/// and none after the first that is poisoned counts.
pub fn run_once()
    ensures { RunOnce }
{}

/// After removal each operand has its kind still, and the columns are of the same kinds.
pub fn removed_kinds()
    ensures { RemovedKinds }
{}

/// Where no inner plan names an argument, none of the result does.
pub fn removed_free()
    ensures { RemovedFree }
{}

/// The lines of nodes that come to the rows of an inner plan.
pub fn ways_printed()
    ensures { WaysPrinted }
{}
