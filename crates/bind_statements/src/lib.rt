//! Names of statements: whether those of a statement stand for something, and the statement with
//! its names resolved.
#![tactic(auto, using(bind_faults::proofs::Laws::noted_append))]

ghost use Rattle.bind_statements.specs.Binds.{FaultlessFits};
ghost use Rattle.bind_statements.specs.Runs.{FaultlessRuns};
ghost use Rattle.bind_statements.specs.Types.{FaultlessTyped};
ghost use Rattle.bind_statements.specs.Examples.{EachFaultAtItsPlace, KeysOfTables, DropsOfEntries};
ghost use Rattle.bind_statements.specs.Examples.{FormsBoundAlone, FaultsOfWriting, KindsFit};
ghost use Rattle.bind_statements.specs.Examples.{FunctionsHavePlans};
ghost use Rattle.bind_statements.specs.Examples.{BindsByPlaceAndName, BindsWriting};

mod function;
mod statement;

pub use bind_direct::{Bound, BoundStatement};
pub use bind_parts::NameFault;
pub use bind_rules::MOST_HEIGHT;
pub use statement::{anchor_of, bind_statement};

/// A statement without faults makes what fits the catalog: a name that is free, a key of columns,
/// calls of functions that stand there and are lower, with as many arguments as parameters; what is
/// dropped stands there unused; and what is asked or met has a plan, where it is said so.
pub fn faultless_fits()
    ensures { FaultlessFits }
{}

/// What is bound without faults is well typed: each column, slot, cursor and label that it names is
/// there, and each operand, argument and value is of a kind that fits. In each compound statement
/// the handlers stand after all other declarations, as a script has them.
pub fn faultless_typed()
    ensures { FaultlessTyped }
{}

/// Where all functions have plans, plans answer a statement without faults if it is of a planned
/// form: CREATE TABLE, CREATE FUNCTION without characteristics whose body is RETURN, does not call
/// the function itself and is no heavier than a plan may be, DROP, INSERT, UPDATE, DELETE or a
/// query.
pub fn faultless_runs()
    ensures { FaultlessRuns }
{}

/// Each kind of fault, at its place.
pub fn each_fault_at_its_place()
    ensures { EachFaultAtItsPlace }
{}

/// Keys of several columns, and second ones: each fault at its place.
pub fn keys_of_tables()
    ensures { KeysOfTables }
{}

/// What is dropped is of the sort that is written, and nothing uses it.
pub fn drops_of_entries()
    ensures { DropsOfEntries }
{}

/// Which statements plans answer, and which they don't.
pub fn forms_bound_alone()
    ensures { FormsBoundAlone }
{}

/// Which functions whose body is a light RETURN have plans: all but one that calls itself. With
/// RETURNS NULL ON NULL INPUT the value is a CASE over the parameters.
pub fn functions_have_plans()
    ensures { FunctionsHavePlans }
{}

/// Lists of columns, assignments and WHERE of what writes a table: each fault at its place.
pub fn faults_of_writing()
    ensures { FaultsOfWriting }
{}

/// What is asked of kinds: each fault at its place, and no second one above it.
pub fn kinds_fit()
    ensures { KindsFit }
{}

/// A column is bound by its place, a call by its name.
pub fn binds_by_place_and_name()
    ensures { BindsByPlaceAndName }
{}

/// A column that is written is bound by its place, the rows that are met by a query of these, and a
/// key by the places of its columns in their order.
pub fn binds_writing()
    ensures { BindsWriting }
{}
