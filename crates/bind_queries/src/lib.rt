//! Names of expressions and queries: whether each stands for something, and the expression or query
//! with its names resolved.
#![tactic(auto, using(bind_faults::proofs::Laws::noted_append))]

ghost use Rattle.bind_queries.specs.Examples.{NamesInJoins, NamesOfDerivedTables};
ghost use Rattle.bind_queries.specs.Examples.{OrderByOutputColumns, BindsByPlaceInFrom};
ghost use Rattle.bind_queries.specs.Examples.{GroupedQueries, BindsByPlaceInGroup};
ghost use Rattle.bind_queries.specs.Examples.{SubqueriesInExpressions, BindsByLevel, CallsInSight};

mod bind;
mod grouped;
mod parts;

pub use bind::{bind_expr, bind_filter, bind_from, bind_having, bind_list, bind_typed};
pub use grouped::is_grouped_by;
pub use parts::bind_row_clauses;

/// Names over several items of FROM, in the list, in WHERE and in ON: each fault at its place.
pub fn names_in_joins()
    ensures { NamesInJoins }
{}

/// Names of derived tables and of their columns: each fault at its place.
pub fn names_of_derived_tables()
    ensures { NamesOfDerivedTables }
{}

/// ORDER BY names one output column.
pub fn order_by_output_columns()
    ensures { OrderByOutputColumns }
{}

/// A column is bound by its place in FROM's row; in ON by that in the row since the last comma.
pub fn binds_by_place_in_from()
    ensures { BindsByPlaceInFrom }
{}

/// Where aggregates stand, and which columns the list and HAVING of a grouped query name: each
/// fault at its place.
pub fn grouped_queries()
    ensures { GroupedQueries }
{}

/// In a group a grouping column is bound by its place among these, and an aggregate by the place of
/// its argument among the parts.
pub fn binds_by_place_in_group()
    ensures { BindsByPlaceInGroup }
{}

/// What subqueries see, and what is asked of their columns: each fault at its place.
pub fn subqueries_in_expressions()
    ensures { SubqueriesInExpressions }
{}

/// A column of a query outside is bound by how many queries outwards it stands.
pub fn binds_by_level()
    ensures { BindsByLevel }
{}

/// Which functions are in sight of a call, inside INSERT, UPDATE and DELETE and elsewhere: each
/// fault at its place.
pub fn calls_in_sight()
    ensures { CallsInSight }
{}
