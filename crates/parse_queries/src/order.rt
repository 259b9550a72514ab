//! Queries with their ORDER BY.

ghost use Rattle.std.specs.Prelude.{◌≡◌};
ghost use Rattle.grammar_algebra.specs.Reading.{reading};
ghost use Rattle.grammar_algebra.specs.Reads.{Reads};
ghost use Rattle.grammar_sql.specs.Queries as queries;
ghost use Rattle.grammar_sql.specs.Sql.{rules};

use crate::queries::query;
use grammar_algebra::{Input, ParseError};
use parse_expressions::order_by;
use parse_reads::paired;
use std::alloc::Global;
use syntax_trees::OrderedQuery;

/// A query, and its ORDER BY if it has one (ISO/IEC 9075-2, 14.3), by the rule `ordered_query`. On
/// Ok the input stands after it, else at the token that does not go on.
#[tactic(auto, unfolding(grammar_sql::specs::Queries::ordered_query))]
pub fn ordered_query(
    alloc: Global,
    input: &mut Input<'_>,
    room: u32,
) -> Result<OrderedQuery, ParseError>
    ensures { Reads (reading rules room queries.ordered_query input.old.rest.now) result
        input.new.rest.now }
{
    let query = query(alloc, input, room)?;
    let (query, order) = paired(query, order_by(alloc, input, room))?;
    Ok(OrderedQuery { query, order })
}
