//! The outermost queries of expressions and queries: those that are evaluated with no row in sight;
//! and those in them.

ghost use Rattle.std.specs.Prelude.{IfOk, OnOk};
ghost use Rattle.kept_queries.specs.Keeping.{AreKept};

use crate::under_rows::{keep_query, keep_within};
use bound_trees::{BoundExpr, BoundQuery};
use kept_queries::{Around, InSight, KeptQuery};
use sql_values::NoMemory;
use sqlite_items::Items;
use std::alloc::Global;

/// The most queries that are kept of a body; and where so many are kept of functions with plans,
/// none is of a further one. A look-up goes along all of them, so that what stands after so many
/// others is better run without a plan.
pub const MOST_KEPT: usize = 256;

/// The plans of a query that is a statement of a script, or of those in it.
pub(crate) fn keep_asked(
    alloc: Global,
    query: &BoundQuery,
    around: &Around,
) -> Result<Items<KeptQuery>, NoMemory>
    ensures { IfOk result (λ kept. AreKept around.now kept) }
{
    let mut kept = Items::new(alloc);
    keep_outermost(alloc, query, 0, around, &mut kept)?;
    Ok(kept)
}

/// The plans of the outermost queries in what a function returns, over so many parameters, and of
/// those in them, where there are so many of other functions.
pub(crate) fn keep_returned(
    alloc: Global,
    returned: &BoundExpr,
    parameters: usize,
    others: usize,
    around: &Around,
) -> Result<Items<KeptQuery>, NoMemory>
    ensures { IfOk result (λ kept. AreKept around.now kept) }
{
    if others >= MOST_KEPT {
        return Ok(Items::new(alloc));
    }
    let mut kept = Items::new(alloc);
    keep_in_expr(alloc, returned, parameters, around, &mut kept)?;
    Ok(kept)
}

/// Those of an expression, where so many variables are in sight.
pub(crate) fn keep_in_expr(
    alloc: Global,
    expr: &BoundExpr,
    variables: usize,
    around: &Around,
    kept: &mut Items<KeptQuery>,
) -> Result<(), NoMemory>
    requires { AreKept around.now kept.old }
    ensures { OnOk result (AreKept around.now kept.new) }
{
    let sight = InSight::without_rows(alloc, variables);
    keep_within(alloc, expr, &sight, around, kept)
}

/// An outermost query itself, where it has a plan, and else those in it.
pub(crate) fn keep_outermost(
    alloc: Global,
    query: &BoundQuery,
    variables: usize,
    around: &Around,
    kept: &mut Items<KeptQuery>,
) -> Result<(), NoMemory>
    requires { AreKept around.now kept.old }
    ensures { OnOk result (AreKept around.now kept.new) }
{
    let sight = InSight::without_rows(alloc, variables);
    keep_query(alloc, query, &sight, around, kept)
}
