//! Queries of aggregates alone inside expressions: their aggregates by an Apply (ISO/IEC 9075-2,
//! 7.13 and 10.9).

ghost use Rattle.std.specs.Prelude.{◌≡◌, ◌+◌, true, length, OnOk};
ghost use Rattle.sql_values.specs.declared.value.Value.TheVariants.{Bool as Truth};
ghost use Rattle.rel_algebra.specs.Joins.{numbered as numbered_by};
ghost use Rattle.rel_algebra.specs.Plan.{apply, anew, constant, aggregate};
ghost use Rattle.plan_expressions.specs.Drafts.{drafted};
ghost use Rattle.plan_drafts.specs.Folding.{folds};

use crate::groups::numbered;
use bound_trees::BoundGrouping;
use plan_expressions::Draft;
use rel_algebra::{ApplyKind, Scalar};
use sql_values::{FoldKind, NoMemory, Value};

/// Puts an Apply of aggregates over a plan: of each column of the plan inside.
pub fn fold_over(input: Draft, aggregates: &[FoldKind], draft: &mut Draft) -> Result<(), NoMemory>
    ensures tree { OnOk result ((drafted draft.new).tree ≡ apply (constant (Truth true))
        (aggregate (numbered_by 0 aggregates.now)) anew (drafted input).tree
        (drafted draft.old).tree) }
    ensures width { OnOk result ((drafted draft.new).width ≡ (drafted draft.old).width +
        length aggregates.now) }
{
    let columns = numbered(draft.allocator(), 0, aggregates)?;
    let kind = ApplyKind::Aggregate(columns);
    draft.apply(Scalar::Constant(Value::Bool(true)), kind, input.into_plan())?;
    Ok(())
}

/// Whether a query that is grouped so is folded.
pub fn is_folded(grouping: &BoundGrouping) -> bool
    ensures { result ≡ folds grouping.now }
{
    let keys = grouping.keys;
    if keys > 0 {
        return false;
    }
    if grouping.aggregates.is_empty() {
        return false;
    }
    grouping.having.is_empty()
}
