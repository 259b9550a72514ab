//! Groups and their aggregates (ISO/IEC 9075-2, 7.13 and 10.9).

ghost use Rattle.std.specs.Prelude.{◌≡◌, ◌≤◌, ◌+◌, ◌-◌, length, IfOk, OnOk};
ghost use Rattle.rel_algebra.specs.Emit.{all_values as all_values_by};
ghost use Rattle.rel_algebra.specs.Joins.{places, numbered as numbered_by};
ghost use Rattle.rel_algebra.specs.PlanView.{scalar_of, aggregates_of};
ghost use Rattle.plan_expressions.specs.Drafts.{drafted};
ghost use Rattle.plan_drafts.specs.Grouping.{grouped_rows};

use crate::listing::places_between;
use plan_expressions::{Draft, check, listed};
use rel_algebra::{ListWord, Scalar};
use row_types::AggregateColumn;
use sql_values::{FoldKind, NoMemory};
use sqlite_items::Items;
use std::alloc::Global;

/// Makes groups of the rows of a plan: by so many columns, and with an aggregate of each column
/// after these. Where an aggregate raises, that is what the row of the group is read as.
pub fn group(keys: usize, aggregates: &[FoldKind], draft: &mut Draft) -> Result<(), NoMemory>
    ensures tree { OnOk result ((drafted draft.new).tree ≡ grouped_rows keys aggregates.now
        (drafted draft.old).tree) }
    ensures width { OnOk result ((drafted draft.new).width ≡ keys + length aggregates.now) }
{
    let alloc = draft.allocator();
    let places = places_between(alloc, 0, keys)?;
    let columns = numbered(alloc, keys, aggregates)?;
    draft.group(places, columns)?;
    let test = all_values(alloc, keys, draft.columns())?;
    draft.filter(test)?;
    Ok(())
}

/// Aggregates of the columns from one on.
pub fn numbered(
    alloc: Global,
    first: usize,
    aggregates: &[FoldKind],
) -> Result<Items<AggregateColumn>, NoMemory>
    ensures columns { IfOk result (λ columns. aggregates_of columns ≡
        numbered_by first aggregates.now) }
    ensures count { IfOk result (λ columns. length columns ≡ length aggregates.now) }
{
    let mut columns = Items::from_vec(Vec::with_capacity(alloc, aggregates.len())?);
    for (index, kind) in aggregates.iter().enumerate() {
        let Some(place) = first.checked_add(index) else {
            return Err(NoMemory);
        };
        columns.push(AggregateColumn { kind: *kind, place })?;
    }
    Ok(columns)
}

// TRUE where the columns from one on to another, without that, are values; else the first one's
// condition.
fn all_values(alloc: Global, first: usize, end: usize) -> Result<Scalar, NoMemory>
    requires { first ≤ end }
    ensures { IfOk result (λ s. scalar_of s ≡ all_values_by (places first (end - first))) }
{
    let mut checks = Items::from_vec(Vec::with_capacity(alloc, end - first)?);
    for place in first..end {
        checks.push(check(alloc, place)?)?;
    }
    Ok(listed(ListWord::And, checks))
}
