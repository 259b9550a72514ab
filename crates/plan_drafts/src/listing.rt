//! The end of a plan: scalars become its only columns, and its rows stand in an order.

ghost use Rattle.std.specs.Prelude.{◌≡◌, ◌≤◌, ◌-◌, length, IfOk, OnOk};
ghost use Rattle.rel_algebra.specs.Emit.{own_places as own_places_by};
ghost use Rattle.rel_algebra.specs.Joins.{places};
ghost use Rattle.rel_algebra.specs.Plan.{extend, keep, sort};
ghost use Rattle.rel_algebra.specs.PlanView.{scalar_of, scalars_of, tree_of};
ghost use Rattle.plan_expressions.specs.Drafts.{drafted};
ghost use Rattle.plan_drafts.specs.Listing.{place_of, listed_only};

use plan_expressions::{Draft, is_inner};
use rel_algebra::{Plan, Scalar};
use row_types::SortKey;
use sql_values::NoMemory;
use sqlite_items::Items;
use std::alloc::Global;

/// Makes scalars the only columns of a plan. Columns that are there already are kept alone.
pub fn list(scalars: Items<Scalar>, draft: &mut Draft) -> Result<(), NoMemory>
    ensures { OnOk result ((drafted draft.new).tree ≡ listed_only (scalars_of scalars)
        (drafted draft.old).width (drafted draft.old).tree) }
{
    match own_places(draft.allocator(), scalars.as_slice())? {
        Some(places) => Ok(draft.keep(places)?),
        None => Ok(list_after(scalars, draft)?),
    }
}

/// The plan whose only columns are scalars over a plan under way.
pub fn listed_plan(scalars: Items<Scalar>, draft: Draft) -> Result<Plan, NoMemory>
    ensures { IfOk result (λ p. tree_of p ≡ listed_only (scalars_of scalars)
        (drafted draft).width (drafted draft).tree) }
{
    let mut draft = draft;
    list(scalars, &mut draft)?;
    Ok(draft.into_plan())
}

// Puts scalars after the columns of a plan, and keeps them alone.
fn list_after(scalars: Items<Scalar>, draft: &mut Draft) -> Result<(), NoMemory>
    ensures { OnOk result ((drafted draft.new).tree ≡
        keep (places (drafted draft.old).width (length scalars))
        (extend (scalars_of scalars) (drafted draft.old).tree)) }
{
    let first = draft.columns();
    draft.extend(scalars)?;
    let places = places_between(draft.allocator(), first, draft.columns())?;
    draft.keep(places)?;
    Ok(())
}

// The places of scalars, where all of them are columns of the row itself.
fn own_places(alloc: Global, scalars: &[Scalar]) -> Result<Option<Items<usize>>, NoMemory>
    ensures { IfOk result (λ places. places ≡ own_places_by (scalars_of scalars.now)) }
{
    let mut places = Items::new(alloc);
    for scalar in scalars {
        match own_place(scalar) {
            Some(place) => places.push(place)?,
            None => return Ok(None),
        }
    }
    Ok(Some(places))
}

// The place of a scalar that is a column of the row itself. A chain without operators is its
// operand.
fn own_place(scalar: &Scalar) -> Option<usize>
    ensures { result ≡ place_of (scalar_of scalar.now) }
{
    match scalar {
        Scalar::Column(level, place) => { if is_inner(*level) { Some(*place) } else { None } }
        Scalar::Chain(first, links) => {
            if links.is_empty() {
                own_place(first.get())
            } else {
                None
            }
        }
        Scalar::Constant(_) => None,
        Scalar::Argument(_) => None,
        Scalar::Unary(_, _) => None,
        Scalar::Compare(_, _, _) => None,
        Scalar::Listed(_, _) => None,
        Scalar::OnCondition(_, _) => None,
    }
}

/// The places from one on to another, without that.
pub fn places_between(alloc: Global, first: usize, end: usize) -> Result<Items<usize>, NoMemory>
    requires { first ≤ end }
    ensures { IfOk result (λ ps. ps ≡ places first (end - first)) }
{
    let mut places = Items::from_vec(Vec::with_capacity(alloc, end - first)?);
    for place in first..end {
        places.push(place)?;
    }
    Ok(places)
}

/// The rows of a plan, which have so many columns, in the order of these columns (14.3).
pub fn sorted(alloc: Global, plan: Plan, columns: usize, keys: &[SortKey]) -> Result<Plan, NoMemory>
    ensures { IfOk result (λ p. tree_of p ≡ sort keys.now (tree_of plan)) }
{
    let mut draft = Draft::of_plan(alloc, plan, columns);
    draft.sort(Items::from_slice(alloc, keys)?)?;
    Ok(draft.into_plan())
}
