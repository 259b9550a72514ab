//! The ends of emissions: scalars over those of names, operands and arguments.

ghost use Rattle.std.specs.Prelude.{◌≡◌, ◌+◌, map, IfOk, OnOk};
ghost use Rattle.rel_algebra.specs.Emit.{against as against_by, checks, raising, read};
ghost use Rattle.rel_algebra.specs.Plan.{case_word, constant, extend, more, none, word};
ghost use Rattle.rel_algebra.specs.PlanView.{scalar_of, scalars_of, link_of};
ghost use Rattle.rel_algebra.specs.PlanView.{chained as chained_by};
ghost use Rattle.catalog_store.specs.Catalog.{Catalog as PlainCatalog};
ghost use Rattle.catalog_store.specs.View.{exprs_of};
ghost use Rattle.plan_expressions.specs.Drafts.{drafted};
ghost use Rattle.plan_expressions.specs.Emission.{guarded};
ghost use Rattle.plan_expressions.specs.Scopes.{env_of};

use bound_trees::BoundExpr;
use plan_expressions::{Draft, NameSources, against, argument_checks, guard, listed, one};
use rel_algebra::{ListWord, Scalar, ScalarLink};
use sql_values::{NoMemory, SqlType, Value};
use sqlite_items::{Boxed, Items};
use std::alloc::Global;

/// A literal as a scalar.
pub fn literal(value: &Value) -> Result<Scalar, NoMemory>
    ensures { IfOk result (λ s. scalar_of s ≡ constant value.now) }
{
    Ok(Scalar::Constant(value.copied()?))
}

/// What a column is read as, by its level and its place.
pub fn column_read(scope: &NameSources, level: usize, place: usize) -> Result<Scalar, NoMemory>
    ensures { IfOk result (λ s. scalar_of s ≡ read ((env_of scope.now).columns level place)) }
{
    Ok(scope.column(level, place)?.read())
}

/// What a parameter is read as, by its place.
pub fn parameter_read(scope: &NameSources, place: usize) -> Result<Scalar, NoMemory>
    ensures { IfOk result (λ s. scalar_of s ≡ read ((env_of scope.now).params place)) }
{
    Ok(scope.parameter(place)?.read())
}

/// Puts a scalar over a plan as a column more, and gives its place.
pub fn put_column(scalar: Scalar, draft: &mut Draft) -> Result<usize, NoMemory>
    ensures place { IfOk result (λ p. p ≡ (drafted draft.old).width) }
    ensures tree { OnOk result ((drafted draft.new).tree ≡ extend (more (scalar_of scalar) none)
        (drafted draft.old).tree) }
    ensures width { OnOk result ((drafted draft.new).width ≡ (drafted draft.old).width + 1) }
{
    let column = draft.columns();
    draft.extend(one(draft.allocator(), scalar)?)?;
    Ok(column)
}

/// CASE with an operand, which stands in a column, by its tests and results.
pub fn case_over(alloc: Global, column: usize, scalars: Items<Scalar>) -> Result<Scalar, NoMemory>
    ensures { IfOk result (λ s. scalar_of s ≡ word case_word
        (against_by column (scalars_of scalars))) }
{
    Ok(listed(ListWord::Case, against(alloc, column, scalars)?))
}

/// A chain, by its first operand and what stands after it.
pub fn chained(alloc: Global, first: Scalar, links: Items<ScalarLink>) -> Result<Scalar, NoMemory>
    ensures { IfOk result (λ s. scalar_of s ≡ chained_by (scalar_of first) (map link_of links)) }
{
    Ok(Scalar::Chain(Boxed::new(alloc, first)?, links))
}

/// The body of a call, where the arguments that may raise, or that the type of a parameter may
/// refuse, are values; the columns of all begin at `first`.
pub fn guarded_call(
    alloc: Global,
    arguments: &[BoundExpr],
    types: &[SqlType],
    first: usize,
    body: Scalar,
) -> Result<Scalar, NoMemory>
    ensures { IfOk result (λ s. (known : PlainCatalog) → scalar_of s ≡ guarded
        (checks (raising (exprs_of known arguments.now) types.now first)) (scalar_of body)) }
{
    let checks = argument_checks(alloc, arguments, types, first)?;
    guard(alloc, checks, body)
}
