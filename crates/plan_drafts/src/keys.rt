//! Conjuncts that compare a column of a query's own row with a name from outside. They raise
//! nothing, so that they may wait.

ghost use Rattle.std.specs.Prelude.{◌≡◌, ℕ, List, map, IfOk, OnOk};
ghost use Rattle.rel_algebra.specs.Emit.{Emitted, Waiting as Waits, all_waiting, none_waits};
ghost use Rattle.rel_algebra.specs.Emit.{filters, filters_width, turned, key_step};
ghost use Rattle.rel_algebra.specs.Emit.{key_of as key_by};
ghost use Rattle.rel_algebra.specs.Tree.{Column};
ghost use Rattle.rel_algebra.specs.Plan.{filter};
ghost use Rattle.catalog_store.specs.Catalog.{Catalog as PlainCatalog};
ghost use Rattle.catalog_store.specs.View.{tree_of, operated};
ghost use Rattle.plan_expressions.specs.Drafts.{drafted};
ghost use Rattle.plan_expressions.specs.Scopes.{env_of, place_of};
ghost use Rattle.plan_drafts.specs.Conjuncts.{inner_place as inner_by, key_with as with_by};
ghost use Rattle.plan_drafts.specs.Conjuncts.{key_between as between_by};
ghost use Rattle.plan_drafts.specs.Conjuncts.{is_equality as equality_by, held, plain_of};
ghost use Rattle.plan_drafts.specs.Conjuncts.{waiting_of};

use bound_trees::{BoundExpr, BoundOperation};
use plan_expressions::{Draft, NameSources, Place, compare, is_inner, turned_scalars};
use rel_algebra::Scalar;
use sql_values::{Comparison, NoMemory};
use sqlite_items::Items;
use std::alloc::Global;
use std::mem;

/// A column of the own row, the name from outside with which it is compared, and whether this is a
/// column's.
#[derive(Clone, Copy, Debug)]
pub struct Key {
    pub own: Place,
    pub other: Place,
    pub of_column: bool,
}

/// The tests that wait: those with parameters, and those with columns of rows outside.
#[derive(Drop)]
pub struct Waiting {
    pub parameters: Items<Scalar>,
    pub columns: Items<Scalar>,
}

impl Waiting {
    /// None waits.
    pub fn none(alloc: Global) -> Waiting
        ensures { waiting_of result ≡ none_waits }
    {
        Waiting {
            parameters: Items::new(alloc),
            columns: Items::new(alloc),
        }
    }

    /// Puts a Filter over a plan for each test that waits, those with parameters first.
    pub fn filter(self, draft: &mut Draft) -> Result<(), NoMemory>
        ensures tree { OnOk result ((drafted draft.new).tree ≡ filters
            (all_waiting (waiting_of self)) (drafted draft.old).tree) }
        ensures width { OnOk result ((drafted draft.new).width ≡ (drafted draft.old).width) }
    {
        let Waiting {
            parameters,
            columns,
        } = self;
        filter_each(parameters, draft)?;
        filter_each(columns, draft)?;
        Ok(())
    }

    /// The same, and none waits any more.
    pub fn flush(&mut self, draft: &mut Draft) -> Result<(), NoMemory>
        ensures none { waiting_of self.new ≡ none_waits }
        ensures tree { OnOk result ((drafted draft.new).tree ≡ filters
            (all_waiting (waiting_of self.old)) (drafted draft.old).tree) }
        ensures width { OnOk result ((drafted draft.new).width ≡ (drafted draft.old).width) }
    {
        let none = Waiting::none(draft.allocator());
        let waiting = mem::replace(self, none);
        waiting.filter(draft)
    }

    /// Lets the test of a key wait, or puts its Filter over a plan where it needs no row outside.
    pub fn add(&mut self, key: Key, draft: &mut Draft) -> Result<(), NoMemory>
        ensures tree { OnOk result ((rest : Waits → ℕ → List Emitted) →
            filters (rest (waiting_of self.new) (drafted draft.new).width) (drafted draft.new).tree
            ≡ filters (key_step key.of_column (place_of key.other)
            (turned (place_of key.own) (place_of key.other)) rest (waiting_of self.old)
            (drafted draft.old).width) (drafted draft.old).tree) }
        ensures width { OnOk result ((rest : Waits → ℕ → List Emitted) →
            filters_width (rest (waiting_of self.new) (drafted draft.new).width)
            (drafted draft.new).width ≡ filters_width (key_step key.of_column
            (place_of key.other) (turned (place_of key.own) (place_of key.other)) rest
            (waiting_of self.old) (drafted draft.old).width) (drafted draft.old).width) }
    {
        let alloc = draft.allocator();
        let test = compare(alloc, Comparison::Equals, key.own.read(), key.other.read())?;
        match key.other {
            Place::Nowhere => Ok(draft.filter(test)?),
            Place::Argument(_) => {
                if key.of_column {
                    Ok(draft.filter(test)?)
                } else {
                    Ok(self.parameters.push(test)?)
                }
            }
            Place::Column(_, _) => {
                if key.of_column {
                    Ok(self.columns.push(test)?)
                } else {
                    Ok(self.parameters.push(test)?)
                }
            }
        }
    }
}

// Puts a Filter over a plan for each test, from the first to the last.
fn filter_each(tests: Items<Scalar>, draft: &mut Draft) -> Result<(), NoMemory>
    ensures tree { OnOk result ((drafted draft.new).tree ≡ filters (map plain_of tests)
        (drafted draft.old).tree) }
    ensures width { OnOk result ((drafted draft.new).width ≡ (drafted draft.old).width) }
{
    let mut left = turned_scalars(draft.allocator(), tests)?;
    while let Some(test) = left.pop() {
        draft.filter(test)?;
    }
    Ok(())
}

/// The key that a conjunct is, if it is one.
pub fn key_of(conjunct: &BoundExpr, scope: &NameSources) -> Result<Option<Key>, NoMemory>
    ensures { IfOk result (λ o. (known : PlainCatalog) →
        held o ≡ key_by (tree_of known conjunct.now) (env_of scope.now)) }
{
    match conjunct {
        BoundExpr::Operation(operation, operands) => {
            key_in(*operation, operands.as_slice(), scope)
        }
        _ => Ok(None),
    }
}

// The key that a word over these operands is.
fn key_in(
    operation: BoundOperation,
    operands: &[BoundExpr],
    scope: &NameSources,
) -> Result<Option<Key>, NoMemory>
    ensures { IfOk result (λ o. (known : PlainCatalog) →
        held o ≡ key_by (operated operation (map (tree_of known) operands.now))
        (env_of scope.now)) }
{
    match operation {
        BoundOperation::Comparing(comparison) => {
            if is_equality(comparison) && operands.len() == 2 {
                key_between(&operands[0], &operands[1], scope)
            } else {
                Ok(None)
            }
        }
        _ => Ok(None),
    }
}

// Whether a comparison is that of equality.
fn is_equality(comparison: Comparison) -> bool
    ensures { result ≡ equality_by comparison }
{
    match comparison {
        Comparison::Equals => true,
        _ => false,
    }
}

// The key that the equality of two sides is.
fn key_between(
    left: &BoundExpr,
    right: &BoundExpr,
    scope: &NameSources,
) -> Result<Option<Key>, NoMemory>
    ensures { IfOk result (λ o. (known : PlainCatalog) →
        held o ≡ between_by (inner_by (tree_of known left.now)) (tree_of known left.now)
        (tree_of known right.now) (env_of scope.now)) }
{
    match inner_place(left) {
        Some(own) => key_with(own, right, scope),
        None => match inner_place(right) {
            Some(own) => key_with(own, left, scope),
            None => Ok(None),
        },
    }
}

// The key that an own column is with another side, where this is a name from outside.
fn key_with(own: usize, other: &BoundExpr, scope: &NameSources) -> Result<Option<Key>, NoMemory>
    ensures { IfOk result (λ o. (known : PlainCatalog) →
        held o ≡ with_by own (tree_of known other.now) (env_of scope.now)) }
{
    match other {
        BoundExpr::Column(level, place) => column_key(own, *level, *place, scope),
        BoundExpr::Variable(place) => {
            let own = scope.column(0, own)?;
            let other = scope.parameter(*place)?;
            Ok(Some(Key {
                own,
                other,
                of_column: false,
            }))
        }
        _ => Ok(None),
    }
}

// The key that an own column is with a column, where this is one from outside.
fn column_key(
    own: usize,
    level: usize,
    place: usize,
    scope: &NameSources,
) -> Result<Option<Key>, NoMemory>
    ensures { IfOk result (λ o. held o ≡ with_by own (Column level place) (env_of scope.now)) }
{
    if is_inner(level) {
        return Ok(None);
    }
    let own = scope.column(0, own)?;
    let other = scope.column(level, place)?;
    Ok(Some(Key {
        own,
        other,
        of_column: true,
    }))
}

// The place of a column of the query's own row.
fn inner_place(expr: &BoundExpr) -> Option<usize>
    ensures { (known : PlainCatalog) → result ≡ inner_by (tree_of known expr.now) }
{
    match expr {
        BoundExpr::Column(level, place) => { if is_inner(*level) { Some(*place) } else { None } }
        _ => None,
    }
}
