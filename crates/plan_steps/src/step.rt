//! Steps: nodes that act at one code alone, and leave the row as wide as it was.

ghost use Rattle.std.specs.Prelude.{◌≡◌, ◌++◌, [], ◌∷◌, reverse, IfOk, OnOk};
ghost use Rattle.rel_algebra.specs.BodyDispatch.{joins};
ghost use Rattle.rel_algebra.specs.BodySteps as steps;
ghost use Rattle.rel_algebra.specs.BodySteps.{acts, asked_at, col, fat, grow, jump as jump_by, only};
ghost use Rattle.rel_algebra.specs.Joins.{places};
ghost use Rattle.rel_algebra.specs.Plan.{extend, keep, no_node, Nodes, on_each, unit_row};
ghost use Rattle.rel_algebra.specs.PlanView.{node_of, run_of, scalar_of, scalars_of};
ghost use Rattle.plan_expressions.specs.Drafts.{drafted};
ghost use Rattle.plan_steps.specs.Steps.{Puts, joined_cell, stores_of};

use crate::words::{also, case_of, code_is, sum, tag};
use plan_expressions::{Draft, one};
use rel_algebra::{Leaf, ListWord, Node, Scalar};
use sql_values::NoMemory;
use sqlite_items::Items;
use std::alloc::Global;

/// A column and its new cell.
#[derive(Drop)]
pub struct Store {
    pub column: usize,
    pub new: Scalar,
}

/// Nodes in the making, over rows of so many columns.
pub fn nodes_over(alloc: Global, columns: usize) -> Draft
    ensures tree { (drafted result).tree ≡ unit_row }
    ensures width { (drafted result).width ≡ columns }
{
    Draft::over(alloc, Leaf::Unit, columns)
}

/// One store.
pub fn one_store(alloc: Global, column: usize, new: Scalar) -> Result<Items<Store>, NoMemory>
    ensures { IfOk result (λ ss. stores_of ss ≡ steps.store column (scalar_of new) ∷ []) }
{
    let mut stores = Items::from_vec(Vec::with_capacity(alloc, 1)?);
    stores.push(Store { column, new })?;
    Ok(stores)
}

// ---- what an action at a code stores

// Stores from the last to the first.
fn turned_stores(alloc: Global, stores: Items<Store>) -> Result<Items<Store>, NoMemory>
    ensures { IfOk result (λ turned. turned ≡ reverse stores) }
{
    let mut left = stores;
    let mut turned = Items::from_vec(Vec::with_capacity(alloc, left.len())?);
    while let Some(store) = left.pop() {
        turned.push(store)?;
    }
    Ok(turned)
}

// A new cell at a code, and else what stood in its column.
fn guarded_one(alloc: Global, code: usize, store: Store) -> Result<Scalar, NoMemory>
    ensures { IfOk result (λ s. scalar_of s ≡ steps.case_of (steps.code_is code)
        (scalar_of store.new) (col store.column)) }
{
    let Store { column, new } = store;
    let test = code_is(alloc, code)?;
    case_of(alloc, test, new, Scalar::Column(0, column))
}

// New cells at a code, and else what stood in their columns.
fn guarded(alloc: Global, code: usize, stores: Items<Store>) -> Result<Items<Scalar>, NoMemory>
    ensures { IfOk result (λ ss. scalars_of ss ≡ steps.guarded code (stores_of stores)) }
{
    let mut scalars = Items::from_vec(Vec::with_capacity(alloc, stores.len())?);
    let mut left = turned_stores(alloc, stores)?;
    while let Some(store) = left.pop() {
        scalars.push(guarded_one(alloc, code, store)?)?;
    }
    Ok(scalars)
}

// The first so many columns.
fn first_columns(alloc: Global, columns: usize) -> Result<Items<usize>, NoMemory>
    ensures { IfOk result (λ ps. ps ≡ places 0 columns) }
{
    columns_from(alloc, 0, columns)
}

/// So many columns from one on.
pub fn columns_from(alloc: Global, first: usize, count: usize) -> Result<Items<usize>, NoMemory>
    ensures { IfOk result (λ ps. ps ≡ places first count) }
{
    let mut columns = Items::new(alloc);
    for index in 0..count {
        columns.push(sum(first, index)?)?;
    }
    Ok(columns)
}

// The first so many columns, but for those that are stored, whose new cells stand from one on.
fn placed(
    alloc: Global,
    stores: &[Store],
    first: usize,
    columns: usize,
) -> Result<Items<usize>, NoMemory>
    ensures { IfOk result (λ ps. ps ≡ steps.placed (stores_of stores.now) first
        (places 0 columns)) }
{
    let mut kept = first_columns(alloc, columns)?;
    let mut place = first;
    for store in stores {
        if store.column < kept.len() {
            kept.set(store.column, place);
        }
        place = sum(1, place)?;
    }
    Ok(kept)
}

// The columns that an action keeps: the first so many, and others after them.
fn kept_places(
    alloc: Global,
    stores: &[Store],
    first: usize,
    columns: usize,
    extra: Items<usize>,
) -> Result<Items<usize>, NoMemory>
    ensures { IfOk result (λ ps. ps ≡ steps.placed (stores_of stores.now) first
        (places 0 columns) ++ extra) }
{
    let mut kept = placed(alloc, stores, first, columns)?;
    kept.append(extra)?;
    Ok(kept)
}

// ---- nodes at a code

// Nodes from the last to the first.
fn turned_nodes(alloc: Global, nodes: Items<Node>) -> Result<Items<Node>, NoMemory>
    ensures { IfOk result (λ turned. turned ≡ reverse nodes) }
{
    let mut left = nodes;
    let mut turned = Items::from_vec(Vec::with_capacity(alloc, left.len())?);
    while let Some(node) = left.pop() {
        turned.push(node)?;
    }
    Ok(turned)
}

// Puts a node over a plan whose inner plan is asked at a code alone. Only an Extend and an Apply are
// put there.
fn put_node(code: usize, node: Node, draft: &mut Draft) -> Result<(), NoMemory>
    ensures { OnOk result ((drafted draft.new).tree ≡ on_each (asked_at code
        ((node_of node).below no_node)) (drafted draft.old).tree) }
{
    match node {
        Node::Extend(scalars) => draft.extend(scalars),
        Node::Apply(when, kind, inner) => {
            let when = also(draft.allocator(), code, when)?;
            draft.apply(when, kind, inner.into_inner())
        }
        Node::Filter(_) => Ok(()),
        Node::Keep(_) => Ok(()),
        Node::Cross(_) => Ok(()),
        Node::LeftOuter(_, _, _, _) => Ok(()),
        Node::Settle => Ok(()),
        Node::Group(_, _) => Ok(()),
        Node::Sort(_) => Ok(()),
    }
}

// Puts nodes over a plan whose inner plans are asked at a code alone.
fn put_nodes(code: usize, nodes: Items<Node>, draft: &mut Draft) -> Result<(), NoMemory>
    ensures { OnOk result ((drafted draft.new).tree ≡ on_each (asked_at code (run_of nodes))
        (drafted draft.old).tree) }
{
    let mut left = turned_nodes(draft.allocator(), nodes)?;
    while let Some(node) = left.pop() {
        put_node(code, node, draft)?;
    }
    Ok(())
}

// ---- steps

// Stores at a code, and a Keep of these columns.
fn store_at(
    code: usize,
    stores: Items<Store>,
    kept: Items<usize>,
    draft: &mut Draft,
) -> Result<(), NoMemory>
    ensures { OnOk result ((drafted draft.new).tree ≡ keep kept (extend
        (steps.guarded code (stores_of stores)) (drafted draft.old).tree)) }
{
    let scalars = guarded(draft.allocator(), code, stores)?;
    draft.extend(scalars)?;
    draft.keep(kept)
}

// Nodes at a code, then stores at that code, and a Keep of these columns.
fn put_stored(
    code: usize,
    nodes: Draft,
    stores: Items<Store>,
    kept: Items<usize>,
    draft: &mut Draft,
) -> Result<(), NoMemory>
    ensures { OnOk result ((e : Nodes) → (drafted nodes).tree ≡ on_each e unit_row →
        (drafted draft.new).tree ≡ keep kept (extend (steps.guarded code (stores_of stores))
        (on_each (asked_at code e) (drafted draft.old).tree))) }
{
    put_nodes(code, nodes.into_nodes(), draft)?;
    store_at(code, stores, kept, draft)
}

/// After nodes that make the row `first` columns wide, stores at this code; then the first so many
/// columns stay, and others after them.
pub fn act(
    code: usize,
    nodes: Draft,
    first: usize,
    stores: Items<Store>,
    columns: usize,
    extra: Items<usize>,
    draft: &mut Draft,
) -> Result<(), NoMemory>
    ensures { OnOk result ((e : Nodes) → (drafted nodes).tree ≡ on_each e unit_row →
        Puts draft.old draft.new (acts code e first (stores_of stores) columns extra ∷ [])) }
{
    let kept = kept_places(draft.allocator(), stores.as_slice(), first, columns, extra)?;
    put_stored(code, nodes, stores, kept, draft)
}

/// At a code a store of another code.
pub fn go(code: usize, target: Scalar, columns: usize, draft: &mut Draft) -> Result<(), NoMemory>
    ensures { OnOk result (Puts draft.old draft.new (acts code no_node columns
        (steps.store 0 (scalar_of target) ∷ []) columns [] ∷ [])) }
{
    let alloc = draft.allocator();
    let stores = one_store(alloc, 0, target)?;
    let nodes = nodes_over(alloc, columns);
    act(
        code,
        nodes,
        columns,
        stores,
        columns,
        Items::new(alloc),
        draft,
    )
}

/// On rows of so many columns: at a code on at another.
pub fn jump(code: usize, to: usize, columns: usize, draft: &mut Draft) -> Result<(), NoMemory>
    ensures { OnOk result (Puts draft.old draft.new (jump_by code to columns ∷ [])) }
{
    go(code, tag(to)?, columns, draft)
}

// `here`, where the code is one of these, and else the code.
fn joined_code(alloc: Global, first: usize, count: usize, here: usize) -> Result<Scalar, NoMemory>
    ensures { IfOk result (λ s. scalar_of s ≡ joined_cell first count here) }
{
    let mut codes = one(alloc, Scalar::Column(0, 0))?;
    for index in 0..count {
        codes.push(tag(sum(first, index)?)?)?;
    }
    let test = Scalar::Listed(ListWord::AnyOf, codes);
    case_of(alloc, test, tag(here)?, Scalar::Column(0, 0))
}

/// On rows of so many columns: from any of `count` codes from `first` on at `here`, with the first
/// `kept` columns.
pub fn join(
    first: usize,
    count: usize,
    here: usize,
    columns: usize,
    kept: usize,
    draft: &mut Draft,
) -> Result<(), NoMemory>
    ensures { OnOk result (Puts draft.old draft.new (joins first count here columns kept ∷ [])) }
{
    let alloc = draft.allocator();
    let stores = one_store(alloc, 0, tag(here)?)?;
    let places = placed(alloc, stores.as_slice(), columns, kept)?;
    let code = joined_code(alloc, first, count, here)?;
    draft.extend(one(alloc, code)?)?;
    draft.keep(places)
}

/// One column more: what stands in another.
pub fn grow_by(column: usize, draft: &mut Draft) -> Result<(), NoMemory>
    ensures { OnOk result (Puts draft.old draft.new (grow (only (col column)) ∷ [])) }
{
    let scalars = one(draft.allocator(), Scalar::Column(0, column))?;
    draft.extend(scalars)
}

/// The first so many columns alone.
pub fn cut(columns: usize, draft: &mut Draft) -> Result<(), NoMemory>
    ensures { OnOk result (Puts draft.old draft.new (fat no_node (places 0 columns) ∷ [])) }
{
    draft.keep_front(columns)
}
