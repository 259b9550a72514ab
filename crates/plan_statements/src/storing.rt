//! Statements that store several values at once, where all of them are values: GET STACKED
//! DIAGNOSTICS and SELECT INTO.

ghost use Rattle.std.specs.Prelude.{◌≡◌, ◌+◌, [], ◌∷◌, length, map, suc, take, IfOk, OnOk};
ghost use Rattle.rel_algebra.specs.BodyChain as chain;
ghost use Rattle.rel_algebra.specs.BodyMeaning.{condition_targets, statement_targets};
ghost use Rattle.rel_algebra.specs.BodySteps as steps;
ghost use Rattle.rel_algebra.specs.Emissions.{all_values as all_values_by, assigning, checks};
ghost use Rattle.rel_algebra.specs.Emissions.{if_values};
ghost use Rattle.rel_algebra.specs.Emit.{plan as plan_by};
ghost use Rattle.rel_algebra.specs.Joins.{places};
ghost use Rattle.rel_algebra.specs.OnConditions.{state_item};
ghost use Rattle.rel_algebra.specs.Plan.{more, no_node, Nodes, on_each, unit_row};
ghost use Rattle.rel_algebra.specs.PlanView.{scalar_of, scalars_of, tree_of};
ghost use Rattle.rel_algebra.specs.WordView.{item_word as item_by};
ghost use Rattle.block_plans.specs.View.{query_seen};
ghost use Rattle.routine_views.specs.Views.{condition_read, statement_item_of, statement_read};
ghost use Rattle.routine_views.specs.Views.{condition_item_of, target as target_of};
ghost use Rattle.plan_expressions.specs.Drafts.{drafted};
ghost use Rattle.plan_expressions.specs.Scopes.{env_of as names_of};
ghost use Rattle.plan_steps.specs.Places.{codes_of, env_in, leaf_in, query_in, widths_in};
ghost use Rattle.plan_steps.specs.Steps.{Puts, judged};
ghost use Rattle.plan_statements.specs.Statements.{folded_step, get_steps};
ghost use Rattle.plan_statements.specs.Statements.{numbered_step, word_for};
ghost use Rattle.plan_steps.specs.Steps.{stores_of};

use crate::simple::{emit_value, put_engine};
use bound_trees::{
    BoundConditionItem, BoundConditionRead, BoundExpr, BoundInformation, BoundQuery,
    BoundStatementItem, BoundStatementRead, BoundTarget,
};
use plan_drafts::put_column;
use plan_expressions::{Draft, NameSources, assigned, check, guard, one, two};
use plan_queries::{emit_folded, plan_within};
use plan_steps::{
    At, Place, Spot, Store, after, column_at, judge, names, nodes_over, on_column, spot_of,
    store_if, sum, tag,
};
use rel_algebra::{ApplyKind, ConditionWord, ItemWord, ListWord, Plan, Scalar};
use sql_conditions::EngineCondition;
use sql_values::{NoMemory, Value};
use sqlite_items::Items;
use std::alloc::Global;

// TRUE, where so many columns from one on are values.
fn all_values(alloc: Global, first: usize, count: usize) -> Result<Scalar, NoMemory>
    ensures { IfOk result (λ s. scalar_of s ≡ all_values_by (places first count)) }
{
    let mut checks = Items::from_vec(Vec::with_capacity(alloc, count)?);
    for index in 0..count {
        checks.push(check(alloc, sum(first, index)?)?)?;
    }
    Ok(Scalar::Listed(ListWord::And, checks))
}

// The columns from one on into targets, where a column is a value.
fn target_stores(
    alloc: Global,
    targets: &[BoundTarget],
    tested: usize,
    first: usize,
    spot: &Spot,
    place: &Place,
) -> Result<Items<Store>, NoMemory>
    ensures { IfOk result (λ ss. stores_of ss ≡ chain.target_stores (map target_of targets.now)
        (env_in place.now) spot.now.columns tested first) }
{
    let mut stores = Items::from_vec(Vec::with_capacity(alloc, targets.len())?);
    let mut cell = first;
    for target in targets {
        let column = column_at(place, target.slot, spot.columns);
        store_if(alloc, tested, cell, column, &mut stores)?;
        cell = after(cell)?;
    }
    Ok(stores)
}

// Whether `count` columns from `checked` on are values, in a column of their own; then where they
// are, the columns from `first` on into targets.
fn put_targets(
    nodes: Draft,
    checked: usize,
    count: usize,
    tested: usize,
    targets: &[BoundTarget],
    first: usize,
    spot: &Spot,
    place: &Place,
    draft: &mut Draft,
) -> Result<(), NoMemory>
    ensures { OnOk result ((e : Nodes) → (drafted nodes).tree ≡ on_each e unit_row →
        Puts draft.old draft.new (judged (chain.with_column e
        (all_values_by (places checked count))) (steps.tag spot.now.here) tested
        (chain.target_stores (map target_of targets.now) (env_in place.now) spot.now.columns
        tested first) [] spot.now place.now ∷ [])) }
{
    let alloc = draft.allocator();
    let mut nodes = nodes;
    put_column(all_values(alloc, checked, count)?, &mut nodes)?;
    let stores = target_stores(alloc, targets, tested, first, spot, place)?;
    let goes = tag(spot.here)?;
    let none = Items::new(alloc);
    judge(nodes, goes, tested, stores, none, spot, place, draft)
}

// ---- GET STACKED DIAGNOSTICS

// NUMBER or ROW_COUNT, of the area in a column; ROW_COUNT of a stacked area is 0.
fn statement_cell(
    alloc: Global,
    item: BoundStatementItem,
    column: usize,
) -> Result<Scalar, NoMemory>
    ensures { IfOk result (λ s. scalar_of s ≡ chain.statement_cell (statement_item_of item)
        column) }
{
    match item {
        BoundStatementItem::Number => on_column(alloc, ConditionWord::Number, column),
        BoundStatementItem::RowCount => tag(0),
    }
}

// The same for each target, assigned.
fn statement_cells(
    alloc: Global,
    reads: &[BoundStatementRead],
    column: usize,
) -> Result<Items<Scalar>, NoMemory>
    ensures { IfOk result (λ ss. scalars_of ss ≡ chain.statement_cells
        (map statement_read reads.now) column) }
{
    let mut cells = Items::from_vec(Vec::with_capacity(alloc, reads.len())?);
    for read in reads {
        let cell = statement_cell(alloc, read.item, column)?;
        cells.push(assigned(alloc, read.target.data_type, cell)?)?;
    }
    Ok(cells)
}

// Where items of an area are stored.
fn targets_of_area(
    alloc: Global,
    reads: &[BoundStatementRead],
) -> Result<Items<BoundTarget>, NoMemory>
    ensures { IfOk result (λ ts. map target_of ts ≡ statement_targets
        (map statement_read reads.now)) }
{
    let mut targets = Items::from_vec(Vec::with_capacity(alloc, reads.len())?);
    for read in reads {
        targets.push(read.target)?;
    }
    Ok(targets)
}

/// The step of GET STACKED DIAGNOSTICS of items of the area (ISO/IEC 9075-2, 23.1).
pub fn put_statement_items(
    reads: &[BoundStatementRead],
    at: At,
    place: &Place,
    draft: &mut Draft,
) -> Result<(), NoMemory>
    ensures { OnOk result (Puts draft.old draft.new (take 1 (chain.emit_statement_items
        place.now.stacked (map statement_read reads.now) (codes_of place.now) (env_in place.now)
        at.here at.next at.columns))) }
{
    let spot = spot_of(at);
    let Some(column) = place.stacked else {
        return put_engine(EngineCondition::StackedWithoutHandler, &spot, place, draft);
    };
    let alloc = draft.allocator();
    let count = reads.len();
    let tested = sum(spot.columns, count)?;
    let targets = targets_of_area(alloc, reads)?;
    let cells = statement_cells(alloc, reads, column)?;
    put_cells(
        cells,
        count,
        tested,
        targets.as_slice(),
        &spot,
        place,
        draft,
    )
}

// So many cells after the row, whether all of them are values, and where they are, these into
// targets.
fn put_cells(
    cells: Items<Scalar>,
    count: usize,
    tested: usize,
    targets: &[BoundTarget],
    spot: &Spot,
    place: &Place,
    draft: &mut Draft,
) -> Result<(), NoMemory>
    ensures { OnOk result (Puts draft.old draft.new (judged (chain.with_columns no_node
        (scalars_of cells) (places spot.now.columns count)) (steps.tag spot.now.here) tested
        (chain.target_stores (map target_of targets.now) (env_in place.now) spot.now.columns
        tested spot.now.columns) [] spot.now place.now ∷ [])) }
{
    let first = spot.columns;
    let mut nodes = nodes_over(draft.allocator(), first);
    nodes.extend(cells)?;
    put_targets(
        nodes, first, count, tested, targets, first, spot, place, draft,
    )
}

// An item of the condition whose number stands in a column.
fn item_cell(
    alloc: Global,
    item: ItemWord,
    number: usize,
    column: usize,
) -> Result<Scalar, NoMemory>
    ensures { IfOk result (λ s. scalar_of s ≡ chain.item_cell (item_by item) number column) }
{
    let operands = two(alloc, Scalar::Column(0, number), Scalar::Column(0, column))?;
    Ok(Scalar::OnCondition(ConditionWord::Item(item), operands))
}

// The word that reads an item.
fn word_of(item: BoundConditionItem) -> ItemWord
    ensures { item_by result ≡ word_for (condition_item_of item) }
{
    match item {
        BoundConditionItem::ReturnedSqlstate => ItemWord::State,
        BoundConditionItem::MessageText => ItemWord::Text,
    }
}

// RETURNED_SQLSTATE first, so that a number that is not there raises; and the items for each target,
// assigned.
fn condition_cells(
    alloc: Global,
    reads: &[BoundConditionRead],
    number: usize,
    column: usize,
) -> Result<Items<Scalar>, NoMemory>
    ensures { IfOk result (λ ss. scalars_of ss ≡ more (chain.item_cell state_item number column)
        (chain.condition_cells (map condition_read reads.now) number column)) }
{
    let mut cells = one(alloc, item_cell(alloc, ItemWord::State, number, column)?)?;
    for read in reads {
        let cell = item_cell(alloc, word_of(read.item), number, column)?;
        cells.push(assigned(alloc, read.target.data_type, cell)?)?;
    }
    Ok(cells)
}

// Where items of a condition are stored.
fn targets_of_condition(
    alloc: Global,
    reads: &[BoundConditionRead],
) -> Result<Items<BoundTarget>, NoMemory>
    ensures { IfOk result (λ ts. map target_of ts ≡ condition_targets
        (map condition_read reads.now)) }
{
    let mut targets = Items::from_vec(Vec::with_capacity(alloc, reads.len())?);
    for read in reads {
        targets.push(read.target)?;
    }
    Ok(targets)
}

/// The step of GET STACKED DIAGNOSTICS of items of the condition of a number.
pub fn put_condition_items(
    number: &BoundExpr,
    reads: &[BoundConditionRead],
    at: At,
    place: &Place,
    draft: &mut Draft,
) -> Result<(), NoMemory>
    ensures { OnOk result (Puts draft.old draft.new (take 1 (chain.emit_condition_items
        place.now.stacked (leaf_in place.now.functions.now number.now)
        (map condition_read reads.now) (widths_in place.now) (codes_of place.now)
        (env_in place.now) at.here at.next at.columns))) }
{
    let spot = spot_of(at);
    let Some(column) = place.stacked else {
        return put_engine(EngineCondition::StackedWithoutHandler, &spot, place, draft);
    };
    let alloc = draft.allocator();
    let mut nodes = nodes_over(alloc, spot.columns);
    let scalar = emit_value(number, place, &mut nodes)?;
    let numbered = put_column(scalar, &mut nodes)?;
    put_numbered(nodes, numbered, reads, column, &spot, place, draft)
}

// The same, where the number stands in a column, the last of nodes.
fn put_numbered(
    nodes: Draft,
    numbered: usize,
    reads: &[BoundConditionRead],
    column: usize,
    spot: &Spot,
    place: &Place,
    draft: &mut Draft,
) -> Result<(), NoMemory>
    ensures { OnOk result ((e : Nodes) → (drafted nodes).tree ≡ on_each e unit_row →
        Puts draft.old draft.new (numbered_step e numbered column
        (map condition_read reads.now) spot.now place.now ∷ [])) }
{
    let alloc = draft.allocator();
    let checked = after(numbered)?;
    let first = after(checked)?;
    let count = after(reads.len())?;
    let tested = sum(checked, count)?;
    let targets = targets_of_condition(alloc, reads)?;
    let mut nodes = nodes;
    nodes.extend(condition_cells(alloc, reads, numbered, column)?)?;
    put_targets(
        nodes,
        checked,
        count,
        tested,
        targets.as_slice(),
        first,
        spot,
        place,
        draft,
    )
}

// ---- SELECT INTO

// Columns from one on, as targets take them.
fn assigns(alloc: Global, targets: &[BoundTarget], first: usize) -> Result<Items<Scalar>, NoMemory>
    ensures { IfOk result (λ ss. scalars_of ss ≡ chain.assigns (map target_of targets.now)
        first) }
{
    let mut cells = Items::from_vec(Vec::with_capacity(alloc, targets.len())?);
    let mut cell = first;
    for target in targets {
        cells.push(assigned(alloc, target.data_type, Scalar::Column(0, cell))?)?;
        cell = after(cell)?;
    }
    Ok(cells)
}

// The column of the first aggregate and those of the list.
fn list_checks(
    alloc: Global,
    aggregate: usize,
    first: usize,
    count: usize,
) -> Result<Items<Scalar>, NoMemory>
    ensures { IfOk result (λ ss. scalars_of ss ≡ checks (aggregate ∷ places first count)) }
{
    let first_test = check(alloc, aggregate)?;
    let mut tests = one(alloc, first_test)?;
    for index in 0..count {
        tests.push(check(alloc, sum(first, index)?)?)?;
    }
    Ok(tests)
}

// A column as its target takes it, where those of a list of aggregates are values.
fn assigned_if(
    alloc: Global,
    target: &BoundTarget,
    cell: usize,
    aggregate: usize,
    first: usize,
    count: usize,
) -> Result<Scalar, NoMemory>
    ensures { IfOk result (λ s. scalar_of s ≡ if_values (aggregate ∷ places first count)
        (assigning target.now.data_type (steps.col cell))) }
{
    let value = assigned(alloc, target.data_type, Scalar::Column(0, cell))?;
    let tests = list_checks(alloc, aggregate, first, count)?;
    guard(alloc, tests, value)
}

// Columns from one on, as targets take them, where those of a list of aggregates are values.
fn assigns_if(
    alloc: Global,
    targets: &[BoundTarget],
    aggregate: usize,
    first: usize,
) -> Result<Items<Scalar>, NoMemory>
    ensures { IfOk result (λ ss. scalars_of ss ≡ chain.assigns_if
        (aggregate ∷ places first (length targets.now)) (map target_of targets.now) first) }
{
    let count = targets.len();
    let mut cells = Items::from_vec(Vec::with_capacity(alloc, count)?);
    let mut cell = first;
    for target in targets {
        cells.push(assigned_if(alloc, target, cell, aggregate, first, count)?)?;
        cell = after(cell)?;
    }
    Ok(cells)
}

// The step of SELECT INTO of a query that is asked for its one row.
fn put_asked(
    inner: Plan,
    targets: &[BoundTarget],
    at: At,
    place: &Place,
    draft: &mut Draft,
) -> Result<(), NoMemory>
    ensures { OnOk result (Puts draft.old draft.new (take 1 (chain.into_asked (tree_of inner)
        (map target_of targets.now) (codes_of place.now) (env_in place.now) at.here
        at.next at.columns))) }
{
    let spot = spot_of(at);
    let alloc = draft.allocator();
    let count = targets.len();
    let mut nodes = nodes_over(alloc, spot.columns);
    let when = Scalar::Constant(Value::Bool(true));
    nodes.apply(when, ApplyKind::Into(count), inner)?;
    let first = sum(spot.columns, count)?;
    let tested = sum(first, count)?;
    nodes.extend(assigns(alloc, targets, spot.columns)?)?;
    put_targets(
        nodes, first, count, tested, targets, first, &spot, place, draft,
    )
}

// The step of SELECT INTO of aggregates alone, whose list is evaluated whole, and then assigned.
fn put_folded(
    nodes: Draft,
    list: Items<Scalar>,
    targets: &[BoundTarget],
    spot: &Spot,
    place: &Place,
    draft: &mut Draft,
) -> Result<(), NoMemory>
    ensures { OnOk result ((e : Nodes) → (drafted nodes).tree ≡ on_each e unit_row →
        Puts draft.old draft.new (folded_step e (drafted nodes).width (scalars_of list)
        (map target_of targets.now) spot.now place.now ∷ [])) }
{
    let alloc = draft.allocator();
    let count = targets.len();
    let first = nodes.columns();
    let checked = sum(first, count)?;
    let tested = sum(checked, count)?;
    let mut nodes = nodes;
    nodes.extend(list)?;
    nodes.extend(assigns_if(alloc, targets, spot.columns, first)?)?;
    put_targets(
        nodes, checked, count, tested, targets, checked, spot, place, draft,
    )
}

// The step of SELECT INTO of a query that isn't folded.
fn put_unfolded(
    query: &BoundQuery,
    names: &NameSources,
    targets: &[BoundTarget],
    at: At,
    place: &Place,
    draft: &mut Draft,
) -> Result<(), NoMemory>
    ensures { OnOk result (Puts draft.old draft.new (take 1 (chain.into_asked
        (plan_by (query_seen place.now.functions.now query.now) (widths_in place.now)
        (names_of names.now)) (map target_of targets.now) (codes_of place.now)
        (env_in place.now) at.here at.next at.columns))) }
{
    let inner = plan_within(draft.allocator(), query, names, place.functions)?;
    put_asked(inner, targets, at, place, draft)
}

/// The step of SELECT INTO (ISO/IEC 9075-2, 14.7).
pub fn put_into(
    query: &BoundQuery,
    targets: &[BoundTarget],
    at: At,
    place: &Place,
    draft: &mut Draft,
) -> Result<(), NoMemory>
    ensures { OnOk result (Puts draft.old draft.new (take 1 (chain.emit_into
        (query_in place.now.functions.now query.now) (map target_of targets.now)
        (widths_in place.now) (codes_of place.now) (env_in place.now) at.here
        at.next at.columns))) }
{
    let spot = spot_of(at);
    let alloc = draft.allocator();
    let mut nodes = nodes_over(alloc, spot.columns);
    let names = names(alloc, place)?;
    let folded = emit_folded(query, &names, &mut nodes, place.functions)?;
    match folded {
        Some(list) => put_folded(nodes, list, targets, &spot, place, draft),
        None => put_unfolded(query, &names, targets, at, place, draft),
    }
}

/// The step of GET STACKED DIAGNOSTICS.
pub fn put_get(
    information: &BoundInformation,
    at: At,
    place: &Place,
    draft: &mut Draft,
) -> Result<(), NoMemory>
    ensures { OnOk result (Puts draft.old draft.new (take 1 (get_steps information.now
        place.now at))) }
{
    match information {
        BoundInformation::Statement(reads) => {
            put_statement_items(reads.as_slice(), at, place, draft)
        }
        BoundInformation::Condition(number, reads) => {
            put_condition_items(number, reads.as_slice(), at, place, draft)
        }
    }
}
