//! Statements of one step, and what handles what they raise comes after that step: SET, RETURN,
//! SIGNAL and RESIGNAL.

ghost use Rattle.std.specs.Prelude.{◌≡◌, [], ◌∷◌, take, None, IfOk, OnOk};
ghost use Rattle.rel_algebra.specs.BodyChain as chain;
ghost use Rattle.rel_algebra.specs.BodyDispatch.{store_if as store_by};
ghost use Rattle.rel_algebra.specs.BodySteps as steps;
ghost use Rattle.rel_algebra.specs.OnConditions.{retext_word};
ghost use Rattle.rel_algebra.specs.Plan.{no_node, Nodes, on_condition, on_each, unit_row, word};
ghost use Rattle.rel_algebra.specs.PlanView.{scalar_of};
ghost use Rattle.block_plans.specs.Callees.{Callees};
ghost use Rattle.sql_conditions.specs.Texts.{message_of, state_of};
ghost use Rattle.routine_views.specs.Views.{target as target_of};
ghost use Rattle.plan_expressions.specs.Drafts.{drafted};
ghost use Rattle.plan_expressions.specs.Emission.{Emits};
ghost use Rattle.plan_steps.specs.Places.{codes_of, env_in, leaf_in, perhaps_in, widths_in};
ghost use Rattle.plan_steps.specs.Steps.{Puts, judged};

use bound_trees::{BoundExpr, BoundResignal, BoundSignal, BoundTarget};
use plan_drafts::put_column;
use plan_expressions::{Draft, assigned, two};
use plan_queries::emit_expr;
use plan_steps::{
    At, Place, Spot, column_at, judge, names, nodes_over, on_column, own_store, raise, spot_of, tag,
};
use rel_algebra::{ConditionWord, Scalar};
use sql_conditions::{EngineCondition, Message, SqlState};
use sql_values::{NoMemory, Value};
use sqlite_items::Items;
use std::alloc::Global;

// ---- expressions

/// Emits an expression on nodes in the making.
pub fn emit_value(expr: &BoundExpr, place: &Place, nodes: &mut Draft) -> Result<Scalar, NoMemory>
    ensures { IfOk result (λ s. Emits nodes.old nodes.new (scalar_of s)
        (chain.emitted (leaf_in place.now.functions.now expr.now) (widths_in place.now)
        (env_in place.now) (drafted nodes.old).width)) }
{
    let names = names(nodes.allocator(), place)?;
    emit_expr(expr, &names, nodes, place.functions)
}

// The empty text.
fn empty_text(alloc: Global) -> Result<Scalar, NoMemory>
    ensures { IfOk result (λ s. scalar_of s ≡ chain.text_of []) }
{
    let text = Message::empty().to_text(alloc)?;
    Ok(Scalar::Constant(Value::Str(text)))
}

// Emits an expression, or the empty text where it is left out.
fn emit_perhaps(
    expr: &Option<BoundExpr>,
    place: &Place,
    nodes: &mut Draft,
) -> Result<Scalar, NoMemory>
    ensures { IfOk result (λ s. Emits nodes.old nodes.new (scalar_of s)
        (chain.perhaps_emitted (perhaps_in place.now.functions.now expr.now) (widths_in place.now)
        (env_in place.now) (drafted nodes.old).width)) }
{
    match expr {
        Some(expr) => emit_value(expr, place, nodes),
        None => empty_text(nodes.allocator()),
    }
}

// ---- SET and RETURN

/// The step of SET (ISO/IEC 9075-4, 14.5).
pub fn put_set(
    target: &BoundTarget,
    value: &BoundExpr,
    at: At,
    place: &Place,
    draft: &mut Draft,
) -> Result<(), NoMemory>
    ensures { OnOk result (Puts draft.old draft.new (take 1 (chain.emit_set (target_of target.now)
        (leaf_in place.now.functions.now value.now) (widths_in place.now) (codes_of place.now)
        (env_in place.now) at.here at.next at.columns))) }
{
    let spot = spot_of(at);
    let alloc = draft.allocator();
    let mut nodes = nodes_over(alloc, spot.columns);
    let scalar = emit_value(value, place, &mut nodes)?;
    let scalar = assigned(alloc, target.data_type, scalar)?;
    let column = put_column(scalar, &mut nodes)?;
    let stored = column_at(place, target.slot, spot.columns);
    put_value(nodes, column, stored, spot.here, &spot, place, draft)
}

/// The step of RETURN (ISO/IEC 9075-2, 15.2).
pub fn put_return(
    value: &BoundExpr,
    at: At,
    place: &Place,
    draft: &mut Draft,
) -> Result<(), NoMemory>
    ensures { OnOk result (Puts draft.old draft.new (take 1 (chain.emit_return
        (leaf_in place.now.functions.now value.now) (widths_in place.now) (codes_of place.now)
        (env_in place.now) at.here at.next at.columns))) }
{
    let spot = spot_of(at);
    let mut nodes = nodes_over(draft.allocator(), spot.columns);
    let scalar = emit_value(value, place, &mut nodes)?;
    let column = put_column(scalar, &mut nodes)?;
    put_value(nodes, column, 1, 0, &spot, place, draft)
}

// The step of a statement whose value stands in a column, which is stored in another one; then at a
// code.
fn put_value(
    nodes: Draft,
    column: usize,
    stored: usize,
    code: usize,
    spot: &Spot,
    place: &Place,
    draft: &mut Draft,
) -> Result<(), NoMemory>
    ensures { OnOk result ((e : Nodes) → (drafted nodes).tree ≡ on_each e unit_row →
        Puts draft.old draft.new (judged e (steps.tag code) column
        (store_by column column stored ∷ []) [] spot.now place.now ∷ [])) }
{
    let alloc = draft.allocator();
    let goes = tag(code)?;
    let stores = own_store(alloc, column, stored)?;
    let none = Items::new(alloc);
    judge(nodes, goes, column, stores, none, spot, place, draft)
}

// ---- SIGNAL and RESIGNAL

// A condition of a state before the area of a cell, with a text.
fn push(alloc: Global, state: SqlState, text: Scalar, cell: Scalar) -> Result<Scalar, NoMemory>
    ensures { IfOk result (λ s. scalar_of s ≡ chain.push state (scalar_of text)
        (scalar_of cell)) }
{
    let operands = two(alloc, text, cell)?;
    Ok(Scalar::OnCondition(ConditionWord::Push(state), operands))
}

/// One condition of the engine's own.
pub fn pushing(alloc: Global, engine: EngineCondition) -> Result<Scalar, NoMemory>
    ensures { IfOk result (λ s. scalar_of s ≡ chain.pushing (state_of engine)
        (message_of engine)) }
{
    let text = Value::Str(Message::of_engine(engine).to_text(alloc)?);
    let none = Scalar::Constant(Value::Null);
    push(alloc, engine.state(), Scalar::Constant(text), none)
}

/// The step of a statement that raises a condition of the engine's own.
pub fn put_engine(
    engine: EngineCondition,
    spot: &Spot,
    place: &Place,
    draft: &mut Draft,
) -> Result<(), NoMemory>
    ensures { OnOk result (Puts draft.old draft.new (chain.raising_step (codes_of place.now)
        (env_in place.now) spot.now.from spot.now.here spot.now.base spot.now.columns
        (chain.with_column no_node (chain.pushing (state_of engine) (message_of engine)))
        spot.now.columns ∷ [])) }
{
    let alloc = draft.allocator();
    let mut nodes = nodes_over(alloc, spot.columns);
    let cell = pushing(alloc, engine)?;
    let column = put_column(cell, &mut nodes)?;
    raise(nodes, column, spot, place, draft)
}

// The step of a statement that raises what stands in a cell over nodes.
fn put_raised(
    cell: Scalar,
    nodes: Draft,
    spot: &Spot,
    place: &Place,
    draft: &mut Draft,
) -> Result<(), NoMemory>
    ensures { OnOk result ((e : Nodes) → (drafted nodes).tree ≡ on_each e unit_row →
        Puts draft.old draft.new (chain.raising_step (codes_of place.now) (env_in place.now)
        spot.now.from spot.now.here spot.now.base spot.now.columns
        (chain.with_column e (scalar_of cell)) (drafted nodes).width ∷ [])) }
{
    let mut nodes = nodes;
    let column = put_column(cell, &mut nodes)?;
    raise(nodes, column, spot, place, draft)
}

/// The step of SIGNAL (ISO/IEC 9075-4, 17.2).
pub fn put_signal(
    signal: &BoundSignal,
    at: At,
    place: &Place,
    draft: &mut Draft,
) -> Result<(), NoMemory>
    ensures { OnOk result (Puts draft.old draft.new (take 1 (chain.emit_signal signal.now.state
        (perhaps_in place.now.functions.now signal.now.message) (widths_in place.now)
        (codes_of place.now) (env_in place.now) at.here at.next
        at.columns))) }
{
    let spot = spot_of(at);
    let alloc = draft.allocator();
    let mut nodes = nodes_over(alloc, spot.columns);
    let text = emit_perhaps(&signal.message, place, &mut nodes)?;
    let cell = push(alloc, signal.state, text, Scalar::Constant(Value::Null))?;
    put_raised(cell, nodes, &spot, place, draft)
}

// The area in a column with another text.
fn retexted(alloc: Global, text: Scalar, column: usize) -> Result<Scalar, NoMemory>
    ensures { IfOk result (λ s. scalar_of s ≡ word (on_condition retext_word)
        (steps.two (scalar_of text) (steps.col column))) }
{
    let operands = two(alloc, text, Scalar::Column(0, column))?;
    Ok(Scalar::OnCondition(ConditionWord::Retext, operands))
}

// The area in a column again, with another text where one is given.
fn same_state(
    alloc: Global,
    message: &Option<BoundExpr>,
    text: Scalar,
    column: usize,
) -> Result<Scalar, NoMemory>
    ensures { IfOk result (λ s. (known : Callees) → scalar_of s ≡ chain.again None
        (perhaps_in known message.now) (scalar_of text) column) }
{
    match message {
        Some(_) => retexted(alloc, text, column),
        None => on_column(alloc, ConditionWord::Raise, column),
    }
}

// The area in a column again, with another state or text where one is given.
fn again(
    alloc: Global,
    signal: &BoundResignal,
    text: Scalar,
    column: usize,
) -> Result<Scalar, NoMemory>
    ensures { IfOk result (λ s. (known : Callees) → scalar_of s ≡ chain.again
        signal.now.state (perhaps_in known signal.now.message) (scalar_of text) column) }
{
    match signal.state {
        Some(state) => push(alloc, state, text, Scalar::Column(0, column)),
        None => same_state(alloc, &signal.message, text, column),
    }
}

/// The step of RESIGNAL (17.3).
pub fn put_resignal(
    signal: &BoundResignal,
    at: At,
    place: &Place,
    draft: &mut Draft,
) -> Result<(), NoMemory>
    ensures { OnOk result (Puts draft.old draft.new (take 1 (chain.emit_again place.now.stacked
        signal.now.state (perhaps_in place.now.functions.now signal.now.message)
        (widths_in place.now) (codes_of place.now) (env_in place.now) at.here
        at.next at.columns))) }
{
    let spot = spot_of(at);
    let Some(column) = place.stacked else {
        return put_engine(EngineCondition::HandlerNotActive, &spot, place, draft);
    };
    let alloc = draft.allocator();
    let mut nodes = nodes_over(alloc, spot.columns);
    let text = emit_perhaps(&signal.message, place, &mut nodes)?;
    let cell = again(alloc, signal, text, column)?;
    put_raised(cell, nodes, &spot, place, draft)
}
