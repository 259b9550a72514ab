//! Compound statements (ISO/IEC 9075-4, 14.1): their codes, their declarations, and what stands
//! around their statements and at their end.

ghost use Rattle.std.specs.Prelude.{◌≡◌, ◌+◌, ◌++◌, [], ◌∷◌, ℕ, length, map, replicate, true};
ghost use Rattle.std.specs.Prelude.{IfOk, OnOk};
ghost use Rattle.bound_trees.specs.declared.statement.BoundBlock.{out-BoundBlock};
ghost use Rattle.rel_algebra.specs.BodyChain as chain;
ghost use Rattle.rel_algebra.specs.BodyDispatch as dispatching;
ghost use Rattle.rel_algebra.specs.BodyDispatch.{Codes, count};
ghost use Rattle.rel_algebra.specs.BodySteps as steps;
ghost use Rattle.rel_algebra.specs.Joins.{places};
ghost use Rattle.rel_algebra.specs.Plan.{case_word, word};
ghost use Rattle.rel_algebra.specs.PlanView.{scalar_of, scalars_of};
ghost use Rattle.block_plans.specs.Callees.{Callees};
ghost use Rattle.plan_statements.specs.Codes.{codes_for, ending_test, own_if};
ghost use Rattle.plan_steps.specs.Places.{codes_in, codes_of, coded_in, default_in, env_in};
ghost use Rattle.plan_steps.specs.Places.{marked, perhaps_in, variables_in, widths_in};
ghost use Rattle.plan_steps.specs.Steps.{Puts};
ghost use Rattle.plan_statements.specs.Statements.{group_step};

use crate::simple::emit_value;
use bound_trees::{BoundBlock, BoundExpr, BoundHandler, BoundVariables};
use plan_drafts::put_column;
use plan_expressions::{Draft, unary};
use plan_steps::{
    Aim, Marks, Place, Scope, Sight, Spot, after, columns_from, dispatched, go, handler_count,
    judge, nodes_over, put_scope, sum, tag, with_columns,
};
use rel_algebra::{ListWord, Scalar, UnaryWord};
use sql_values::{NoMemory, SqlType, Value};
use sqlite_items::Items;
use std::alloc::Global;

/// The codes of a compound statement: what it raises as a whole is sealed; it is left for its
/// handlers; it runs; the first of its handlers acts at its end; and the first that is free for its
/// statements.
#[derive(Clone, Copy)]
pub struct BlockCodes {
    pub sealing: usize,
    pub exit: usize,
    pub runs: usize,
    pub first: usize,
    pub free: usize,
}

/// The first code after those of the handlers in sight, which begin at `next`.
pub fn free_after(next: usize, sight: &Sight) -> Result<usize, NoMemory>
    ensures { IfOk result (λ n. (known : Callees) →
        n ≡ next + count (codes_in known sight.now)) }
{
    let handlers = handler_count(sight)?;
    sum(next, handlers)
}

/// The codes of a compound statement with so many handlers, from one on.
pub fn block_codes(sealing: usize, handlers: usize) -> Result<BlockCodes, NoMemory>
    ensures { IfOk result (λ c. c ≡ codes_for sealing handlers) }
{
    let exit = after(sealing)?;
    let runs = after(exit)?;
    let first = after(runs)?;
    let free = sum(first, handlers)?;
    Ok(BlockCodes {
        sealing,
        exit,
        runs,
        first,
        free,
    })
}

// ---- declarations

// So many columns of NULL.
fn nulls(alloc: Global, data_type: SqlType, count: usize) -> Result<Items<Scalar>, NoMemory>
    ensures { IfOk result (λ ss. scalars_of ss ≡ chain.null_scalars data_type count) }
{
    let mut columns = Items::from_vec(Vec::with_capacity(alloc, count)?);
    for _ in 0..count {
        columns.push(null_of(alloc, data_type)?)?;
    }
    Ok(columns)
}

/// NULL of a type.
pub fn null_of(alloc: Global, data_type: SqlType) -> Result<Scalar, NoMemory>
    ensures { IfOk result (λ s. scalar_of s ≡ chain.null_of data_type) }
{
    let null = Scalar::Constant(Value::Null);
    unary(alloc, UnaryWord::Cast(data_type), null)
}

// The same column so many times.
fn repeated(alloc: Global, column: usize, count: usize) -> Result<Items<usize>, NoMemory>
    ensures { IfOk result (λ cs. cs ≡ replicate count column) }
{
    let mut columns = Items::from_vec(Vec::with_capacity(alloc, count)?);
    for _ in 0..count {
        columns.push(column)?;
    }
    Ok(columns)
}

// The step of variables with a default, which is evaluated once.
fn put_default(
    default: &BoundExpr,
    count: usize,
    data_type: SqlType,
    spot: &Spot,
    place: &Place,
    draft: &mut Draft,
) -> Result<(), NoMemory>
    ensures { OnOk result (Puts draft.old draft.new (chain.declared
        (default_in place.now.functions.now default.now) count data_type (widths_in place.now)
        (codes_of place.now) (env_in place.now) spot.now.from spot.now.here spot.now.base
        spot.now.columns ∷ [])) }
{
    let alloc = draft.allocator();
    let mut nodes = nodes_over(alloc, spot.columns);
    let scalar = emit_value(default, place, &mut nodes)?;
    let scalar = unary(alloc, UnaryWord::Assign(data_type), scalar)?;
    let column = put_column(scalar, &mut nodes)?;
    let kept = repeated(alloc, column, count)?;
    let goes = tag(spot.from)?;
    let stores = Items::new(alloc);
    judge(nodes, goes, column, stores, kept, spot, place, draft)
}

// So many columns of NULL more.
fn put_nulls(data_type: SqlType, count: usize, draft: &mut Draft) -> Result<(), NoMemory>
    ensures { OnOk result (Puts draft.old draft.new (steps.grow (chain.null_scalars data_type
        count) ∷ [])) }
{
    let columns = nulls(draft.allocator(), data_type, count)?;
    draft.extend(columns)
}

// The step of the variables of one declaration.
fn put_declared(
    group: &BoundVariables,
    spot: &Spot,
    place: &Place,
    draft: &mut Draft,
) -> Result<(), NoMemory>
    ensures { OnOk result (Puts draft.old draft.new (chain.declared
        (perhaps_in place.now.functions.now group.now.default) group.now.count
        group.now.data_type (widths_in place.now) (codes_of place.now) (env_in place.now)
        spot.now.from spot.now.here spot.now.base spot.now.columns ∷ [])) }
{
    match &group.default {
        Some(default) => put_default(default, group.count, group.data_type, spot, place, draft),
        None => put_nulls(group.data_type, group.count, draft),
    }
}

// The same, where these columns are in sight, on rows of so many columns.
fn put_group(
    group: &BoundVariables,
    columns: &[usize],
    wide: usize,
    spot: &Spot,
    place: &Place,
    draft: &mut Draft,
) -> Result<(), NoMemory>
    ensures { OnOk result (Puts draft.old draft.new (group_step group.now columns.now wide
        spot.now place.now ∷ [])) }
{
    let within = with_columns(&*place, &*columns);
    let own = Spot {
        from: spot.from,
        here: spot.here,
        base: spot.base,
        columns: wide,
    };
    put_declared(group, &own, &within, draft)
}

// So many columns more in sight, from one on.
fn add_columns(
    alloc: Global,
    columns: &mut Items<usize>,
    first: usize,
    count: usize,
) -> Result<usize, NoMemory>
    ensures wide { IfOk result (λ n. n ≡ first + count) }
    ensures columns { OnOk result (columns.new ≡ columns.old ++ places first count) }
{
    columns.append(columns_from(alloc, first, count)?)?;
    sum(first, count)
}

/// The steps of declarations, each on the columns of those before it, and the columns of the
/// variables that are then in sight.
pub fn declare(
    variables: &[BoundVariables],
    spot: &Spot,
    place: &Place,
    draft: &mut Draft,
) -> Result<Items<usize>, NoMemory>
    ensures columns { IfOk result (λ cs. cs ≡ place.now.columns.now ++ places spot.now.columns
        (chain.variable_count (variables_in place.now.functions.now variables.now))) }
    ensures steps { OnOk result ((free : ℕ) → Puts draft.old draft.new (chain.emit_declares
        (variables_in place.now.functions.now variables.now) (widths_in place.now)
        (codes_of place.now) (env_in place.now) spot.now.from spot.now.here spot.now.base free
        spot.now.columns)) }
{
    let alloc = draft.allocator();
    let mut columns = Items::from_slice(alloc, place.columns)?;
    let mut wide = spot.columns;
    for group in variables {
        put_group(group, columns.as_slice(), wide, spot, place, draft)?;
        wide = add_columns(alloc, &mut columns, wide, group.count)?;
    }
    Ok(columns)
}

/// How many columns rows have that had so many, once these variables are declared.
pub fn declared_width(variables: &[BoundVariables], columns: usize) -> Result<usize, NoMemory>
    ensures { IfOk result (λ n. (known : Callees) → n ≡ columns + chain.variable_count
        (variables_in known variables.now)) }
{
    let mut wide = columns;
    for group in variables {
        wide = sum(wide, group.count)?;
    }
    Ok(wide)
}

/// Whether one of these has a default, which may raise.
pub fn has_default(variables: &[BoundVariables]) -> bool
    ensures { (known : Callees) → result ≡ chain.has_default
        (variables_in known variables.now) }
{
    for group in variables {
        if group.default.is_some() {
            return true;
        }
    }
    false
}

// ---- at its end

// The code to which the area in column 2 goes, among the actions of a compound statement.
fn chosen_action(
    alloc: Global,
    handlers: &[BoundHandler],
    first: usize,
    exit: usize,
) -> Result<Scalar, NoMemory>
    ensures { IfOk result (λ s. (known : Callees) (outer : Codes) → scalar_of s ≡
        word case_word (dispatching.scope_arms chain.its_own
        (map (coded_in known outer) handlers.now) first 2 (steps.only (steps.tag exit)))) }
{
    let mut arms = Items::new(alloc);
    put_scope(alloc, handlers, Aim::Own, first, 2, &mut arms)?;
    arms.push(tag(exit)?)?;
    Ok(Scalar::Listed(ListWord::Case, arms))
}

/// At the end of a compound statement that is left for its handlers: on at the code of the one that
/// takes the area.
pub fn put_ending(
    handlers: &[BoundHandler],
    codes: &BlockCodes,
    exit: usize,
    columns: usize,
    draft: &mut Draft,
) -> Result<(), NoMemory>
    ensures { OnOk result ((known : Callees) (outer : Codes) → Puts draft.old draft.new
        (ending_test (map (coded_in known outer) handlers.now) codes.now exit columns ∷ [])) }
{
    let target = chosen_action(draft.allocator(), handlers, codes.first, exit)?;
    go(codes.exit, target, columns, draft)
}

/// What an ATOMIC compound statement raises goes out to the handlers in sight.
pub fn put_sealed(
    sealing: usize,
    spot: &Spot,
    place: &Place,
    draft: &mut Draft,
) -> Result<(), NoMemory>
    ensures { OnOk result (Puts draft.old draft.new (chain.sealed_step true (codes_of place.now)
        (env_in place.now) sealing spot.now.here spot.now.base spot.now.columns)) }
{
    let target = dispatched(draft.allocator(), place, spot.base, spot.here, 2)?;
    go(sealing, target, spot.columns, draft)
}

/// The place inside a compound statement, or at its end, by its handlers in sight, its label, its
/// exit, where its areas go out, and how many compound statements are around.
pub fn with_marks<'a>(
    place: &Place<'a>,
    sight: &'a Sight<'a>,
    labels: &'a Marks<'a>,
    exits: &'a Marks<'a>,
    out: usize,
    level: usize,
) -> Place<'a>
    ensures env { env_in result ≡ record {
      columns = place.now.columns.now;
      labels = marked labels.now;
      exits = marked exits.now;
      out = out;
      stacked = place.now.stacked;
      level = level;
    } }
    ensures sight { result.sight.now ≡ sight.now }
    ensures functions { result.functions.now ≡ place.now.functions.now }
    ensures columns { result.columns.now ≡ place.now.columns.now }
{
    Place {
        functions: place.functions,
        sight,
        columns: place.columns,
        labels,
        exits,
        out,
        stacked: place.stacked,
        level,
    }
}

/// Where what is raised in a compound statement goes that nothing takes.
pub fn out_of(atomic: bool, sealing: usize, out: usize) -> usize
    ensures { result ≡ chain.out_in atomic sealing out }
{
    if atomic { sealing } else { out }
}

/// The handlers of a compound statement, as its actions see what is around it.
pub fn scope_of<'a>(block: &'a BoundBlock, place: &Place) -> Scope<'a>
    ensures handlers { result.handlers.now ≡ (out-BoundBlock block.now).handlers }
    ensures level { result.level ≡ place.now.level }
    ensures variables { result.variables ≡ length place.now.columns.now }
{
    Scope {
        handlers: block.handlers.as_slice(),
        level: place.level,
        variables: place.columns.len(),
    }
}

/// The codes to which compound statements are left, where one that has handlers has its own.
pub fn exits_of<'a>(block: &BoundBlock, outer: &'a Marks<'a>, own: &'a Marks<'a>) -> &'a Marks<'a>
    ensures { result.now ≡ own_if (out-BoundBlock block.now).handlers own.now outer.now }
{
    if block.handlers.is_empty() {
        outer
    } else {
        own
    }
}
