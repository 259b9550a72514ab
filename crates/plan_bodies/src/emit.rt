//! Statements as steps, with the actions of the handlers that take what they raise.

ghost use Rattle.std.specs.Prelude.{◌≡◌, [], ◌∷◌, map, true, None, Some, IfOk, OnOk};
ghost use Rattle.rel_algebra.specs.BodyChain as chain;
ghost use Rattle.rel_algebra.specs.BodyChain.{Rest};
ghost use Rattle.rel_algebra.specs.BodyDispatch as dispatching;
ghost use Rattle.rel_algebra.specs.BodyDispatch.{Codes};
ghost use Rattle.block_plans.specs.Callees.{Callees};
ghost use Rattle.routine_views.specs.Views.{handler_type as type_of, target as target_of};
ghost use Rattle.bound_trees.specs.declared.statement.BoundHandler.{out-BoundHandler};
ghost use Rattle.plan_bodies.specs.Blocks.{body_steps, declared_steps, end_step, ending_steps};
ghost use Rattle.plan_bodies.specs.Blocks.{inside_steps, nothing_steps, own_in, picked_by};
ghost use Rattle.plan_bodies.specs.Blocks.{scope_steps, whole_steps};
ghost use Rattle.plan_steps.specs.Places.{block_in, codes_in, codes_of, env_in, leaf_in};
ghost use Rattle.plan_steps.specs.Places.{perhaps_in, query_in, stmt_in, stmts_in, widths_in};
ghost use Rattle.plan_steps.specs.Steps.{GoesOn, Puts};
ghost use Rattle.plan_bodies.specs.Choices.{branch_step, branch_steps, choice_by};
ghost use Rattle.plan_statements.specs.Statements.{get_steps};
ghost use Rattle.plan_bodies.specs.Choices.{lacks, otherwise_by};
ghost use Rattle.plan_steps.specs.Steps.{taken};

use bound_trees::{
    BoundBlock, BoundBranch, BoundDiagnostics, BoundExpr, BoundHandler, BoundQuery, BoundResignal,
    BoundSignal, BoundStmt, BoundTarget,
};
use plan_expressions::Draft;
use plan_statements::{
    BlockCodes, block_codes, declare, declared_width, exits_of, free_after, has_default, out_of,
    put_ending, put_engine, put_get, put_into, put_operand, put_resignal, put_return, put_sealed,
    put_set, put_signal, put_test, scope_of, with_marks,
};
use plan_steps::{
    At, Marks, Place, Reached, Scope, Sight, Spot, acts, after, code_at, cut, grow_by,
    handler_count, has_continue, in_action, join, jump, label_code, seen_outside, spot_of, sum,
    with_columns,
};
use sql_conditions::EngineCondition;
use sql_values::NoMemory;

// ---- statements

/// Puts the steps of a statement over a plan.
#[cycle(emission)]
pub fn emit_stmt(stmt: &BoundStmt, at: At, place: &Place, draft: &mut Draft) -> Result<(), NoMemory>
    ensures { OnOk result (Puts draft.old draft.new (chain.emit
        (stmt_in place.now.functions.now stmt.now) (widths_in place.now) (codes_of place.now)
        (env_in place.now) at.here at.next at.columns)) }
{
    match stmt {
        BoundStmt::Block(block) => emit_block(block, at, place, draft),
        BoundStmt::If(branches, otherwise) => {
            let (branches, otherwise) = (branches.as_slice(), otherwise.as_slice());
            emit_tested(branches, otherwise, false, at, place, draft)
        }
        BoundStmt::Case(operand, branches, otherwise) => {
            let (branches, otherwise) = (branches.as_slice(), otherwise.as_slice());
            match operand {
                Some(operand) => emit_compared(operand, branches, otherwise, at, place, draft),
                None => emit_tested(branches, otherwise, true, at, place, draft),
            }
        }
        BoundStmt::Leave(outwards) => {
            jump(at.here, label_code(place, *outwards), at.columns, draft)
        }
        BoundStmt::Set(target, value) => emit_set(target, value, at, place, draft),
        BoundStmt::Return(value) => emit_return(value, at, place, draft),
        BoundStmt::SelectInto(query, targets) => {
            emit_into(query, targets.as_slice(), at, place, draft)
        }
        BoundStmt::Signal(signal) => emit_signal(signal, at, place, draft),
        BoundStmt::Resignal(signal) => emit_resignal(signal, at, place, draft),
        BoundStmt::GetDiagnostics(get) => emit_get(get, at, place, draft),
        _ => put_nothing(at, place, draft),
    }
}

// Statements in their order.
#[cycle(emission)]
fn emit_list(stmts: &[BoundStmt], at: At, place: &Place, draft: &mut Draft) -> Result<(), NoMemory>
    ensures { OnOk result (Puts draft.old draft.new (chain.emit_all
        (stmts_in place.now.functions.now stmts.now) (widths_in place.now) (codes_of place.now)
        (env_in place.now) at.here at.next at.columns)) }
{
    for stmt in stmts {
        emit_stmt(stmt, at, place, draft)?;
    }
    Ok(())
}

// A statement that isn't in form does nothing, as a compound statement of nothing.
fn put_nothing(at: At, place: &Place, draft: &mut Draft) -> Result<(), NoMemory>
    ensures { OnOk result (Puts draft.old draft.new (nothing_steps (codes_of place.now) at)) }
{
    let sealing = free_after(at.next, place.sight)?;
    let codes = block_codes(sealing, 0)?;
    jump(at.here, codes.runs, at.columns, draft)?;
    join(codes.runs, 1, at.here, at.columns, at.columns, draft)
}

// ---- statements of one step, and what handles what they raise

// SET.
#[cycle(emission)]
fn emit_set(
    target: &BoundTarget,
    value: &BoundExpr,
    at: At,
    place: &Place,
    draft: &mut Draft,
) -> Result<(), NoMemory>
    ensures { OnOk result (Puts draft.old draft.new (chain.emit_set (target_of target.now)
        (leaf_in place.now.functions.now value.now) (widths_in place.now) (codes_of place.now)
        (env_in place.now) at.here at.next at.columns)) }
{
    put_set(target, value, at, place, draft)?;
    emit_taken(at, place, draft)
}

// RETURN.
#[cycle(emission)]
fn emit_return(value: &BoundExpr, at: At, place: &Place, draft: &mut Draft) -> Result<(), NoMemory>
    ensures { OnOk result (Puts draft.old draft.new (chain.emit_return
        (leaf_in place.now.functions.now value.now) (widths_in place.now) (codes_of place.now)
        (env_in place.now) at.here at.next at.columns)) }
{
    put_return(value, at, place, draft)?;
    emit_taken(at, place, draft)
}

// SELECT INTO.
#[cycle(emission)]
fn emit_into(
    query: &BoundQuery,
    targets: &[BoundTarget],
    at: At,
    place: &Place,
    draft: &mut Draft,
) -> Result<(), NoMemory>
    ensures { OnOk result (Puts draft.old draft.new (chain.emit_into
        (query_in place.now.functions.now query.now) (map target_of targets.now)
        (widths_in place.now) (codes_of place.now) (env_in place.now) at.here at.next
        at.columns)) }
{
    put_into(query, targets, at, place, draft)?;
    emit_taken(at, place, draft)
}

// SIGNAL.
#[cycle(emission)]
fn emit_signal(
    signal: &BoundSignal,
    at: At,
    place: &Place,
    draft: &mut Draft,
) -> Result<(), NoMemory>
    ensures { OnOk result (Puts draft.old draft.new (chain.emit_signal signal.now.state
        (perhaps_in place.now.functions.now signal.now.message) (widths_in place.now)
        (codes_of place.now) (env_in place.now) at.here at.next at.columns)) }
{
    put_signal(signal, at, place, draft)?;
    emit_taken(at, place, draft)
}

// RESIGNAL.
#[cycle(emission)]
fn emit_resignal(
    signal: &BoundResignal,
    at: At,
    place: &Place,
    draft: &mut Draft,
) -> Result<(), NoMemory>
    ensures { OnOk result (Puts draft.old draft.new (chain.emit_again place.now.stacked
        signal.now.state (perhaps_in place.now.functions.now signal.now.message)
        (widths_in place.now) (codes_of place.now) (env_in place.now) at.here at.next
        at.columns)) }
{
    put_resignal(signal, at, place, draft)?;
    emit_taken(at, place, draft)
}

// GET STACKED DIAGNOSTICS.
#[cycle(emission)]
fn emit_get(
    get: &BoundDiagnostics,
    at: At,
    place: &Place,
    draft: &mut Draft,
) -> Result<(), NoMemory>
    ensures { OnOk result (Puts draft.old draft.new (get_steps get.now.information place.now
        at)) }
{
    put_get(&get.information, at, place, draft)?;
    emit_taken(at, place, draft)
}

// ---- tests

// IF, and CASE with tests, which raises where no test is true and ELSE is left out.
#[cycle(emission)]
fn emit_tested(
    branches: &[BoundBranch],
    otherwise: &[BoundStmt],
    wants_else: bool,
    at: At,
    place: &Place,
    draft: &mut Draft,
) -> Result<(), NoMemory>
    ensures { OnOk result (Puts draft.old draft.new (chain.tested (codes_of place.now)
        (choice_by None branches.now otherwise.now wants_else place.now) (env_in place.now)
        at.here at.next at.columns)) }
{
    let free = free_after(at.next, place.sight)?;
    let spot = spot_of(at);
    emit_choice(
        None, branches, otherwise, wants_else, free, &spot, place, draft,
    )?;
    emit_handled(at, free, place, draft)
}

// CASE with an operand, which stands in a column behind the row until its end.
#[cycle(emission)]
fn emit_compared(
    operand: &BoundExpr,
    branches: &[BoundBranch],
    otherwise: &[BoundStmt],
    at: At,
    place: &Place,
    draft: &mut Draft,
) -> Result<(), NoMemory>
    ensures { OnOk result (Puts draft.old draft.new (chain.compared_with
        (leaf_in place.now.functions.now operand.now) (widths_in place.now) (codes_of place.now)
        (λ x. choice_by (Some x) branches.now otherwise.now true place.now) (env_in place.now)
        at.here at.next at.columns)) }
{
    let start = free_after(at.next, place.sight)?;
    let free = after(start)?;
    let inner = Spot {
        from: start,
        here: at.here,
        base: at.next,
        columns: after(at.columns)?,
    };
    put_operand(operand, start, &spot_of(at), place, draft)?;
    let column = Some(at.columns);
    emit_choice(
        column, branches, otherwise, true, free, &inner, place, draft,
    )?;
    cut(at.columns, draft)?;
    emit_handled(at, free, place, draft)
}

// Tests with their statements, and what follows where no test is true.
#[cycle(emission)]
fn emit_choice(
    operand: Option<usize>,
    branches: &[BoundBranch],
    otherwise: &[BoundStmt],
    wants_else: bool,
    free: usize,
    spot: &Spot,
    place: &Place,
    draft: &mut Draft,
) -> Result<(), NoMemory>
    ensures { OnOk result (Puts draft.old draft.new (choice_by operand branches.now
        otherwise.now wants_else place.now (env_in place.now) spot.now.from spot.now.here
        spot.now.base free spot.now.columns)) }
{
    let reached = emit_branches(operand, branches, free, spot, place, draft)?;
    let last = Spot {
        from: reached.from,
        here: spot.here,
        base: spot.base,
        columns: spot.columns,
    };
    emit_otherwise(otherwise, wants_else, reached.free, &last, place, draft)
}

// Tests with their statements; gives where what follows them begins.
#[cycle(emission)]
fn emit_branches(
    operand: Option<usize>,
    branches: &[BoundBranch],
    free: usize,
    spot: &Spot,
    place: &Place,
    draft: &mut Draft,
) -> Result<Reached, NoMemory>
    ensures { IfOk result (λ r. (rest : Rest) → GoesOn draft.old draft.new
        (branch_steps operand branches.now rest place.now spot.now free)
        (rest (env_in place.now) r.from spot.now.here spot.now.base r.free spot.now.columns)) }
{
    let mut reached = Reached {
        from: spot.from,
        free,
    };
    for branch in branches {
        reached = emit_branch(operand, branch, reached, spot, place, draft)?;
    }
    Ok(reached)
}

// A test with its statements; gives where what follows it begins.
#[cycle(emission)]
fn emit_branch(
    operand: Option<usize>,
    branch: &BoundBranch,
    reached: Reached,
    spot: &Spot,
    place: &Place,
    draft: &mut Draft,
) -> Result<Reached, NoMemory>
    ensures { IfOk result (λ r. (rest : Rest) → GoesOn draft.old draft.new
        (branch_step operand branch.now rest place.now spot.now reached)
        (rest (env_in place.now) r.from spot.now.here spot.now.base r.free spot.now.columns)) }
{
    let own = Spot {
        from: reached.from,
        here: spot.here,
        base: spot.base,
        columns: spot.columns,
    };
    let from = after(reached.free)?;
    let free = after(from)?;
    put_test(&branch.test, operand, reached.free, &own, place, draft)?;
    let at = At {
        here: reached.free,
        next: free,
        columns: spot.columns,
    };
    emit_list(branch.body.as_slice(), at, place, draft)?;
    jump(reached.free, spot.here, spot.columns, draft)?;
    Ok(Reached { from, free })
}

// Whether this is CASE without ELSE.
fn lacks_else(otherwise: &[BoundStmt], wants_else: bool) -> bool
    ensures { result ≡ lacks wants_else otherwise.now }
{
    wants_else && otherwise.is_empty()
}

// The statements of ELSE; CASE without ELSE raises.
#[cycle(emission)]
fn emit_otherwise(
    otherwise: &[BoundStmt],
    wants_else: bool,
    free: usize,
    spot: &Spot,
    place: &Place,
    draft: &mut Draft,
) -> Result<(), NoMemory>
    ensures { OnOk result (Puts draft.old draft.new (otherwise_by wants_else otherwise.now
        place.now (env_in place.now) spot.now.from spot.now.here spot.now.base free
        spot.now.columns)) }
{
    if lacks_else(otherwise, wants_else) {
        return put_engine(EngineCondition::CaseNotFound, spot, place, draft);
    }
    let at = At {
        here: spot.from,
        next: free,
        columns: spot.columns,
    };
    emit_list(otherwise, at, place, draft)?;
    jump(spot.from, spot.here, spot.columns, draft)
}

// ---- actions

// What handles what the one step of a statement raises.
#[cycle(emission)]
fn emit_taken(at: At, place: &Place, draft: &mut Draft) -> Result<(), NoMemory>
    ensures { OnOk result (Puts draft.old draft.new (taken (codes_of place.now)
        (env_in place.now) at)) }
{
    let free = free_after(at.next, place.sight)?;
    emit_handled(at, free, place, draft)
}

// The actions of the CONTINUE handlers in sight, and on where the statement ends.
#[cycle(emission)]
fn emit_handled(at: At, free: usize, place: &Place, draft: &mut Draft) -> Result<(), NoMemory>
    ensures { OnOk result (Puts draft.old draft.new (dispatching.handled (codes_of place.now)
        (env_in place.now) at.here at.next free at.columns)) }
{
    if !has_continue(place.sight) {
        return Ok(());
    }
    let wide = after(at.columns)?;
    let count = handler_count(place.sight)?;
    grow_by(2, draft)?;
    emit_actions(place.sight, at.next, free, at.columns, place, draft)?;
    join(at.next, count, at.here, wide, at.columns, draft)
}

// The actions of the CONTINUE handlers of compound statements, on rows with the area after so many
// columns.
#[cycle(emission)]
fn emit_actions(
    sight: &Sight,
    first: usize,
    free: usize,
    columns: usize,
    place: &Place,
    draft: &mut Draft,
) -> Result<(), NoMemory>
    ensures { OnOk result (Puts draft.old draft.new (dispatching.actions
        (codes_in place.now.functions.now sight.now) (env_in place.now) first free columns)) }
{
    match sight {
        Sight::Nothing => Ok(()),
        Sight::Scope(scope, outer) => {
            let next = sum(first, scope.handlers.len())?;
            let at = At {
                here: first,
                next: free,
                columns,
            };
            emit_scope(false, scope, outer, at, place, draft)?;
            emit_actions(outer, next, free, columns, place, draft)
        }
    }
}

// The actions of the handlers of a compound statement, of all or of those that CONTINUE; the area
// stands after so many columns.
#[cycle(emission)]
fn emit_scope(
    all: bool,
    scope: &Scope,
    outer: &Sight,
    at: At,
    place: &Place,
    draft: &mut Draft,
) -> Result<(), NoMemory>
    ensures { OnOk result (Puts draft.old draft.new (scope_steps all scope.now outer.now at
        place.now)) }
{
    let inner = in_action(&*place, &*scope, &*outer, at.columns)?;
    let wide = after(at.columns)?;
    let mut own = at.here;
    for handler in scope.handlers {
        let at = At {
            here: own,
            next: at.next,
            columns: wide,
        };
        emit_action(all, handler, at, &inner, draft)?;
        own = after(own)?;
    }
    Ok(())
}

// The action of a handler, of any or of one that CONTINUEs.
#[cycle(emission)]
fn emit_action(
    all: bool,
    handler: &BoundHandler,
    at: At,
    place: &Place,
    draft: &mut Draft,
) -> Result<(), NoMemory>
    ensures { OnOk result (Puts draft.old draft.new (picked_by all
        (type_of (out-BoundHandler handler.now).handler_type) (chain.emit
        (stmt_in place.now.functions.now (out-BoundHandler handler.now).action)
        (widths_in place.now) (codes_of place.now) (env_in place.now) at.here at.next
        at.columns))) }
{
    if acts(all, handler.handler_type) {
        return emit_stmt(handler.action.get(), at, place, draft);
    }
    Ok(())
}

// ---- compound statements

// A compound statement.
#[cycle(emission)]
fn emit_block(block: &BoundBlock, at: At, place: &Place, draft: &mut Draft) -> Result<(), NoMemory>
    ensures { OnOk result (Puts draft.old draft.new (chain.emit
        (block_in place.now.functions.now block.now) (widths_in place.now) (codes_of place.now)
        (env_in place.now) at.here at.next at.columns)) }
{
    let sealing = free_after(at.next, place.sight)?;
    let codes = block_codes(sealing, block.handlers.len())?;
    jump(at.here, codes.runs, at.columns, draft)?;
    emit_inside(block, &codes, at, place, draft)?;
    put_end(block, &codes, at, draft)?;
    emit_whole(block, &codes, at, place, draft)
}

// On after the statements and the actions of a compound statement.
fn put_end(
    block: &BoundBlock,
    codes: &BlockCodes,
    at: At,
    draft: &mut Draft,
) -> Result<(), NoMemory>
    ensures { OnOk result ((known : Callees) (outer : Codes) → Puts draft.old draft.new
        (end_step known outer block.now codes.now at ∷ [])) }
{
    let count = after(block.handlers.len())?;
    let columns = declared_width(block.variables.as_slice(), at.columns)?;
    let wide = ending_columns(block, columns)?;
    join(codes.runs, count, at.here, wide, at.columns, draft)
}

// How many columns rows have at the end of a compound statement: the area is one more, where it has
// handlers.
fn ending_columns(block: &BoundBlock, columns: usize) -> Result<usize, NoMemory>
    ensures { IfOk result (λ n. (known : Callees) (outer : Codes) → n ≡ chain.ending_width
        (own_in known outer block.now) columns) }
{
    if block.handlers.is_empty() {
        return Ok(columns);
    }
    after(columns)
}

// The declarations, the statements, and the handlers at the end of a compound statement.
#[cycle(emission)]
fn emit_inside(
    block: &BoundBlock,
    codes: &BlockCodes,
    at: At,
    place: &Place,
    draft: &mut Draft,
) -> Result<(), NoMemory>
    ensures { OnOk result (Puts draft.old draft.new (inside_steps block.now codes.now at
        place.now)) }
{
    let spot = Spot {
        from: codes.runs,
        here: at.here,
        base: at.next,
        columns: at.columns,
    };
    let wide = declared_width(block.variables.as_slice(), at.columns)?;
    let columns = declare(block.variables.as_slice(), &spot, place, draft)?;
    let within = with_columns(&*place, columns.as_slice());
    emit_declared(block, codes, at.here, wide, &within, draft)
}

// The same once the variables are declared, on rows of so many columns.
#[cycle(emission)]
fn emit_declared(
    block: &BoundBlock,
    codes: &BlockCodes,
    here: usize,
    columns: usize,
    place: &Place,
    draft: &mut Draft,
) -> Result<(), NoMemory>
    ensures { OnOk result (Puts draft.old draft.new (declared_steps block.now codes.now here
        columns place.now)) }
{
    let nothing = Sight::Nothing;
    let outer = seen_outside(block.atomic, &*place.sight, &nothing);
    let out = out_of(block.atomic, codes.sealing, place.out);
    let label = Marks::Mark(place.level, here, &*place.labels);
    let ending = with_marks(&*place, outer, &label, &*place.exits, out, place.level);
    emit_body(block, codes, columns, &ending, draft)?;
    emit_ending(block, codes, columns, &ending, draft)
}

// The statements of a compound statement, with its handlers in sight, from the place at its end.
#[cycle(emission)]
fn emit_body(
    block: &BoundBlock,
    codes: &BlockCodes,
    columns: usize,
    place: &Place,
    draft: &mut Draft,
) -> Result<(), NoMemory>
    ensures { OnOk result (Puts draft.old draft.new (body_steps block.now codes.now columns
        place.now)) }
{
    let level = after(place.level)?;
    let sight = Sight::Scope(scope_of(&*block, place), &*place.sight);
    let exit = Marks::Mark(place.level, codes.exit, &*place.exits);
    let exits = exits_of(block, &*place.exits, &exit);
    let within = with_marks(&*place, &sight, &*place.labels, exits, place.out, level);
    let at = At {
        here: codes.runs,
        next: codes.free,
        columns,
    };
    emit_list(block.statements.as_slice(), at, &within, draft)
}

// The actions of the handlers of a compound statement at its end, for which it is left.
#[cycle(emission)]
fn emit_ending(
    block: &BoundBlock,
    codes: &BlockCodes,
    columns: usize,
    place: &Place,
    draft: &mut Draft,
) -> Result<(), NoMemory>
    ensures { OnOk result (Puts draft.old draft.new (ending_steps block.now codes.now columns
        place.now)) }
{
    if block.handlers.is_empty() {
        return Ok(());
    }
    let exit = code_at(place.exits, place.level);
    put_ending(block.handlers.as_slice(), codes, exit, columns, draft)?;
    grow_by(2, draft)?;
    let at = At {
        here: codes.first,
        next: codes.free,
        columns,
    };
    emit_scope(true, &scope_of(block, place), place.sight, at, place, draft)
}

// What a compound statement raises as a whole, where it can raise, and what handles it.
#[cycle(emission)]
fn emit_whole(
    block: &BoundBlock,
    codes: &BlockCodes,
    at: At,
    place: &Place,
    draft: &mut Draft,
) -> Result<(), NoMemory>
    ensures { OnOk result (Puts draft.old draft.new (whole_steps block.now codes.now at
        place.now)) }
{
    if block.atomic {
        put_sealed(codes.sealing, &spot_of(at), place, draft)?;
        return emit_handled(at, codes.free, place, draft);
    }
    if has_default(block.variables.as_slice()) {
        return emit_handled(at, codes.free, place, draft);
    }
    Ok(())
}
