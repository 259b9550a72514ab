//! Expressions.

ghost use Rattle.std.specs.Prelude.{true, false, map};
ghost use Rattle.std.specs.Option.{option_copied};
ghost use Rattle.sql_values.specs.declared.value.Value.TheVariants.{Bool as Truth};
ghost use Rattle.rel_algebra.specs.Meaning.{ev, ev_and, ev_or, ev_case, ev_coalesce, ev_links};
ghost use Rattle.rel_algebra.specs.Meaning.{ev_args};
ghost use Rattle.catalog_store.specs.View.{operated};
ghost use Rattle.run_expressions.specs.Content.{world_of};
ghost use Rattle.run_expressions.specs.Ending.{Ended};
ghost use Rattle.run_choices.specs.Sight.{seen};
ghost use Rattle.run_choices.specs.Words.{passes_by};
ghost use Rattle.routine_views.specs.Views.{expr_in};
ghost use Rattle.run_places.specs.Places.{known_of, self_of};
ghost use Rattle.run_places.specs.Views.{exprs_in, links_in};

use crate::calls::call;
use crate::queries::answer_query;
use bound_trees::{BoundExpr, BoundLink, BoundOperation};
use run_expressions::{
    Arguments, Frame, RowsInSight, Stop, World, column, is_false, is_true, passes,
};
use run_operands::at_once;
use run_places::Place;
use run_rows::{applied, exists_of, member_of, single_of, value_of, with_argument};
use sql_values::{SqlType, Value};

/// The value of an expression (ISO/IEC 9075-2, 6.25), by the rows of the queries around it, the
/// innermost first, and the frame. Operands and arguments are evaluated from left to right. A
/// subquery (7.19) is evaluated to its end before its rows are judged.
#[cycle(run)]
pub fn eval(
    expr: &BoundExpr,
    rows: &RowsInSight,
    frame: &Frame,
    world: &mut World,
    place: &Place,
) -> Result<Value, Stop>
    ensures { Ended world.old world.new result
        (ev (expr_in (known_of place.now) expr.now) (self_of place.now) (seen rows.now) frame.now (world_of world.old)) }
{
    match at_once(world.allocator(), expr, rows, frame) {
        Some(value) => value,
        None => eval_node(expr, rows, frame, world, place),
    }
}

// The same, by the parts of the expression.
#[cycle(run)]
fn eval_node(
    expr: &BoundExpr,
    rows: &RowsInSight,
    frame: &Frame,
    world: &mut World,
    place: &Place,
) -> Result<Value, Stop>
    ensures { Ended world.old world.new result
        (ev (expr_in (known_of place.now) expr.now) (self_of place.now) (seen rows.now) frame.now (world_of world.old)) }
{
    match expr {
        BoundExpr::Literal(value) => Ok(value.copied()?),
        BoundExpr::Column(level, at) => Ok(column(rows, *level, *at)?),
        BoundExpr::Variable(slot) => Ok(frame.variable(*slot)?),
        BoundExpr::Operation(operation, operands) => {
            operate(*operation, operands.as_slice(), rows, frame, world, place)
        }
        BoundExpr::Chain(first, links) => {
            let value = eval(first.get(), rows, frame, world, place)?;
            eval_links(links.as_slice(), value, rows, frame, world, place)
        }
        BoundExpr::Call(name, arguments) => {
            call(name, arguments.as_slice(), rows, frame, world, place)
        }
        BoundExpr::Single(query) => {
            single_of(answer_query(query.get(), rows, frame, world, place))
        }
        BoundExpr::Exists(query) => {
            exists_of(answer_query(query.get(), rows, frame, world, place))
        }
        BoundExpr::In(operand, query) => {
            let value = eval(operand.get(), rows, frame, world, place)?;
            let found = answer_query(query.get(), rows, frame, world, place);
            member_of(value, found)
        }
    }
}

// A word with its operands. Most words take the values of all of them; the others stop where they
// are decided. CASE evaluates its operand once.
#[cycle(run)]
fn operate(
    operation: BoundOperation,
    operands: &[BoundExpr],
    rows: &RowsInSight,
    frame: &Frame,
    world: &mut World,
    place: &Place,
) -> Result<Value, Stop>
    ensures { Ended world.old world.new result
        (ev (operated operation (map (expr_in (known_of place.now)) operands.now)) (self_of place.now)
        (seen rows.now) frame.now (world_of world.old)) }
{
    if !operation.takes(operands.len()) {
        return Ok(Value::Null);
    }
    match operation {
        BoundOperation::And => and(operands, rows, frame, world, place),
        BoundOperation::Or => or(operands, rows, frame, world, place),
        BoundOperation::Coalesce => coalesce(operands, rows, frame, world, place),
        BoundOperation::Case => case(operands, None, rows, frame, world, place),
        BoundOperation::CaseOf => match operands {
            [operand, arms @ ..] => {
                let value = eval(operand, rows, frame, world, place)?;
                case(arms, Some(&value), rows, frame, world, place)
            }
            [] => Ok(Value::Null),
        },
        _ => {
            let values = eval_arguments(operands, &[], rows, frame, world, place);
            value_of(world.allocator(), operation, values)
        }
    }
}

// AND, up to the first operand that is false.
#[cycle(run)]
fn and(
    operands: &[BoundExpr],
    rows: &RowsInSight,
    frame: &Frame,
    world: &mut World,
    place: &Place,
) -> Result<Value, Stop>
    ensures { Ended world.old world.new result
        (ev_and (exprs_in (known_of place.now) operands.now) (Truth true) (self_of place.now) (seen rows.now) frame.now
        (world_of world.old)) }
{
    let mut so_far = Value::Bool(true);
    for operand in operands {
        let value = eval(operand, rows, frame, world, place)?;
        if is_false(&value) {
            return Ok(Value::Bool(false));
        }
        if !is_true(&value) {
            so_far = Value::Null;
        }
    }
    Ok(so_far)
}

// OR, up to the first operand that is true.
#[cycle(run)]
fn or(
    operands: &[BoundExpr],
    rows: &RowsInSight,
    frame: &Frame,
    world: &mut World,
    place: &Place,
) -> Result<Value, Stop>
    ensures { Ended world.old world.new result
        (ev_or (exprs_in (known_of place.now) operands.now) (Truth false) (self_of place.now) (seen rows.now) frame.now
        (world_of world.old)) }
{
    let mut so_far = Value::Bool(false);
    for operand in operands {
        let value = eval(operand, rows, frame, world, place)?;
        if is_true(&value) {
            return Ok(Value::Bool(true));
        }
        if !is_false(&value) {
            so_far = Value::Null;
        }
    }
    Ok(so_far)
}

// The first operand that isn't NULL.
#[cycle(run)]
fn coalesce(
    operands: &[BoundExpr],
    rows: &RowsInSight,
    frame: &Frame,
    world: &mut World,
    place: &Place,
) -> Result<Value, Stop>
    ensures { Ended world.old world.new result
        (ev_coalesce (exprs_in (known_of place.now) operands.now) (self_of place.now) (seen rows.now) frame.now
        (world_of world.old)) }
{
    for operand in operands {
        let value = eval(operand, rows, frame, world, place)?;
        if !value.is_null() {
            return Ok(value);
        }
    }
    Ok(Value::Null)
}

// Tests and results in turn, and perhaps a last result: the first result whose test passes. A test
// is a truth value, or is compared with the operand's value.
#[cycle(run)]
fn case(
    arms: &[BoundExpr],
    operand: Option<&Value>,
    rows: &RowsInSight,
    frame: &Frame,
    world: &mut World,
    place: &Place,
) -> Result<Value, Stop>
    ensures { Ended world.old world.new result
        (ev_case (exprs_in (known_of place.now) arms.now) (passes_by (option_copied operand.entry)) (self_of place.now)
        (seen rows.now) frame.now (world_of world.old)) }
{
    let mut at = 0;
    while arms.len() - at >= 2 {
        let test = eval(&arms[at], rows, frame, world, place)?;
        if passes(operand, &test) {
            return eval(&arms[at + 1], rows, frame, world, place);
        }
        at += 2;
    }
    if at < arms.len() {
        eval(&arms[at], rows, frame, world, place)
    } else {
        Ok(Value::Null)
    }
}

// Goes on from the value of what stands left.
#[cycle(run)]
fn eval_links(
    links: &[BoundLink],
    first: Value,
    rows: &RowsInSight,
    frame: &Frame,
    world: &mut World,
    place: &Place,
) -> Result<Value, Stop>
    ensures { Ended world.old world.new result
        (ev_links (links_in (known_of place.now) links.now) first (self_of place.now) (seen rows.now) frame.now
        (world_of world.old)) }
{
    let mut value = first;
    for link in links {
        let operand = eval(&link.operand, rows, frame, world, place);
        value = applied(world.allocator(), link.operator, value, operand)?;
    }
    Ok(value)
}

/// The values of arguments, each assigned to its parameter before the next is evaluated; without
/// parameters the values themselves.
#[cycle(run)]
pub fn eval_arguments(
    arguments: &[BoundExpr],
    parameters: &[SqlType],
    rows: &RowsInSight,
    frame: &Frame,
    world: &mut World,
    place: &Place,
) -> Result<Arguments, Stop>
    ensures { Ended world.old world.new result
        (ev_args (exprs_in (known_of place.now) arguments.now) parameters.now (self_of place.now)
        (seen rows.now) frame.now (world_of world.old)) }
{
    let mut values = Arguments::new(world.allocator());
    for (at, argument) in arguments.iter().enumerate() {
        let value = eval(argument, rows, frame, world, place);
        values = with_argument(world.allocator(), values, value, parameters, at)?;
    }
    Ok(values)
}
