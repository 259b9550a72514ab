//! GET DIAGNOSTICS (ISO/IEC 9075-2, 23.1): what is read of a diagnostics area, and where it is
//! stored.

ghost use Rattle.std.specs.Prelude.{◌≡◌, IfOk, OnErr, map};
ghost use Rattle.std.specs.Option.{option_copied, option_map};
ghost use Rattle.rel_algebra.specs.Diagnostics.{condition_item as condition_item_by};
ghost use Rattle.rel_algebra.specs.Diagnostics.{reading_of as reading_by};
ghost use Rattle.rel_algebra.specs.Diagnostics.{statement_item as statement_item_by};
ghost use Rattle.routine_views.specs.Views.{condition_item_of, condition_read, statement_item_of};
ghost use Rattle.routine_views.specs.Views.{statement_read, target as target_of, which_area};
ghost use Rattle.run_choices.specs.Ending.{TellsAnywhere};
ghost use Rattle.run_places.specs.Blocks.{made};
ghost use Rattle.run_places.specs.Getting.{condition_targets, condition_values as values_by};
ghost use Rattle.run_places.specs.Getting.{gets, number_in, numbered_in, of_condition, reading_in};
ghost use Rattle.run_places.specs.Getting.{reads_into};
ghost use Rattle.run_places.specs.Getting.{statement_targets, statement_values as all_by};
ghost use Rattle.run_places.specs.Getting.{targets_read, values_read};

use crate::passing::{taken, values_vec};
use bound_trees::{
    BoundArea, BoundConditionItem, BoundConditionRead, BoundDiagnostics, BoundExpr,
    BoundInformation, BoundStatementItem, BoundStatementRead, BoundTarget,
};
use run_choices::Raise;
use run_expressions::{Frame, Stop};
use sql_conditions::{Condition, EngineCondition};
use sql_values::{NoMemory, Value};
use sqlite_items::Items;
use std::alloc::Global;

// The conditions that are read, and ROW_COUNT.
#[derive(Clone, Copy)]
struct Reading<'a> {
    raise: &'a Raise,
    row_count: u64,
}

// What is read by CURRENT, and by STACKED, which has no ROW_COUNT; outside of an action there are no
// stacked conditions.
fn reading_of<'a>(
    which: BoundArea,
    stacked: Option<&'a Raise>,
    frame: &'a Frame,
) -> Option<Reading<'a>>
    ensures { option_map reading_in result
        ≡ reading_by (which_area which) (option_copied stacked.entry) frame.now }
{
    match (which, stacked) {
        (BoundArea::Current, _) => Some(Reading {
            raise: frame.current(),
            row_count: frame.row_count(),
        }),
        (BoundArea::Stacked, Some(raise)) => Some(Reading {
            raise,
            row_count: 0,
        }),
        (BoundArea::Stacked, None) => None,
    }
}

// ---- values

// NUMBER or ROW_COUNT. A count that is no INTEGER finds no room.
fn statement_item(item: BoundStatementItem, reading: &Reading) -> Result<Value, NoMemory>
    ensures { IfOk result
        (λ v. v ≡ statement_item_by (reading_in reading.now) (statement_item_of item)) }
{
    match item {
        BoundStatementItem::Number => Ok(Value::Int(reading.raise.len() as i64)),
        BoundStatementItem::RowCount => match i64::try_from(reading.row_count) {
            Ok(count) => Ok(Value::Int(count)),
            Err(_) => Err(NoMemory),
        },
    }
}

// RETURNED_SQLSTATE or MESSAGE_TEXT.
fn condition_item(
    alloc: Global,
    item: BoundConditionItem,
    condition: &Condition,
) -> Result<Value, NoMemory>
    ensures { IfOk result (λ v. v ≡ condition_item_by condition.now (condition_item_of item)) }
{
    match item {
        BoundConditionItem::ReturnedSqlstate => Ok(Value::Str(condition.state.to_text(alloc)?)),
        BoundConditionItem::MessageText => Ok(Value::Str(condition.message.to_text(alloc)?)),
    }
}

// The condition of a number, from one on.
fn condition_of(number: &Option<Value>, raise: &Raise) -> Result<Option<Condition>, NoMemory>
    ensures { IfOk result (λ c. c ≡ numbered_in number.now raise.now) }
{
    match number {
        Some(Value::Int(number)) => {
            if *number < 1 {
                return Ok(None);
            }
            raise.condition((*number - 1) as usize)
        }
        _ => Ok(None),
    }
}

// The values of items of an area as a whole.
fn statement_values(
    alloc: Global,
    reading: &Reading,
    reads: &[BoundStatementRead],
) -> Result<Items<Value>, NoMemory>
    ensures { IfOk result
        (λ vs. vs ≡ all_by (reading_in reading.now) (map statement_read reads.now)) }
{
    let mut values = Items::new(alloc);
    for read in reads {
        values.push(statement_item(read.item, reading)?)?;
    }
    Ok(values)
}

// The values of items of a condition.
fn condition_values(
    alloc: Global,
    condition: &Condition,
    reads: &[BoundConditionRead],
) -> Result<Items<Value>, NoMemory>
    ensures { IfOk result (λ vs. vs ≡ values_by condition.now (map condition_read reads.now)) }
{
    let mut values = Items::new(alloc);
    for read in reads {
        values.push(condition_item(alloc, read.item, condition)?)?;
    }
    Ok(values)
}

// The values of items of the condition of a number; with a number of no condition it raises 35000.
fn numbered_values(
    alloc: Global,
    number: &Option<Value>,
    raise: &Raise,
    reads: &[BoundConditionRead],
) -> Result<Items<Value>, Stop>
    ensures { TellsAnywhere result
        (of_condition (numbered_in number.now raise.now) (map condition_read reads.now)) }
{
    match condition_of(number, raise)? {
        Some(condition) => Ok(condition_values(alloc, &condition, reads)?),
        None => Err(Stop::of(EngineCondition::InvalidConditionNumber)),
    }
}

// The values that are read. Without an area that is read it raises 0Z002.
fn values_of(
    alloc: Global,
    statement: &BoundDiagnostics,
    number: &Option<Value>,
    stacked: Option<&Raise>,
    frame: &Frame,
) -> Result<Items<Value>, Stop>
    ensures { TellsAnywhere result (values_read (option_copied stacked.entry) statement.now.area
        statement.now.information number.now frame.now) }
{
    match reading_of(statement.area, stacked, frame) {
        Some(reading) => match &statement.information {
            BoundInformation::Statement(reads) => {
                Ok(statement_values(alloc, &reading, reads.as_slice())?)
            }
            BoundInformation::Condition(_, reads) => {
                numbered_values(alloc, number, reading.raise, reads.as_slice())
            }
        },
        None => Err(Stop::of(EngineCondition::StackedWithoutHandler)),
    }
}

// ---- where they go

// The variables of items of an area as a whole.
fn statement_variables(
    alloc: Global,
    reads: &[BoundStatementRead],
) -> Result<Vec<BoundTarget>, NoMemory>
    ensures { IfOk result
        (λ ts. map target_of ts.items ≡ statement_targets (map statement_read reads.now)) }
{
    let mut targets = Vec::new(alloc);
    for read in reads {
        targets.push(read.target)?;
    }
    Ok(targets)
}

// The variables of items of a condition.
fn condition_variables(
    alloc: Global,
    reads: &[BoundConditionRead],
) -> Result<Vec<BoundTarget>, NoMemory>
    ensures { IfOk result
        (λ ts. map target_of ts.items ≡ condition_targets (map condition_read reads.now)) }
{
    let mut targets = Vec::new(alloc);
    for read in reads {
        targets.push(read.target)?;
    }
    Ok(targets)
}

// The variables into which is stored what is read.
fn variables_read(
    alloc: Global,
    information: &BoundInformation,
) -> Result<Vec<BoundTarget>, NoMemory>
    ensures { IfOk result (λ ts. map target_of ts.items ≡ targets_read information.now) }
{
    match information {
        BoundInformation::Statement(reads) => statement_variables(alloc, reads.as_slice()),
        BoundInformation::Condition(_, reads) => condition_variables(alloc, reads.as_slice()),
    }
}

// All values are converted, and then stored; the diagnostics stay.
fn store_read(
    alloc: Global,
    targets: &[BoundTarget],
    values: &[Value],
    frame: &mut Frame,
) -> Result<(), Stop>
    ensures ends { TellsAnywhere (made result frame.new)
        (reads_into (map target_of targets.now) values.now frame.old) }
    ensures kept { OnErr result (frame.new ≡ frame.old) }
{
    let converted = taken(alloc, targets, values)?;
    let converted = values_vec(alloc, converted)?;
    frame.put(targets, converted);
    Ok(())
}

// ---- the statement

/// The number that GET DIAGNOSTICS evaluates, where it evaluates one: outside of an action it
/// evaluates nothing for stacked conditions.
pub fn number_of<'a>(
    statement: &'a BoundDiagnostics,
    stacked: Option<&Raise>,
) -> Option<&'a BoundExpr>
    ensures { option_copied result
        ≡ number_in (option_copied stacked.entry) statement.now.area statement.now.information }
{
    match &statement.information {
        BoundInformation::Statement(_) => None,
        BoundInformation::Condition(number, _) => match (statement.area, stacked) {
            (BoundArea::Current, _) => Some(number),
            (BoundArea::Stacked, Some(_)) => Some(number),
            (BoundArea::Stacked, None) => None,
        },
    }
}

/// What GET DIAGNOSTICS reads goes into its variables, by its number, where it has one. All is read
/// and converted before anything is stored.
pub fn get(
    alloc: Global,
    statement: &BoundDiagnostics,
    number: &Option<Value>,
    stacked: Option<&Raise>,
    frame: &mut Frame,
) -> Result<(), Stop>
    ensures ends { TellsAnywhere (made result frame.new) (gets (option_copied stacked.entry)
        statement.now.area statement.now.information number.now frame.old) }
    ensures kept { OnErr result (frame.new ≡ frame.old) }
{
    let values = values_of(alloc, statement, number, stacked, frame)?;
    let targets = variables_read(alloc, &statement.information)?;
    store_read(alloc, targets.as_slice(), values.as_slice(), frame)
}
