//! GET DIAGNOSTICS (ISO/IEC 9075-2, 23.1).

ghost use Rattle.std.specs.Prelude.{◌≡◌, map, IfOk, OnOk};
ghost use Rattle.bind_faults.specs.Faults.{noted};
ghost use Rattle.bind_simple.specs.Places.{place_by};
ghost use Rattle.bind_simple.specs.Values.{stored_at};
ghost use Rattle.bind_simple.specs.Storing as spec;

use crate::place::Surroundings;
use crate::target::{Stored, bind_target};
use bind_faults::{Fault, FaultKind, note_if};
use bind_kinds::{Kind, head_of, in_turn};
use bind_names::variable_named;
use bind_sight::Variable;
use bound_trees::{
    BoundArea, BoundConditionItem, BoundConditionRead, BoundDiagnostics, BoundExpr,
    BoundInformation, BoundStatementItem, BoundStatementRead,
};
use sql_values::{NoMemory, Value};
use sqlite_items::Items;
use statement_trees::{
    ConditionItem, ConditionItemName, ConditionNumber, DiagnosticsArea, DiagnosticsInformation,
    GetDiagnostics, StatementItem, StatementItemName,
};
use std::alloc::Global;
use syntax_trees::Ident;

fn area_of(area: DiagnosticsArea) -> BoundArea
    ensures { result ≡ spec.area_of area }
{
    match area {
        DiagnosticsArea::Current => BoundArea::Current,
        DiagnosticsArea::Stacked => BoundArea::Stacked,
    }
}

fn statement_item_of(item: StatementItemName) -> BoundStatementItem
    ensures { result ≡ spec.statement_item_of item }
{
    match item {
        StatementItemName::Number => BoundStatementItem::Number,
        StatementItemName::RowCount => BoundStatementItem::RowCount,
    }
}

fn condition_item_of(item: ConditionItemName) -> BoundConditionItem
    ensures { result ≡ spec.condition_item_of item }
{
    match item {
        ConditionItemName::ReturnedSqlstate => BoundConditionItem::ReturnedSqlstate,
        ConditionItemName::MessageText => BoundConditionItem::MessageText,
    }
}

// A target of the kind of what is read.
fn bind_read(
    kind: Kind,
    ident: &Ident,
    place: &Surroundings<'_>,
    least: &mut Option<Fault>,
) -> Result<Stored, NoMemory>
    ensures value { IfOk result (λ t. t ≡ stored_at ident.now (place_by place.now)) }
    ensures faults { OnOk result (least.new ≡ noted least.old
        (spec.read_faults kind ident.now (place_by place.now))) }
{
    let stored = bind_target(ident, place, least)?;
    in_turn(&[kind], &[head_of(stored.kind, stored.at)], least);
    Ok(stored)
}

fn statement_reads(
    alloc: Global,
    items: &[StatementItem],
    place: &Surroundings<'_>,
    least: &mut Option<Fault>,
) -> Result<Items<BoundStatementRead>, NoMemory>
    ensures value { IfOk result (λ rs. rs ≡ map (spec.statement_read (place_by place.now))
        items.now) }
    ensures faults { OnOk result (least.new ≡ noted least.old
        (spec.statement_faults items.now (place_by place.now))) }
{
    let mut reads = Items::new(alloc);
    for item in items {
        let stored = bind_read(Kind::Integer, &item.target, place, least)?;
        reads.push(BoundStatementRead {
            item: statement_item_of(item.item),
            target: stored.target,
        })?;
    }
    Ok(reads)
}

fn condition_reads(
    alloc: Global,
    items: &[ConditionItem],
    place: &Surroundings<'_>,
    least: &mut Option<Fault>,
) -> Result<Items<BoundConditionRead>, NoMemory>
    ensures value { IfOk result (λ rs. rs ≡ map (spec.condition_read (place_by place.now))
        items.now) }
    ensures faults { OnOk result (least.new ≡ noted least.old
        (spec.condition_faults items.now (place_by place.now))) }
{
    let mut reads = Items::new(alloc);
    for item in items {
        let stored = bind_read(Kind::Text, &item.target, place, least)?;
        reads.push(BoundConditionRead {
            item: condition_item_of(item.item),
            target: stored.target,
        })?;
    }
    Ok(reads)
}

fn note_number(ident: &Ident, found: Option<(usize, Variable)>, least: &mut Option<Fault>)
    ensures { least.new ≡ noted least.old (spec.number_faults ident.now found) }
{
    match found {
        Some((_, variable)) => {
            let head = head_of(variable.kind, ident.anchor);
            in_turn(&[Kind::Integer], &[head], least);
        }
        None => note_if(true, FaultKind::UnknownName, ident.anchor, least),
    }
}

fn slot_in(found: Option<(usize, Variable)>) -> usize
    ensures { result ≡ spec.slot_in found }
{
    match found {
        Some((slot, _)) => slot,
        None => 0,
    }
}

// The number of a condition: a number, or a variable of that kind.
fn bind_number(
    number: &ConditionNumber,
    place: &Surroundings<'_>,
    least: &mut Option<Fault>,
) -> Result<BoundExpr, NoMemory>
    ensures value { IfOk result (λ e. e ≡ spec.number_of number.now (place_by place.now)) }
    ensures faults { OnOk result (least.new ≡ noted least.old
        (spec.faults_of_number number.now (place_by place.now))) }
{
    match number {
        ConditionNumber::Number(_, number) => Ok(BoundExpr::Literal(Value::Int(*number))),
        ConditionNumber::Variable(ident) => {
            let found = variable_named(&ident.name, place.scopes)?;
            note_number(ident, found, least);
            Ok(BoundExpr::Variable(slot_in(found)))
        }
    }
}

fn bind_information(
    alloc: Global,
    information: &DiagnosticsInformation,
    place: &Surroundings<'_>,
    least: &mut Option<Fault>,
) -> Result<BoundInformation, NoMemory>
    ensures value { IfOk result (λ b. b ≡ spec.information_of information.now (place_by place.now)) }
    ensures faults { OnOk result (least.new ≡ noted least.old
        (spec.information_faults information.now (place_by place.now))) }
{
    match information {
        DiagnosticsInformation::Statement(items) => {
            let reads = statement_reads(alloc, items.as_slice(), place, least)?;
            Ok(BoundInformation::Statement(reads))
        }
        DiagnosticsInformation::Condition(number, items) => {
            let number = bind_number(number, place, least)?;
            let reads = condition_reads(alloc, items.as_slice(), place, least)?;
            Ok(BoundInformation::Condition(number, reads))
        }
    }
}

/// A GET DIAGNOSTICS with its names resolved.
pub(crate) fn bind_diagnostics(
    alloc: Global,
    get: &GetDiagnostics,
    place: &Surroundings<'_>,
    least: &mut Option<Fault>,
) -> Result<BoundDiagnostics, NoMemory>
    ensures value { IfOk result (λ b. b ≡ spec.diagnostics_of get.now (place_by place.now)) }
    ensures faults { OnOk result (least.new ≡ noted least.old
        (spec.information_faults get.now.information (place_by place.now))) }
{
    let information = bind_information(alloc, &get.information, place, least)?;
    Ok(BoundDiagnostics {
        area: area_of(get.area),
        information,
    })
}
