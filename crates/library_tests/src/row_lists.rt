//! Rows of plans go through a list in their order, and each read is a step.

ghost use Rattle.std.specs.Prelude.{◌≡◌};

use row_types::{
    Cell, Outer, PlanRow, RowEnd, RowList, Steps, ValuesInSight, copied_cell, gathered, outer_cell,
};
use sql_conditions::{Area, Condition, EngineCondition};
use sql_values::{NoMemory, Value};
use sqlite_items::{Boxed, Items};
use std::alloc::Global;
use std::marker::Brand;
use std::mem::size_of;
use std::sync::ledger::{Blank, Ledger};
use std::test::Fail;

fn divided_by_zero(alloc: Global) -> Result<Boxed<Area>, NoMemory> {
    let area = Area::of(Condition::of(EngineCondition::DivisionByZero));
    Ok(Boxed::new(alloc, area)?)
}

// What a row has at its end: a number for one value, the state for an area.
fn told(alloc: Global, row: PlanRow) -> Result<Option<i64>, NoMemory> {
    match row.into_end(alloc)? {
        RowEnd::Values(values) => match values.get(0) {
            Some(Value::Int(number)) => Ok(Some(*number)),
            _ => Ok(None),
        },
        RowEnd::Raised(_) => Ok(Some(-1)),
    }
}

// A row of 7, one of an area after 8, and a poisoned one.
fn three(alloc: Global) -> Result<RowList, NoMemory> {
    let mut rows = RowList::with_capacity(alloc, 1)?;
    let mut cells = [Cell::Val(Value::Int(7))];
    rows.push(gathered(alloc, &ValuesInSight::none(), &mut cells)?)?;
    let mut cells = [Cell::Cond(divided_by_zero(alloc)?)];
    let eight = [Value::Int(8)];
    rows.push(gathered(alloc, &ValuesInSight::of(eight.as_slice()), &mut cells)?)?;
    rows.push(PlanRow::poisoned(divided_by_zero(alloc)?))?;
    Ok(rows)
}

// What each row tells, and how many steps reading them took.
fn read_all<L: Ledger>(blank: Blank, alloc: Global) -> Result<Items<i64>, NoMemory>
    requires name { blank.name ≡ L.name }
    requires parts { blank.parts ≡ L.parts }
    requires some { blank.parts ≡ 1 }
{
    let (book, share) = blank.open();
    let mut steps = Steps::<L>::new(book, share);
    let mut rows = three(alloc)?;
    let mut told_by = Items::new(alloc);
    if rows.len() > 1 && rows.at(1, &mut steps).first_area().is_some() {
        told_by.push(100)?;
    }
    for _ in 0..4 {
        match rows.take_first(&mut steps) {
            Some(row) => told_by.push(told(alloc, row)?.unwrap_or(0))?,
            None => told_by.push(50)?,
        }
    }
    Ok(told_by)
}

fn read_branded(alloc: Global) -> Result<Items<i64>, NoMemory> {
    read_all::<Brand>(Blank::new(1), alloc)
}

// The cell at place 2 of a row that stands outside, next to the row that is read.
fn third(
    alloc: Global,
    values: &[Value],
    cells: &[Cell],
    further: &Outer,
) -> Result<Cell, NoMemory> {
    let outer = Outer::Under(&*values, &[], &*cells, &*further);
    outer_cell(alloc, &outer, 0, 2)
}

fn column(alloc: Global) -> Result<Cell, NoMemory> {
    let values = [Value::Int(1), Value::Int(2)];
    let cells = [Cell::Val(Value::Int(3))];
    copied_cell(alloc, &third(alloc, &values, &cells, &Outer::Outermost)?)
}

#[test]
fn rows_come_in_order(rt: HostRuntime) -> Result<(), Fail> {
    let told_by = read_branded(rt.alloc()).ok().ok_or("no memory")?;
    assert!(rt; told_by.as_slice() == [100, 7, -1, -1, 50].as_slice());
    assert!(rt; matches!(column(rt.alloc()), Ok(Cell::Val(Value::Int(3)))));
    assert!(rt; size_of::<Value>() <= 16);
    assert!(rt; size_of::<Cell>() <= 32);
    Ok(())
}
