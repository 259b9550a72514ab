//! Changes of a table, one after another: what it holds after each, and once they are taken back to
//! marks. Where many rows change, the table has three blocks.

ghost use Rattle.std.specs.Prelude.{◌≡◌, ◌<◌, ◌≤◌, length, true, IsTrue, IfOk};
ghost use Rattle.std.specs.List.{list_all};
ghost use Rattle.row_types.specs.Rows.{fits as fits_by, has_key_columns};
ghost use Rattle.atomic_undo.specs.Undo.{Belongs};
ghost use Rattle.atomic_undo.specs.Changes.{Climb};
ghost use Rattle.atomic_undo.specs.Applying.{IsFor};

use atomic_undo::{ApplyFault, Changes, Log, Mark, apply, roll_back};
use row_types::{ColumnType, Key, Row, RowType, Steps, fits};
use sql_values::{Name, NoMemory, SqlType, Value};
use sqlite_items::Items;
use std::alloc::Global;
use std::marker::Brand;
use std::sync::ledger::{Blank, Ledger};
use table_store::{Table, Tables};

// So many rows of two numbers: the keys from one on by steps, and beside each key the key and this
// more.
#[derive(Clone, Copy)]
struct Span(i64, i64, usize, i64);

// So many places, from one on by steps.
#[derive(Clone, Copy)]
struct PlaceSpan(usize, usize, usize);

#[derive(Clone, Copy)]
enum Step {
    Insert(Span),
    Update(PlaceSpan, Span),
    Delete(PlaceSpan),
}

fn pair(alloc: Global, key: i64, number: i64) -> Result<Row, NoMemory> {
    let mut row = Items::new(alloc);
    row.push(Value::Int(key))?;
    row.push(Value::Int(number))?;
    Ok(row)
}

fn rows(alloc: Global, span: Span) -> Result<Vec<Row>, NoMemory> {
    let mut rows = Vec::new(alloc);
    let mut key = span.0;
    for _ in 0..span.2 {
        rows.push(pair(alloc, key, key.wrapping_add(span.3))?)?;
        key = key.wrapping_add(span.1);
    }
    Ok(rows)
}

fn places(alloc: Global, places: PlaceSpan) -> Result<Vec<usize>, NoMemory> {
    let mut all = Vec::new(alloc);
    let mut at = places.0;
    for _ in 0..places.2 {
        all.push(at)?;
        at = at.wrapping_add(places.1);
    }
    Ok(all)
}

fn update(alloc: Global, at: PlaceSpan, span: Span) -> Result<Changes, NoMemory> {
    let rows = rows(alloc, span)?;
    Ok(Changes::Update(places(alloc, at)?, rows))
}

fn changes(alloc: Global, step: Step) -> Result<Changes, NoMemory> {
    match step {
        Step::Insert(span) => Ok(Changes::Insert(rows(alloc, span)?)),
        Step::Update(at, span) => update(alloc, at, span),
        Step::Delete(at) => Ok(Changes::Delete(places(alloc, at)?)),
    }
}

fn column(alloc: Global) -> Result<ColumnType, NoMemory> {
    Ok(ColumnType {
        name: Name::folded(alloc, b"a")?,
        data_type: SqlType::Integer,
        not_null: false,
    })
}

// Two columns of numbers, of which the first is the key.
fn pairs(alloc: Global) -> Result<RowType, NoMemory>
    ensures { IfOk result (λ t. IsTrue (has_key_columns t.columns t.key)) }
{
    let mut columns = Items::new(alloc);
    columns.push(column(alloc)?)?;
    columns.push(column(alloc)?)?;
    let mut key = Items::new(alloc);
    key.push(0usize)?;
    Ok(RowType { columns, key })
}

// The only table.
fn one_table(alloc: Global) -> Result<Tables, NoMemory> {
    let mut tables = Tables::new(alloc);
    let table = Table::new(alloc, pairs(alloc)?);
    tables.add_table(Name::folded(alloc, b"t")?, table)?;
    Ok(tables)
}

fn is_pair(row: &Row, key: i64, number: i64) -> bool {
    match (row.get(0), row.get(1)) {
        (Some(Value::Int(k)), Some(Value::Int(n))) => *k == key && *n == number,
        _ => false,
    }
}

// Whether the table has just these rows.
fn has_rows(table: &Table, span: Span) -> bool {
    if table.len() != span.2 {
        return false;
    }
    let mut key = span.0;
    for i in 0..table.len() {
        if !is_pair(table.row_at(i), key, key.wrapping_add(span.3)) {
            return false;
        }
        key = key.wrapping_add(span.1);
    }
    true
}

fn holds(tables: &Tables, span: Span) -> bool {
    tables.len() > 0 && has_rows(tables.table_at(0), span)
}

fn all_fit(table: &Table, rows: &[Row]) -> bool
    ensures { IsTrue result → list_all (fits_by table.now.table.columns table.now.table.key)
        rows.now ≡ true }
{
    for row in rows {
        if !fits(table.columns(), table.key(), row) {
            return false;
        }
    }
    true
}

// Whether places increase below a number.
fn climb(places: &[usize], high: usize) -> bool
    ensures { IsTrue result → Climb 0 places.now high }
{
    let mut low = 0;
    for at in places {
        if *at < low || high <= *at {
            return false;
        }
        low = *at + 1;
    }
    true
}

fn are_for(table: &Table, changes: &Changes) -> bool
    ensures { IsTrue result → IsFor table.now.table changes.now }
{
    match changes {
        Changes::Insert(new) => all_fit(table, new),
        Changes::Update(places, new) => {
            places.len() == new.len() && climb(places, table.len()) && all_fit(table, new)
        }
        Changes::Delete(places) => climb(places, table.len()),
    }
}

// The answer to changes of the table.
fn change(tables: &mut Tables, log: &mut Log, changes: Changes) -> Result<u64, ApplyFault>
    requires { Belongs tables.old.capacities log.old.entries tables.old.tables }
    ensures belongs { Belongs tables.new.capacities log.new.entries tables.new.tables }
    ensures longer { length log.old.entries ≤ length log.new.entries }
{
    if tables.len() == 0 || !are_for(tables.table_at(0), &changes) {
        return Err(ApplyFault::NoMemory);
    }
    apply(tables, log, 0, changes)
}

// A step, its answer, and what the table then holds.
type Worked = (Step, Result<u64, ApplyFault>, Span);

// Whether a step has its answer, and the table then holds what it should.
fn goes(alloc: Global, worked: Worked, tables: &mut Tables, log: &mut Log) -> bool
    requires { Belongs tables.old.capacities log.old.entries tables.old.tables }
    ensures belongs { Belongs tables.new.capacities log.new.entries tables.new.tables }
    ensures longer { length log.old.entries ≤ length log.new.entries }
{
    let (step, answer, after) = worked;
    match changes(alloc, step) {
        Ok(changes) => change(tables, log, changes) == answer && holds(tables, after),
        Err(NoMemory) => false,
    }
}

fn all_go(alloc: Global, steps: &[Worked], tables: &mut Tables, log: &mut Log) -> bool
    requires { Belongs tables.old.capacities log.old.entries tables.old.tables }
    ensures belongs { Belongs tables.new.capacities log.new.entries tables.new.tables }
    ensures longer { length log.old.entries ≤ length log.new.entries }
{
    match steps {
        [] => true,
        [first, more @ ..] => {
            goes(alloc, *first, tables, log) && all_go(alloc, more, tables, log)
        }
    }
}

static FIRST: [Worked; 3] = [
    // out of key order
    (Step::Insert(Span(9, -2, 5, 100)), Ok(5), Span(1, 2, 5, 100)),
    // the keys stay
    (
        Step::Update(PlaceSpan(0, 1, 5), Span(1, 2, 5, 0)),
        Ok(5),
        Span(1, 2, 5, 0),
    ),
    // all keys move
    (
        Step::Update(PlaceSpan(0, 1, 5), Span(2, 2, 5, 0)),
        Ok(5),
        Span(2, 2, 5, 0),
    ),
];

static SECOND: [Worked; 7] = [
    // 9 is new, 8 is there
    (
        Step::Insert(Span(9, -1, 2, 0)),
        Err(ApplyFault::Constraint(6)),
        Span(2, 2, 5, 0),
    ),
    (Step::Delete(PlaceSpan(1, 2, 2)), Ok(2), Span(2, 4, 3, 0)),
    (Step::Insert(Span(4, 4, 2, 0)), Ok(2), Span(2, 2, 5, 0)),
    // the first row becomes the last
    (
        Step::Update(PlaceSpan(0, 1, 1), Span(12, 0, 1, 0)),
        Ok(1),
        Span(4, 2, 5, 0),
    ),
    (
        Step::Update(PlaceSpan(0, 1, 1), Span(8, 0, 1, 0)),
        Err(ApplyFault::Constraint(2)),
        Span(4, 2, 5, 0),
    ),
    (Step::Delete(PlaceSpan(0, 1, 5)), Ok(5), Span(0, 0, 0, 0)),
    (
        Step::Insert(Span(0, 2, 2500, 0)),
        Ok(2500),
        Span(0, 2, 2500, 0),
    ),
];

static THIRD: [Worked; 6] = [
    (
        Step::Delete(PlaceSpan(1, 2, 1250)),
        Ok(1250),
        Span(0, 4, 1250, 0),
    ),
    // the third of the new keys is there
    (
        Step::Insert(Span(2, 3, 1000, 0)),
        Err(ApplyFault::Constraint(1252)),
        Span(0, 4, 1250, 0),
    ),
    (
        Step::Insert(Span(2, 4, 1250, 0)),
        Ok(1250),
        Span(0, 2, 2500, 0),
    ),
    (
        Step::Update(PlaceSpan(0, 1, 2500), Span(1, 2, 2500, 0)),
        Ok(2500),
        Span(1, 2, 2500, 0),
    ),
    // each new key is that of the row after it
    (
        Step::Update(PlaceSpan(0, 2, 1250), Span(3, 4, 1250, 0)),
        Err(ApplyFault::Constraint(1)),
        Span(1, 2, 2500, 0),
    ),
    (
        Step::Delete(PlaceSpan(0, 2, 1250)),
        Ok(1250),
        Span(3, 4, 1250, 0),
    ),
];

// Whether the table holds what it should once changes are taken back to a mark.
fn goes_back(tables: &mut Tables, log: &mut Log, mark: Mark, after: Span) -> bool
    requires mark { mark ≤ length log.old.entries }
    requires belongs { Belongs tables.old.capacities log.old.entries tables.old.tables }
    ensures mark { length log.new.entries ≡ mark }
    ensures belongs { Belongs tables.new.capacities log.new.entries tables.new.tables }
{
    roll_back(tables, log, mark);
    holds(tables, after)
}

// Whether a table that holds what it should after all steps holds, rolled back to each mark, what
// it held there.
fn all_go_back(alloc: Global, tables: &mut Tables, log: &mut Log) -> bool
    requires { Belongs tables.old.capacities log.old.entries tables.old.tables }
{
    let outer = log.mark();
    let first = all_go(alloc, &FIRST, tables, log);
    let middle = log.mark();
    let second = all_go(alloc, &SECOND, tables, log);
    let inner = log.mark();
    let third = all_go(alloc, &THIRD, tables, log);
    let after_second = goes_back(tables, log, inner, Span(0, 2, 2500, 0));
    let after_first = goes_back(tables, log, middle, Span(2, 2, 5, 0));
    let after_none = goes_back(tables, log, outer, Span(0, 0, 0, 0));
    first && second && third && after_second && after_first && after_none
}

fn all(alloc: Global) -> Result<bool, NoMemory> {
    let mut tables = one_table(alloc)?;
    let mut log = Log::new(alloc);
    Ok(all_go_back(alloc, &mut tables, &mut log))
}

#[test]
fn changes_are_made_and_taken_back(rt: HostRuntime) {
    assert!(rt; all(rt.alloc()) == Ok(true));
}

// The place of a key, or else the place to put it.
fn seek(alloc: Global, table: &Table, key: i64) -> Result<Result<usize, usize>, NoMemory> {
    let mut sought = Key::new(alloc);
    sought.push(Value::Int(key))?;
    if table.key().len() != sought.len() {
        return Ok(Err(99));
    }
    Ok(table.find(&sought))
}

// The key of a row that is read as a step.
fn read<L: Ledger>(blank: Blank, table: &Table, at: usize) -> Option<i64>
    requires name { blank.name ≡ L.name }
    requires parts { blank.parts ≡ L.parts }
    requires some { blank.parts ≡ 1 }
{
    let (book, share) = blank.open();
    let mut steps = Steps::<L>::new(book, share);
    if at >= table.len() {
        return None;
    }
    match table.read_row(at, &mut steps).get(0) {
        Some(Value::Int(n)) => Some(*n),
        _ => None,
    }
}

fn read_at(table: &Table, at: usize) -> Option<i64> {
    read::<Brand>(Blank::new(1), table, at)
}

fn finds(alloc: Global, table: &Table) -> bool {
    seek(alloc, table, 6) == Ok(Ok(2))
        && seek(alloc, table, 7) == Ok(Err(3))
        && read_at(table, 3) == Some(8)
        && read_at(table, 5).is_none()
}

fn found(alloc: Global) -> Result<bool, NoMemory> {
    let mut tables = one_table(alloc)?;
    let mut log = Log::new(alloc);
    let filled = all_go(alloc, &FIRST, &mut tables, &mut log);
    Ok(filled && tables.len() > 0 && finds(alloc, tables.table_at(0)))
}

#[test]
fn keys_are_found_and_rows_read(rt: HostRuntime) {
    assert!(rt; found(rt.alloc()) == Ok(true));
}
