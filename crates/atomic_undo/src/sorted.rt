//! New rows in key order, so that each goes in after the last where the table has no greater key.

ghost use Rattle.std.specs.Prelude.{◌≡◌, ◌<◌, ◌++◌, drop, length, pos, slice_index_or, IfOk};
ghost use Rattle.std.specs.Prelude.{IsTrue, None, true};
ghost use Rattle.std.specs.List.{All, IsDistinct};
ghost use Rattle.std.specs.List.Sorted.{IsPermutation};
ghost use Rattle.std.specs.Ordering.{is_lt};
ghost use Rattle.row_types.specs.Ordered.{searched, first_repeat, is_below_first, rises};
ghost use Rattle.row_types.specs.Rows.{by_key};
ghost use Rattle.table_store.specs.Kept.{IsKept};
ghost use Rattle.atomic_undo.specs.Sorting.{abbreviated as abbreviated_by};
ghost use Rattle.atomic_undo.specs.Sorting.{abbreviated_key as abbreviated_key_by};
ghost use Rattle.atomic_undo.specs.Sorting.{is_without_texts as is_without_texts_by};
ghost use Rattle.atomic_undo.specs.Sorting.{is_abbreviated_whole as is_abbreviated_whole_by};
ghost use Rattle.atomic_undo.specs.Sorting.{numbered_from, by_abbreviated, rows_at as rows_at_by};
ghost use Rattle.atomic_undo.specs.Sorting.{have_one_place, IsOrder, PutAlike};

use row_types::{Row, order_by_key};
use sql_values::{NoMemory, SqlType, Text, Value};
use sqlite_items::Items;
use std::alloc::Global;
use std::cmp::Ordering;
use std::mem;
use table_store::Table;

/// The place of a new row among the new ones, and its key abbreviated: a number that rises with the
/// key's first value, which most comparisons need alone.
#[derive(Clone, Copy, Drop)]
pub struct Placed {
    pub place: usize,
    pub abbreviated: i64,
}

/// Rows, and whether it is known that their keys rise.
#[derive(Drop)]
pub struct InOrder {
    pub rows: Vec<Row>,
    pub rise: bool,
}

// Whether the key of one row is below that of another.
fn is_below(a: &Row, b: &Row, key: &[usize]) -> bool
    ensures { result ≡ is_lt (by_key key.now a.now b.now) }
{
    match order_by_key(a, b, key) {
        Ordering::Less => true,
        Ordering::Equal => false,
        Ordering::Greater => false,
    }
}

// Whether the keys of rows rise.
fn do_rise(rows: &[Row], key: &[usize]) -> bool
    ensures { result ≡ rises (by_key key.now) rows.now }
{
    let mut i = 1;
    while i < rows.len() {
        if !is_below(&rows[i - 1], &rows[i], key) {
            return false;
        }
        i += 1;
    }
    true
}

/// Whether rows whose keys rise go on rising after those of a table.
pub fn rise_after(table: &Table, rows: &[Row]) -> bool
    requires { rises (by_key table.now.table.key) rows.now ≡ true }
    ensures { result ≡ rises (by_key table.now.table.key) (table.now.table.rows ++ rows.now) }
{
    let count = table.len();
    if count == 0 {
        return true;
    }
    if rows.len() == 0 {
        return true;
    }
    is_below(table.row_at(count - 1), &rows[0], table.key())
}

/// Where the key of a row stands; `Err` is the place to put the row, found without a search where
/// its key is above all.
pub fn place_in(table: &Table, row: &Row) -> Result<usize, usize>
    ensures place { result ≡ searched (λ r. by_key table.now.table.key r row.now)
        table.now.table.rows }
    ensures kept { IsKept table.now }
{
    let count = table.len();
    if count > 0 && is_below(table.row_at(count - 1), row, table.key()) {
        return Err(count);
    }
    table.place_of(row)
}

// The first character of a text as a number; 0 where it has none.
fn first_character(text: &Text) -> i64
    ensures { result ≡ pos (slice_index_or text.now 0 0) }
{
    match text.as_str().chars().next() {
        Some(character) => character as i64,
        None => 0,
    }
}

// A number that rises with a value, among the values of a column that takes no NULL. Texts of one
// first character have one number.
fn abbreviated(value: &Value) -> i64
    ensures { result ≡ abbreviated_by value.now }
{
    match value {
        Value::Null => 0,
        Value::Bool(truth) => *truth as i64,
        Value::Int(number) => *number,
        Value::Str(text) => first_character(text),
    }
}

// The number of the first value of a row's key.
fn abbreviated_key(row: &Row, key: &[usize]) -> i64
    ensures { result ≡ abbreviated_key_by key.now row.now }
{
    let Some(place) = key.get(0) else {
        return 0;
    };
    match row.get(*place) {
        Some(value) => abbreviated(value),
        None => 0,
    }
}

// The places of rows, with their keys abbreviated.
fn numbered(alloc: Global, rows: &[Row], key: &[usize]) -> Result<Vec<Placed>, NoMemory>
    ensures { IfOk result (λ v. v.items ≡ numbered_from key.now 0 rows.now) }
{
    let mut placed = Vec::with_capacity(alloc, rows.len())?;
    for (place, row) in rows.iter().enumerate() {
        let abbreviated = abbreviated_key(row, key);
        placed.push_reserved(Placed { place, abbreviated });
    }
    Ok(placed)
}

// The order of the rows at two places by their keys. Where the abbreviated keys differ, the rows
// aren't looked at.
fn order_placed(a: &Placed, b: &Placed, rows: &[Row], key: &[usize]) -> Ordering
    ensures { a.now.place < length rows.now → b.now.place < length rows.now →
        result ≡ by_abbreviated key.now rows.now a.now b.now }
{
    match a.abbreviated.cmp(&b.abbreviated) {
        Ordering::Less => Ordering::Less,
        Ordering::Equal => match (rows.get(a.place), rows.get(b.place)) {
            (Some(x), Some(y)) => order_by_key(x, y, key),
            _ => Ordering::Equal,
        },
        Ordering::Greater => Ordering::Greater,
    }
}

// Whether a type has no texts.
fn is_without_texts(data_type: SqlType) -> bool
    ensures { result ≡ is_without_texts_by data_type }
{
    match data_type {
        SqlType::Varchar(_) => false,
        _ => true,
    }
}

// Whether abbreviated keys say all that the keys do: a key of one column, which has no texts.
fn is_abbreviated_whole(table: &Table) -> bool
    ensures { result ≡ is_abbreviated_whole_by table.now.table.columns table.now.table.key }
{
    let key = table.key();
    if key.len() != 1 {
        return false;
    }
    match table.columns().get(key[0]) {
        Some(column) => is_without_texts(column.data_type),
        None => false,
    }
}

// The places of rows, sorted by the keys of the rows. Where the abbreviated keys say all, nothing
// else is looked at.
fn sorted_places(
    alloc: Global,
    rows: &[Row],
    key: &[usize],
    by_abbreviated_alone: bool,
) -> Result<Vec<Placed>, NoMemory>
    ensures { IfOk result (λ v. IsOrder key.now rows.now v.items) }
{
    let mut placed = numbered(alloc, rows, key)?;
    if by_abbreviated_alone {
        placed.sort_by_key(|one| one.abbreviated)?;
    } else {
        placed.sort_by(|a, b| order_placed(a, b, rows, key))?;
    }
    Ok(placed)
}

// Whether the key of a row is below that of the row at the next place, if there is one.
fn is_below_next(row: &Row, rows: &[Row], placed: &[Placed], next: usize, key: &[usize]) -> bool
    requires { All (λ p. p.place < length rows.now) placed.now }
    ensures { result ≡ is_below_first (by_key key.now) row.now
        (rows_at_by rows.now (drop next placed.now)) }
{
    if next < placed.len() {
        is_below(row, &rows[placed[next].place], key)
    } else {
        true
    }
}

// Whether the keys of the rows at places rise and none of them stands in the table. The places are
// gone through from the last.
fn may_go_in(table: &Table, rows: &[Row], placed: &[Placed]) -> bool
    requires { All (λ p. p.place < length rows.now) placed.now }
    ensures once { IsTrue result → first_repeat (by_key table.now.table.key)
        (table.now.table.rows ++ rows_at_by rows.now placed.now) ≡ None }
    ensures rise { IsTrue result → rises (by_key table.now.table.key)
        (rows_at_by rows.now placed.now) ≡ true }
{
    let _rows = table.len();
    let mut i = placed.len();
    while i > 0 {
        i -= 1;
        let row = &rows[placed[i].place];
        if place_in(table, row).is_ok() {
            return false;
        }
        if !is_below_next(row, rows, placed, i + 1, table.key()) {
            return false;
        }
    }
    true
}

// The rows at places, in turn. Each place is there, and none comes twice.
fn rows_at(alloc: Global, rows: Vec<Row>, placed: &[Placed]) -> Result<Vec<Row>, NoMemory>
    requires there { All (λ p. p.place < length rows.items) placed.now }
    requires once { IsDistinct have_one_place placed.now }
    ensures { IfOk result (λ v. v.items ≡ rows_at_by rows.items placed.now) }
{
    let mut taken = Vec::with_capacity(alloc, placed.len())?;
    let mut left = rows;
    for one in placed {
        let row = mem::replace(&mut left[one.place], Items::new(alloc));
        taken.push_reserved(row);
    }
    Ok(taken)
}

// New rows in key order; where a key stands twice, in their own order.
fn in_key_order(alloc: Global, table: &Table, new: Vec<Row>) -> Result<InOrder, NoMemory>
    ensures moved { IfOk result (λ v. IsPermutation new.items v.rows.items) }
    ensures alike { IfOk result (λ v. PutAlike (by_key table.now.table.key) table.now.table.rows
        v.rows.items new.items) }
    ensures rise { IfOk result (λ v. IsTrue v.rise →
        rises (by_key table.now.table.key) v.rows.items ≡ true) }
{
    let _rows = table.len();
    let placed = sorted_places(alloc, &new, table.key(), is_abbreviated_whole(table))?;
    if may_go_in(table, &new, &placed) {
        let rows = rows_at(alloc, new, &placed)?;
        Ok(InOrder { rows, rise: true })
    } else {
        Ok(InOrder {
            rows: new,
            rise: false,
        })
    }
}

/// New rows whose keys rise as they are, or else in key order; where a key stands twice, in their
/// own order.
pub fn rising_rows(alloc: Global, table: &Table, new: Vec<Row>) -> Result<InOrder, NoMemory>
    ensures moved { IfOk result (λ v. IsPermutation new.items v.rows.items) }
    ensures alike { IfOk result (λ v. PutAlike (by_key table.now.table.key) table.now.table.rows
        v.rows.items new.items) }
    ensures rise { IfOk result (λ v. IsTrue v.rise →
        rises (by_key table.now.table.key) v.rows.items ≡ true) }
{
    if do_rise(&new, table.key()) {
        return Ok(InOrder {
            rows: new,
            rise: true,
        });
    }
    in_key_order(alloc, table, new)
}
