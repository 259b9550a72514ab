//! Lists of variables and cursors that gain and lose a tail.

ghost use Rattle.std.specs.Prelude.{◌≡◌, ◌++◌, ◌∷◌, [], IfOk, OnOk, OnErr, replicate, take, drop};
ghost use Rattle.std.specs.Prelude.{length, reverse};
ghost use Rattle.rel_algebra.specs.World.{Closed};

use crate::cursor::Cursor;
use row_types::Row;
use smallvec::SmallVec;
use sql_values::{NoMemory, Value};
use sqlite_items::Items;
use std::alloc::Global;

// Puts copies of a value at the end, until memory is wanting.
fn push_copies(values: &mut SmallVec<Value, 4>, count: usize, value: &Value) -> Result<(), NoMemory>
    ensures ok { OnOk result
        (values.new.items ≡ values.old.items ++ replicate count value.now) }
    ensures front { take (length values.old.items) values.new.items ≡ values.old.items }
{
    for _done in 0..count {
        values.push(value.copied()?)?;
    }
    Ok(())
}

// Puts copies of values at the end, until memory is wanting.
fn push_all(values: &mut SmallVec<Value, 4>, more: &[Value]) -> Result<(), NoMemory>
    ensures ok { OnOk result (values.new.items ≡ values.old.items ++ more.now) }
    ensures front { take (length values.old.items) values.new.items ≡ values.old.items }
{
    for value in more {
        values.push(value.copied()?)?;
    }
    Ok(())
}

/// So many copies of a value at the end. Without memory the values stay.
pub fn fill(values: &mut SmallVec<Value, 4>, count: usize, value: &Value) -> Result<(), NoMemory>
    ensures ok { OnOk result
        (values.new.items ≡ values.old.items ++ replicate count value.now) }
    ensures err { OnErr result (values.new.items ≡ values.old.items) }
{
    let before = values.len();
    let pushed = push_copies(values, count, value);
    if pushed.is_err() {
        values.truncate(before);
    }
    pushed
}

/// Copies of values at the end. Without memory the values stay.
pub fn extend(values: &mut SmallVec<Value, 4>, more: &[Value]) -> Result<(), NoMemory>
    ensures ok { OnOk result (values.new.items ≡ values.old.items ++ more.now) }
    ensures err { OnErr result (values.new.items ≡ values.old.items) }
{
    let before = values.len();
    let pushed = push_all(values, more);
    if pushed.is_err() {
        values.truncate(before);
    }
    pushed
}

/// Copies of the values after the first so many.
pub fn tail_of(alloc: Global, values: &[Value], count: usize) -> Result<Vec<Value>, NoMemory>
    ensures { IfOk result (λ v. v.items ≡ drop count values.now) }
{
    let mut tail = Vec::new(alloc);
    if count < values.len() {
        for value in &values[count..] {
            tail.push(value.copied()?)?;
        }
    }
    Ok(tail)
}

/// So many closed cursors at the end. Without memory the cursors stay.
pub fn close_more(cursors: &mut Vec<Cursor>, count: usize) -> Result<(), NoMemory>
    ensures ok { OnOk result (cursors.new.items ≡ cursors.old.items ++ replicate count Closed) }
    ensures err { OnErr result (cursors.new.items ≡ cursors.old.items) }
{
    cursors.reserve(count)?;
    for _done in 0..count {
        cursors.push_reserved(Cursor::closed());
    }
    Ok(())
}

/// Takes away the cursors after the first so many. Without memory all stay.
pub fn split_after(
    alloc: Global,
    cursors: &mut Vec<Cursor>,
    count: usize,
) -> Result<Vec<Cursor>, NoMemory>
    ensures ok { OnOk result (cursors.new.items ≡ take count cursors.old.items) }
    ensures tail { IfOk result (λ t. t.items ≡ drop count cursors.old.items) }
    ensures err { OnErr result (cursors.new.items ≡ cursors.old.items) }
{
    let mut tail = Vec::new(alloc);
    if count < cursors.len() {
        tail.reserve(cursors.len() - count)?;
        while count < cursors.len() {
            tail.push_reserved(cursors.take_last());
        }
        tail.reverse();
    }
    Ok(tail)
}

/// Rows, the first one last.
pub fn turned(alloc: Global, mut rows: Items<Row>) -> Result<Vec<Row>, NoMemory>
    ensures { IfOk result (λ v. reverse v.items ≡ rows) }
{
    let mut left = Vec::with_capacity(alloc, rows.len())?;
    while let Some(row) = rows.pop() {
        left.push(row)?;
    }
    Ok(left)
}
