//! Lists in the text of a node: columns, aggregates, sort keys, and rows of scalars.

ghost use Rattle.std.specs.Prelude.{◌≡◌, ◌++◌, ◌-◌, map, codes, OnOk};
ghost use Rattle.std.specs.List.{flat_map};
ghost use Rattle.rel_algebra.specs.Joins.{places as places_from};
ghost use Rattle.rel_algebra.specs.PlanView.{aggregates_of, lists_of};
ghost use Rattle.plan_text.specs.ScalarText.{after, comma, place_text, separated, spaced};
ghost use Rattle.plan_text.specs.PlanLines.{aggregate_text, fold_text, key_text, row_text};

use crate::put::put_place;
use crate::scalars::put_scalars;
use rel_algebra::{ColumnPlaces, KeptPlaces, ScalarRow};
use reply_text::put;
use row_types::{AggregateColumn, SortKey};
use sql_values::{FoldKind, NoMemory};

/// Writes columns, with commas between them.
pub(crate) fn put_places(text: &mut Vec<u8>, places: &[usize]) -> Result<(), NoMemory>
    ensures { OnOk result (text.new.items ≡ text.old.items ++ separated comma
        (map place_text places.now)) }
{
    match places {
        [first, more @ ..] => {
            put_place(text, *first)?;
            put_more_places(text, more)
        }
        [] => Ok(()),
    }
}

// Writes columns, each after a comma.
fn put_more_places(text: &mut Vec<u8>, places: &[usize]) -> Result<(), NoMemory>
    ensures { OnOk result (text.new.items ≡ text.old.items ++ flat_map (after comma)
        (map place_text places.now)) }
{
    for place in places {
        put(text, b", ")?;
        put_place(text, *place)?;
    }
    Ok(())
}

// Writes columns after a space, where there are any.
fn put_listed(text: &mut Vec<u8>, places: &[usize]) -> Result<(), NoMemory>
    ensures { OnOk result (text.new.items ≡ text.old.items ++ spaced comma
        (map place_text places.now)) }
{
    match places {
        [_, ..] => {
            put(text, b" ")?;
            put_places(text, places)
        }
        [] => Ok(()),
    }
}

// Writes the first so many columns but the very first, each after a comma.
fn put_more_front(text: &mut Vec<u8>, count: usize) -> Result<(), NoMemory>
    ensures { OnOk result (text.new.items ≡ text.old.items ++ flat_map (after comma)
        (map place_text (places_from 1 (count - 1)))) }
{
    for place in 1..count {
        put(text, b", ")?;
        put_place(text, place)?;
    }
    Ok(())
}

// Writes the first so many columns after a space, where there are any.
fn put_front(text: &mut Vec<u8>, count: usize) -> Result<(), NoMemory>
    ensures { OnOk result (text.new.items ≡ text.old.items ++ spaced comma
        (map place_text (places_from 0 count))) }
{
    if count == 0 {
        return Ok(());
    }
    put(text, b" ")?;
    put_place(text, 0)?;
    put_more_front(text, count)
}

/// Writes columns after a space, where there are any.
pub(crate) fn put_place_list(text: &mut Vec<u8>, places: &ColumnPlaces) -> Result<(), NoMemory>
    ensures { OnOk result (text.new.items ≡ text.old.items ++ spaced comma
        (map place_text places.now)) }
{
    match places.as_kept() {
        KeptPlaces::Listed(list) => put_listed(text, list),
        KeptPlaces::Front(count) => put_front(text, count),
    }
}

// The word of an aggregate.
fn fold_word(kind: FoldKind) -> &'static str
    ensures { result.now ≡ fold_text kind }
{
    match kind {
        FoldKind::Count => "count",
        FoldKind::Sum => "sum",
        FoldKind::Avg => "avg",
        FoldKind::Min => "min",
        FoldKind::Max => "max",
    }
}

// Writes an aggregate of a column.
fn put_aggregate(text: &mut Vec<u8>, aggregate: AggregateColumn) -> Result<(), NoMemory>
    ensures { OnOk result (text.new.items ≡ text.old.items ++ aggregate_text
        (aggregate.kind, aggregate.place)) }
{
    put(text, fold_word(aggregate.kind).as_bytes())?;
    put(text, b" ")?;
    put_place(text, aggregate.place)
}

// Writes aggregates, each after a comma.
fn put_more_aggregates(text: &mut Vec<u8>, aggregates: &[AggregateColumn]) -> Result<(), NoMemory>
    ensures { OnOk result (text.new.items ≡ text.old.items ++ flat_map (after comma)
        (map aggregate_text (aggregates_of aggregates.now))) }
{
    for aggregate in aggregates {
        put(text, b", ")?;
        put_aggregate(text, *aggregate)?;
    }
    Ok(())
}

/// Writes aggregates after a space, where there are any.
pub(crate) fn put_aggregate_list(
    text: &mut Vec<u8>,
    aggregates: &[AggregateColumn],
) -> Result<(), NoMemory>
    ensures { OnOk result (text.new.items ≡ text.old.items ++ spaced comma
        (map aggregate_text (aggregates_of aggregates.now))) }
{
    match aggregates {
        [first, more @ ..] => {
            put(text, b" ")?;
            put_aggregate(text, *first)?;
            put_more_aggregates(text, more)
        }
        [] => Ok(()),
    }
}

// Writes a column by which rows are ordered.
fn put_key(text: &mut Vec<u8>, key: SortKey) -> Result<(), NoMemory>
    ensures { OnOk result (text.new.items ≡ text.old.items ++ key_text key) }
{
    put_place(text, key.place)?;
    if key.descending {
        put(text, b" desc")
    } else {
        put(text, b" asc")
    }
}

// Writes such columns, each after a comma.
fn put_more_keys(text: &mut Vec<u8>, keys: &[SortKey]) -> Result<(), NoMemory>
    ensures { OnOk result (text.new.items ≡ text.old.items ++ flat_map (after comma)
        (map key_text keys.now)) }
{
    for key in keys {
        put(text, b", ")?;
        put_key(text, *key)?;
    }
    Ok(())
}

/// Writes such columns after a space, where there are any.
pub(crate) fn put_key_list(text: &mut Vec<u8>, keys: &[SortKey]) -> Result<(), NoMemory>
    ensures { OnOk result (text.new.items ≡ text.old.items ++ spaced comma
        (map key_text keys.now)) }
{
    match keys {
        [first, more @ ..] => {
            put(text, b" ")?;
            put_key(text, *first)?;
            put_more_keys(text, more)
        }
        [] => Ok(()),
    }
}

// Writes rows of scalars, each after a semicolon.
fn put_more_rows(text: &mut Vec<u8>, rows: &[ScalarRow]) -> Result<(), NoMemory>
    ensures { OnOk result (text.new.items ≡ text.old.items ++ flat_map (after (codes "; "))
        (map row_text (lists_of rows.now))) }
{
    for row in rows {
        put(text, b"; ")?;
        put_scalars(row.scalars.as_slice(), text)?;
    }
    Ok(())
}

/// Writes rows of scalars after a space, where there are any.
pub(crate) fn put_row_list(text: &mut Vec<u8>, rows: &[ScalarRow]) -> Result<(), NoMemory>
    ensures { OnOk result (text.new.items ≡ text.old.items ++ spaced (codes "; ")
        (map row_text (lists_of rows.now))) }
{
    match rows {
        [first, more @ ..] => {
            put(text, b" ")?;
            put_scalars(first.scalars.as_slice(), text)?;
            put_more_rows(text, more)
        }
        [] => Ok(()),
    }
}
