//! What a column of a query's row stands for, in its group too (ISO/IEC 9075-2, 7.13).

ghost use Rattle.std.specs.Prelude.{◌≡◌, position};
ghost use Rattle.std.specs.List.{list_any};
ghost use Rattle.bind_sight.specs.Sight as spec;

use crate::hits::same;
use bind_kinds::Kind;
use bind_sight::{GroupingKey, Referent};
use sql_values::Name;

fn is_own(key: &GroupingKey, place: usize) -> bool
    ensures { result ≡ spec.is_own place key.now }
{
    match key {
        GroupingKey::Own(own) => *own == place,
        GroupingKey::Guessed(_, _) | GroupingKey::Other => false,
    }
}

fn is_guess(key: &GroupingKey, item: usize, name: &Name) -> bool
    ensures { result ≡ spec.is_guess item name.now key.now }
{
    match key {
        GroupingKey::Guessed(own, known) => *own == item && same(known, name),
        GroupingKey::Own(_) | GroupingKey::Other => false,
    }
}

fn key_place(keys: &[GroupingKey], place: usize) -> Option<usize>
    ensures { result ≡ position (spec.is_own place) keys.now }
{
    keys.iter().position(|key| is_own(key, place))
}

fn has_guess(keys: &[GroupingKey], item: usize, name: &Name) -> bool
    ensures { result ≡ list_any (spec.is_guess item name.now) keys.now }
{
    keys.iter().any(|key| is_guess(key, item, name))
}

/// What a column of a query's row stands for, by how many queries outwards it is, its place and its
/// kind. In a group it is one of the grouping columns, by its place among these, or barred.
pub fn column_of(
    level: usize,
    place: usize,
    kind: Kind,
    grouped: bool,
    keys: &[GroupingKey],
) -> Referent
    ensures { result ≡ spec.column_of level place kind grouped keys.now }
{
    if !grouped {
        return Referent::Column(level, place, kind);
    }
    match key_place(keys, place) {
        Some(place) => Referent::Column(level, place, kind),
        None => Referent::Barred,
    }
}

/// What a column of an item that is not known stands for.
pub(crate) fn guess_of(
    level: usize,
    item: usize,
    name: &Name,
    grouped: bool,
    keys: &[GroupingKey],
) -> Referent
    ensures { result ≡ spec.guess_of level item name.now grouped keys.now }
{
    if !grouped {
        return Referent::Guessed(level, item);
    }
    if has_guess(keys, item, name) {
        Referent::Guessed(level, item)
    } else {
        Referent::Barred
    }
}
