//! How often a name stands in two items, and at which place of a row (ISO/IEC 9075-2, 6.6).

ghost use Rattle.std.specs.Prelude.{◌≡◌, ◌-◌, IfOk};
ghost use Rattle.std.specs.Str.{bytes_eq};
ghost use Rattle.bind_sight.specs.Columns as spec;

use bind_sight::Hit;
use sql_values::{Name, NoMemory};

/// The one of two items, or neither.
pub(crate) fn together(first: Hit, second: Hit) -> Hit
    ensures { result ≡ spec.together first second }
{
    match first {
        Hit::Nowhere => second,
        Hit::Once(_, _) => match second {
            Hit::Nowhere => first,
            Hit::Once(_, _) | Hit::Twice => Hit::Twice,
        },
        Hit::Twice => Hit::Twice,
    }
}

/// The first, if the name stands there.
pub(crate) fn or_else(first: Hit, second: Hit) -> Hit
    ensures { result ≡ spec.or_else first second }
{
    match first {
        Hit::Nowhere => second,
        Hit::Once(_, _) | Hit::Twice => first,
    }
}

/// A column further to the right.
pub(crate) fn moved(hit: Hit, by: usize) -> Result<Hit, NoMemory>
    ensures { IfOk result (λ h. h ≡ spec.moved by hit) }
{
    match hit {
        Hit::Once(place, kind) => match by.checked_add(place) {
            Some(place) => Ok(Hit::Once(place, kind)),
            None => Err(NoMemory),
        },
        Hit::Nowhere | Hit::Twice => Ok(hit),
    }
}

/// The place of an item's first column in the row of a level that begins at a column.
pub fn place_in_row(first: usize, base: usize) -> usize
    ensures { result ≡ first - base }
{
    first.saturating_sub(base)
}

/// Whether two names are the same.
pub(crate) fn same(first: &Name, second: &Name) -> bool
    ensures { result ≡ bytes_eq first.now second.now }
{
    first == second
}
