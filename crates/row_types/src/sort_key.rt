//! The order of rows by some of their columns.

ghost use Rattle.std.specs.Prelude.{◌≡◌, slice_index_or};
ghost use Rattle.sql_values.specs.declared.value.Value.TheVariants.{Null};
ghost use Rattle.row_types.specs.Sorting.{key_cmp, keys_cmp};

use crate::order::order_at;
use crate::row::Row;
use std::cmp::Ordering;

/// A column by which rows are ordered (ISO/IEC 9075-2, 10.10): its place, and whether the order is
/// descending. NULL comes first, and last in a descending order.
#[derive(Clone, Copy, Debug, PartialEq, Eq)]
pub struct SortKey {
    pub place: usize,
    pub descending: bool,
}

// The order of two rows by one column.
fn order_by(a: &Row, b: &Row, key: SortKey) -> Ordering
    ensures { result ≡ key_cmp key a.now b.now }
{
    if key.descending {
        order_at(b, a, key.place)
    } else {
        order_at(a, b, key.place)
    }
}

/// The order of two rows: the first of these columns in which they differ decides.
pub fn order_by_keys(a: &Row, b: &Row, keys: &[SortKey]) -> Ordering
    ensures { result ≡ keys_cmp keys.now a.now b.now }
{
    for key in keys {
        let order = order_by(a, b, *key);
        if order != Ordering::Equal {
            return order;
        }
    }
    Ordering::Equal
}
