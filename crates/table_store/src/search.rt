//! Searching rows by halving.

ghost use Rattle.std.specs.Prelude.{◌≡◌, length, IsTrue};
ghost use Rattle.row_types.specs.Ordered.{rises, searched};
ghost use Rattle.row_types.specs.Rows.{by_key, to_key};

use crate::rows::Rows;
use row_types::{Row, order_by_key, order_to_key};
use sql_values::Value;
use std::cmp::Ordering;

/// Where the key of a row stands among rows in key order, or the place to put the row.
pub fn place_of(rows: &Rows, row: &Row, key: &[usize]) -> Result<usize, usize>
    requires { IsTrue (rises (by_key key.now) rows.now.rows) }
    ensures { result ≡ searched (λ r. by_key key.now r row.now) rows.now.rows }
{
    let mut low = 0;
    let mut high = rows.len();
    while low < high {
        let middle = low + (high - low) / 2;
        match order_by_key(rows.row_at(middle), row, key) {
            Ordering::Less => low = middle + 1,
            Ordering::Equal => return Ok(middle),
            Ordering::Greater => high = middle,
        }
    }
    Err(low)
}

/// Where a key stands among rows in key order, or the place to put a row with it.
pub fn find(rows: &Rows, sought: &[Value], key: &[usize]) -> Result<usize, usize>
    requires order { IsTrue (rises (by_key key.now) rows.now.rows) }
    requires whole { length key.now ≡ length sought.now }
    ensures { result ≡ searched (to_key key.now sought.now) rows.now.rows }
{
    let mut low = 0;
    let mut high = rows.len();
    while low < high {
        let middle = low + (high - low) / 2;
        match order_to_key(rows.row_at(middle), key, sought) {
            Ordering::Less => low = middle + 1,
            Ordering::Equal => return Ok(middle),
            Ordering::Greater => high = middle,
        }
    }
    Err(low)
}
