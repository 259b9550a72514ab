//! Groups that are finished.

use row_types::Key;
use sql_values::{Value, ValueFault};
use sqlite_items::Items;

/// A group (ISO/IEC 9075-2, 7.13): the values of its grouping columns, and then what each of its
/// aggregates gives, `OutOfRange` where a sum is no INTEGER.
#[derive(Drop)]
pub struct FinishedGroup {
    pub key: Key,
    pub ends: Items<Result<Value, ValueFault>>,
}
