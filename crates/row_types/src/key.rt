//! Keys.

ghost use Rattle.std.specs.Prelude.{◌≡◌, [], ◌∷◌, ◌++◌, OnOk, OnErr, length, fold};
ghost use Rattle.row_types.specs.Groups.{same_value as same_value_by, same_row};
ghost use Rattle.row_types.specs.Keys.{value_writes, values_writes};

use crate::order::order_of;
use smallvec::SmallVec;
use sql_values::{NoMemory, Value};
use std::alloc::Global;
use std::cmp::Ordering;
use std::hash::{Hash, Hasher};
use std::marker::Model;

/// A key: a value for each key column. Up to four need no memory.
#[derive(Drop)]
pub struct Key {
    parts: SmallVec<Value, 4>,
}

impl Model for Key {
    ghost use Rattle.std.specs.Prelude.{List};
    ghost use Rattle.sql_values.specs.declared.value.Value.{Value as SqlValue};

    ghost Value = { List SqlValue };

    ghost view = { λ k. k.parts.items };
}

impl Key {
    /// A key of no values.
    pub fn new(alloc: Global) -> Key
        ensures { result ≡ [] }
    {
        Key {
            parts: SmallVec::new(alloc),
        }
    }

    /// One value more. Without memory the key stays.
    pub fn push(&mut self, value: Value) -> Result<(), NoMemory>
        ensures ok { OnOk result (self.new ≡ self.old ++ value ∷ []) }
        ensures err { OnErr result (self.new ≡ self.old) }
    {
        self.parts.push(value)?;
        Ok(())
    }

    /// The number of values.
    pub fn len(&self) -> usize
        ensures { result ≡ length self.now }
    {
        self.parts.len()
    }

    /// The values.
    pub fn as_slice(&self) -> &[Value]
        ensures { result.now ≡ self.now }
    {
        self.parts.as_slice()
    }
}

// Whether two values are the same; NULL is the same as NULL.
fn same_value(a: &Value, b: &Value) -> bool
    ensures { result ≡ same_value_by a.now b.now }
{
    order_of(a, b) == Ordering::Equal
}

// Whether two lists of values are the same.
fn same_values(a: &[Value], b: &[Value]) -> bool
    ensures { result ≡ same_row a.now b.now }
{
    if a.len() != b.len() {
        return false;
    }
    for (i, value) in a.iter().enumerate() {
        if !same_value(value, &b[i]) {
            return false;
        }
    }
    true
}

// Feeds a value to a hasher.
fn hash_value<H: Hasher>(value: &Value, state: &mut H)
    ensures { state.new ≡ fold H.write state.old (value_writes value.now) }
{
    match value {
        Value::Null => state.write_u8(2),
        Value::Bool(truth) => truth.hash(state),
        Value::Int(number) => number.hash(state),
        Value::Str(text) => text.as_str().hash(state),
    }
}

// Feeds values to a hasher, one after another.
fn hash_values<H: Hasher>(values: &[Value], state: &mut H)
    ensures { state.new ≡ fold H.write state.old (values_writes values.now) }
{
    for value in values {
        hash_value(value, state);
    }
}

/// Keys are the same where their values are; NULL is the same as NULL here.
impl PartialEq for Key {
    ghost use Rattle.row_types.specs.Groups.{same_row};
    ghost use Rattle.row_types.specs.SameKeys.{same_row_equiv};
    ghost use Rattle.std.specs.Cmp as Cmp;

    ghost eq = { same_row };

    ghost laws = { Cmp.partial_equiv_from_equiv same_row_equiv };

    fn eq(&self, other: &Key) -> bool {
        same_values(self.as_slice(), other.as_slice())
    }
}

impl Eq for Key {
    ghost use Rattle.row_types.specs.SameKeys.{same_row_equiv};

    ghost laws = { same_row_equiv };
}

impl Hash for Key {
    ghost use Rattle.row_types.specs.Keys.{values_writes};
    ghost use Rattle.row_types.specs.SameKeys.{same_rows_alike};

    ghost hash_input = { values_writes };

    ghost respects_eq = { same_rows_alike };

    fn hash<H: Hasher>(&self, state: &mut H) {
        hash_values(self.as_slice(), state);
    }
}
