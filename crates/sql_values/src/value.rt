//! Values, their types, and the faults of operations on them.

ghost use Rattle.std.specs.Prelude.{◌≡◌, IfOk};

use sql_texts::{NoMemory, Text};
use std::alloc::AllocError;

/// The type of a column, a parameter or a result (ISO/IEC 9075-2, 6.1).
#[derive(Clone, Copy, Debug, PartialEq, Eq)]
pub enum SqlType {
    /// Whole numbers from -2^63 to 2^63-1.
    Integer,
    /// Texts of at most so many characters, from 1 to `MOST_TEXT`.
    Varchar(usize),
    /// Truth values.
    Boolean,
}

/// A value, or NULL. An unknown truth value is NULL.
#[derive(Debug, Default, Drop, PartialEq)]
pub enum Value {
    /// The null value, which every type has.
    #[default]
    Null,
    /// A whole number.
    Int(i64),
    /// A text.
    Str(Text),
    /// A truth value.
    Bool(bool),
}

impl Value {
    ghost use Rattle.sql_values.specs.Values.{is_null as is_null_by};

    /// Whether it is NULL.
    pub fn is_null(&self) -> bool
        ensures { result ≡ is_null_by self.now }
    {
        match self {
            Value::Null => true,
            _ => false,
        }
    }

    /// The same value once more; a text's characters are shared.
    pub fn copied(&self) -> Result<Value, NoMemory>
        ensures { IfOk result (λ v. v ≡ self.now) }
    {
        Ok(match self {
            Value::Null => Value::Null,
            Value::Int(number) => Value::Int(*number),
            Value::Str(text) => Value::Str(text.copied()?),
            Value::Bool(truth) => Value::Bool(*truth),
        })
    }
}

/// Why an operation gives no value.
#[derive(Clone, Copy, Debug, PartialEq, Eq)]
pub enum ValueFault {
    /// A text is longer than its type, or than a text may be.
    TooLong,
    /// The exact result is no INTEGER.
    OutOfRange,
    /// A divisor is zero.
    DivZero,
    /// A text doesn't spell a value of the type.
    BadCast,
    /// The length of a substring is below zero.
    BadSubstring,
    /// No memory was there.
    NoMemory,
}

impl From<NoMemory> for ValueFault {
    ghost use Rattle.std.specs.Prelude.{◌≡◌};
    ghost use Rattle.sql_values.specs.declared.value.ValueFault.TheVariants.{NoMemory as WantOfMemory};

    ghost from_gives = { λ e f. f ≡ WantOfMemory };

    fn from(_: NoMemory) -> ValueFault {
        ValueFault::NoMemory
    }
}

impl From<AllocError> for ValueFault {
    ghost use Rattle.std.specs.Prelude.{◌≡◌};
    ghost use Rattle.sql_values.specs.declared.value.ValueFault.TheVariants.{NoMemory as WantOfMemory};

    ghost from_gives = { λ e f. f ≡ WantOfMemory };

    fn from(_: AllocError) -> ValueFault {
        ValueFault::NoMemory
    }
}
