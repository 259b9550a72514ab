//! Truth values and their connectives (ISO/IEC 9075-2, 6.39). Total, and without memory.

ghost use Rattle.std.specs.Prelude.{◌≡◌};
ghost use Rattle.three_valued.specs.Truths.{conjunction, disjunction, negation, truth_of_value};
ghost use Rattle.three_valued.specs.Truths.{value_of_truth};

use sql_values::Value;

/// A truth value.
#[derive(Clone, Copy, Debug, PartialEq, Eq)]
pub enum Truth {
    True,
    False,
    Unknown,
}

impl Truth {
    /// The truth value that a BOOLEAN is; NULL is unknown.
    pub fn of_value(value: &Value) -> Truth
        ensures { result ≡ truth_of_value value.now }
    {
        match value {
            Value::Bool(true) => Truth::True,
            Value::Bool(false) => Truth::False,
            _ => Truth::Unknown,
        }
    }

    /// The BOOLEAN that a truth value is; an unknown one is NULL.
    pub fn to_value(self) -> Value
        ensures { result ≡ value_of_truth self }
    {
        match self {
            Truth::True => Value::Bool(true),
            Truth::False => Value::Bool(false),
            Truth::Unknown => Value::Null,
        }
    }
}

/// AND: false where a side is false, else unknown where a side is unknown.
pub fn and(a: Truth, b: Truth) -> Truth
    ensures { result ≡ conjunction a b }
{
    match (a, b) {
        (Truth::False, _) => Truth::False,
        (_, Truth::False) => Truth::False,
        (Truth::True, Truth::True) => Truth::True,
        _ => Truth::Unknown,
    }
}

/// OR: true where a side is true, else unknown where a side is unknown.
pub fn or(a: Truth, b: Truth) -> Truth
    ensures { result ≡ disjunction a b }
{
    match (a, b) {
        (Truth::True, _) => Truth::True,
        (_, Truth::True) => Truth::True,
        (Truth::False, Truth::False) => Truth::False,
        _ => Truth::Unknown,
    }
}

/// NOT: unknown stays unknown.
pub fn not(a: Truth) -> Truth
    ensures { result ≡ negation a }
{
    match a {
        Truth::True => Truth::False,
        Truth::False => Truth::True,
        Truth::Unknown => Truth::Unknown,
    }
}
