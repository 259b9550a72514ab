//! The operators and comparisons that scripts write.

ghost use Rattle.std.specs.Prelude.{◌≡◌};
ghost use Rattle.sql_values.specs.Operators.{applied, compared, allows};
ghost use Rattle.sql_values.specs.Values.{UnlessNoMemory};

use crate::{Value, ValueFault, add, cmp, concat, div, mul, sub};
use std::alloc::Global;
use std::cmp::Ordering;

/// An operator of two operands: of numbers (ISO/IEC 9075-2, 6.27), or of texts.
#[derive(Clone, Copy, Debug, PartialEq, Eq)]
pub enum Operator {
    Add,
    Subtract,
    Multiply,
    Divide,
    /// `||` (ISO/IEC 9075-2, 6.29).
    Concatenate,
}

/// A comparison operator (ISO/IEC 9075-2, 8.2).
#[derive(Clone, Copy, Debug, PartialEq, Eq)]
pub enum Comparison {
    Equals,
    NotEquals,
    LessThan,
    LessThanOrEquals,
    GreaterThan,
    GreaterThanOrEquals,
}

impl Operator {
    /// What the operator gives of two values; its faults are those of the operation.
    pub fn apply(self, alloc: Global, a: &Value, b: &Value) -> Result<Value, ValueFault>
        ensures { UnlessNoMemory result (result ≡ applied self a.now b.now) }
    {
        match self {
            Operator::Add => add(a, b),
            Operator::Subtract => sub(a, b),
            Operator::Multiply => mul(a, b),
            Operator::Divide => div(a, b),
            Operator::Concatenate => concat(alloc, a, b),
        }
    }
}

impl Comparison {
    /// The truth value of the comparison of two values; unknown, which is NULL, exactly where one
    /// of them is NULL.
    pub fn of(self, a: &Value, b: &Value) -> Value
        ensures { result ≡ compared self a.now b.now }
    {
        match cmp(a, b) {
            Some(order) => Value::Bool(self.allows(order)),
            None => Value::Null,
        }
    }

    // Whether the comparison is true of two values in this order.
    fn allows(self, order: Ordering) -> bool
        ensures { result ≡ allows self order }
    {
        match self {
            Comparison::Equals => order == Ordering::Equal,
            Comparison::NotEquals => order != Ordering::Equal,
            Comparison::LessThan => order == Ordering::Less,
            Comparison::LessThanOrEquals => order != Ordering::Greater,
            Comparison::GreaterThan => order == Ordering::Greater,
            Comparison::GreaterThanOrEquals => order != Ordering::Less,
        }
    }
}
