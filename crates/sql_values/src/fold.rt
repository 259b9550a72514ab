//! Aggregates of values that are taken one by one (ISO/IEC 9075-2, 10.9). Nulls are skipped.

ghost use Rattle.std.specs.Prelude.{◌≡◌, ◌<◌, ◌-◌, ◌^◌, pos};
ghost use Rattle.sql_values.specs.Values.{ranged as ranged_by};

use crate::extremes::{number_in, replaces};
use crate::{Value, ValueFault};
use std::marker::Model;

/// Which aggregate of the values is made.
#[derive(Clone, Copy, Debug, PartialEq, Eq)]
pub enum FoldKind {
    /// How many values aren't NULL.
    Count,
    Sum,
    /// The sum by the count, cut towards zero.
    Avg,
    Min,
    Max,
}

// A sum as an INTEGER.
fn ranged(sum: i128) -> Result<Value, ValueFault>
    ensures { result ≡ ranged_by sum }
{
    match i64::try_from(sum) {
        Ok(number) => Ok(Value::Int(number)),
        Err(_) => Err(ValueFault::OutOfRange),
    }
}

/// The aggregate of the values that it took so far. Contracts see what it keeps of them; of a list
/// of values that is `taken kind values`, and the law `folds_are_of_lists` says that it finishes as
/// the aggregate of the list.
#[derive(Debug, Drop)]
pub struct Fold {
    kind: FoldKind,
    count: u64,
    total: i128,
    best: Value,
}

impl Model for Fold {
    ghost use Rattle.sql_values.specs.Folds.{Taken, IsTotalOf};

    ghost Value = { Taken };

    ghost view = { λ f. record { kind = f.kind; count = f.count; total = f.total; best = f.best } };

    ghost invariant = { λ f. IsTotalOf f.count f.total };
}

impl Fold {
    ghost use Rattle.sql_values.specs.Folds.{nothing, with_value, finished};

    /// The aggregate of nothing.
    pub fn new(kind: FoldKind) -> Fold
        ensures { result ≡ nothing kind }
    {
        Fold {
            kind,
            count: 0,
            total: 0,
            best: Value::Null,
        }
    }

    /// Takes one value more. A NULL is skipped.
    pub fn take(&mut self, value: Value)
        requires { self.old.count < 2 ^ 63 - 1 }
        ensures { self.new ≡ with_value self.old value }
    {
        if value.is_null() {
            return;
        }
        self.count += 1;
        self.total += number_in(&value) as i128;
        if replaces(self.kind, &self.best, &value) {
            self.best = value;
        }
    }

    /// The aggregate. `OutOfRange` comes exactly where a sum is no INTEGER.
    pub fn finish(self) -> Result<Value, ValueFault>
        ensures { result ≡ finished self }
    {
        match self.kind {
            FoldKind::Count => Ok(Value::Int(self.count as i64)),
            FoldKind::Min => Ok(self.best),
            FoldKind::Max => Ok(self.best),
            _ if self.count == 0 => Ok(Value::Null),
            FoldKind::Sum => ranged(self.total),
            FoldKind::Avg => ranged(self.total / self.count as i128),
        }
    }
}
