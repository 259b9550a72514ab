//! Arguments.

ghost use Rattle.std.specs.Prelude.{◌≡◌, [], ◌∷◌, ◌++◌, OnOk, OnErr};

use smallvec::SmallVec;
use sql_values::{NoMemory, Value};
use std::alloc::Global;
use std::marker::Model;

/// The values of a call's arguments. Up to four need no memory.
#[derive(Drop)]
pub struct Arguments {
    values: SmallVec<Value, 4>,
}

impl Model for Arguments {
    ghost use Rattle.std.specs.Prelude.{List};
    ghost use Rattle.sql_values.specs.declared.value.Value.{Value as SqlValue};

    ghost Value = { List SqlValue };

    ghost view = { λ a. a.values.items };
}

impl Arguments {
    /// No arguments.
    pub fn new(alloc: Global) -> Arguments
        ensures { result ≡ [] }
    {
        Arguments {
            values: SmallVec::new(alloc),
        }
    }

    /// One value more. Without memory the arguments stay.
    pub fn push(&mut self, value: Value) -> Result<(), NoMemory>
        ensures ok { OnOk result (self.new ≡ self.old ++ value ∷ []) }
        ensures err { OnErr result (self.new ≡ self.old) }
    {
        self.values.push(value)?;
        Ok(())
    }

    /// The values.
    pub fn as_slice(&self) -> &[Value]
        ensures { result.now ≡ self.now }
    {
        self.values.as_slice()
    }

    /// The values, as a list that grows and shrinks.
    pub(crate) fn into_values(self) -> SmallVec<Value, 4>
        ensures { result.items ≡ self }
    {
        self.values
    }
}
