//! Why a run gives nothing.

ghost use Rattle.std.specs.Prelude.{◌≡◌};

use crate::Raise;
use atomic_undo::ApplyFault;
use sql_conditions::EngineCondition;
use sql_values::{NoMemory, ValueFault};
use std::alloc::{AllocError, AllocFailed};
use std::mem::size_of;

/// Why a run gives nothing.
#[derive(Debug, Drop)]
pub enum Stop {
    /// Conditions are raised.
    Raised(Raise),
    /// No turn was left.
    Spent,
    /// No memory was there.
    NoMemory,
}

const _: () = prove!(size_of::<Stop>() <= 24);

impl Stop {
    ghost use Rattle.std.specs.Prelude.{◌≡◌};
    ghost use Rattle.sql_conditions.specs.Conditions.{area_of};
    ghost use Rattle.run_choices.specs.declared.stop.Stop.TheVariants.{Raised};

    /// The engine raises a condition.
    pub fn of(condition: EngineCondition) -> Stop
        ensures { result ≡ Raised (area_of condition) }
    {
        Stop::Raised(Raise::of(condition))
    }
}

/// A fault of values raises its condition; want of memory stops the run.
impl From<ValueFault> for Stop {
    ghost use Rattle.std.specs.Prelude.{◌≡◌};
    ghost use Rattle.run_choices.specs.Faults.{stopped_by};

    ghost from_gives = { λ fault s. s ≡ stopped_by fault };

    fn from(fault: ValueFault) -> Stop {
        match fault {
            ValueFault::TooLong => Stop::of(EngineCondition::StringTooLong),
            ValueFault::OutOfRange => Stop::of(EngineCondition::NumberOutOfRange),
            ValueFault::DivZero => Stop::of(EngineCondition::DivisionByZero),
            ValueFault::BadCast => Stop::of(EngineCondition::InvalidTextForCast),
            ValueFault::BadSubstring => Stop::of(EngineCondition::SubstringError),
            ValueFault::NoMemory => Stop::NoMemory,
        }
    }
}

/// A table refuses a change where a key would stand twice.
impl From<ApplyFault> for Stop {
    ghost use Rattle.std.specs.Prelude.{◌≡◌};
    ghost use Rattle.run_choices.specs.Faults.{refused_by};

    ghost from_gives = { λ fault s. s ≡ refused_by fault };

    fn from(fault: ApplyFault) -> Stop {
        match fault {
            ApplyFault::Constraint(_) => Stop::of(EngineCondition::ConstraintViolated),
            ApplyFault::NoMemory => Stop::NoMemory,
        }
    }
}

impl From<NoMemory> for Stop {
    ghost use Rattle.std.specs.Prelude.{◌≡◌};
    ghost use Rattle.run_choices.specs.declared.stop.Stop.TheVariants.{NoMemory as WantOfMemory};

    ghost from_gives = { λ e s. s ≡ WantOfMemory };

    fn from(_: NoMemory) -> Stop {
        Stop::NoMemory
    }
}

impl From<AllocError> for Stop {
    ghost use Rattle.std.specs.Prelude.{◌≡◌};
    ghost use Rattle.run_choices.specs.declared.stop.Stop.TheVariants.{NoMemory as WantOfMemory};

    ghost from_gives = { λ e s. s ≡ WantOfMemory };

    fn from(_: AllocError) -> Stop {
        Stop::NoMemory
    }
}

impl<T: Drop> From<AllocFailed<T>> for Stop {
    ghost use Rattle.std.specs.Prelude.{◌≡◌};
    ghost use Rattle.run_choices.specs.declared.stop.Stop.TheVariants.{NoMemory as WantOfMemory};

    ghost from_gives = { λ e s. s ≡ WantOfMemory };

    fn from(_: AllocFailed<T>) -> Stop {
        Stop::NoMemory
    }
}
