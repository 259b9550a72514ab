//! Why a statement is not bound.

use bind_faults::Fault;
use sql_values::NoMemory;

/// Why names are not resolved.
#[derive(Clone, Copy)]
pub enum NameFault {
    /// No memory was there.
    NoMemory,
    /// The least of the statement's faults, by place and then kind.
    Fault(Fault),
}

impl From<NoMemory> for NameFault {
    ghost use Rattle.std.specs.Prelude.{◌≡◌};
    ghost use Rattle.bind_parts.specs.declared.fault.NameFault.TheVariants as fault;

    ghost from_gives = { λ _ e. e ≡ fault.NoMemory };

    fn from(_: NoMemory) -> NameFault {
        NameFault::NoMemory
    }
}
