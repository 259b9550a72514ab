//! Sums in which counting stops.

ghost use Rattle.std.specs.Prelude.{◌≡◌};
ghost use Rattle.routine_form.specs.Sums as spec;

/// Where counting stops: a body of this weight is too heavy for a plan, or holds a statement that
/// no plan takes.
pub const HEAVIEST: u32 = 4097;

/// Two weights together.
pub(crate) fn add(a: u32, b: u32) -> u32
    ensures { result ≡ spec.add a b }
{
    a.saturating_add(b).min(HEAVIEST)
}
