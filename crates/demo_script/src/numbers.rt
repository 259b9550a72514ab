//! The numbers in the rows, each made of the one before by a linear congruence.
ghost use Rattle.std.specs.Prelude.{◌≡◌};
ghost use Rattle.demo_script.specs.Demo.{drawn, next_number as number_after, a_of as a_by};
ghost use Rattle.demo_script.specs.Demo.{g_of as g_by};

const FACTOR: u64 = 6_364_136_223_846_793_005;

const SUMMAND: u64 = 1_442_695_040_888_963_407;

/// The number after this one.
#[tactic(auto, using(crate::proofs::Steps::sum_mod))]
pub(crate) fn next_number(x: u64) -> u64
    ensures { result ≡ number_after x }
{
    x.wrapping_mul(FACTOR).wrapping_add(SUMMAND)
}

// The high bits of a number, which vary most.
fn high_bits(x: u64) -> u64
    ensures { result ≡ drawn x }
{
    x >> 33
}

/// What stands in the column `a`.
pub(crate) fn a_of(x: u64) -> u64
    ensures { result ≡ a_by x }
{
    high_bits(x) % 11
}

/// What stands in the column `g`.
pub(crate) fn g_of(x: u64) -> u64
    ensures { result ≡ g_by x }
{
    high_bits(x) / 11 % 5
}
