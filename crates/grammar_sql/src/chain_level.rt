//! The levels of operator chains.

/// How tightly a chain's operators bind, from the loosest on (ISO/IEC 9075-2, 6.27, 6.29 and 6.39).
/// Each level's operands hold the chains of the next one.
#[derive(Clone, Copy, Debug, PartialEq, Eq)]
pub enum ChainLevel {
    /// OR.
    Or,
    /// AND.
    And,
    /// `+`, `-` and `||`.
    Additive,
    /// `*` and `/`.
    Multiplicative,
}
