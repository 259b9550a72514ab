//! Extents.

/// How many variables and cursors are in sight.
#[derive(Clone, Copy, Debug, PartialEq, Eq)]
pub struct Extent {
    pub variables: usize,
    pub cursors: usize,
}
