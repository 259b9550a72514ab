//! Whether many rows are changed in one pass over those of a table or each by itself.

// One change moves half the rows of a block and a row of each block after it, in about the time in
// which a pass moves so many rows. A pass moves each row at most once.
const MOVED_BY_ONE: usize = 32;

/// Whether a change of so many rows among so many takes less time in one pass.
pub fn takes_one_pass(changed: usize, among: usize) -> bool {
    changed > 1 && among / (MOVED_BY_ONE + among / 1024) < changed
}
