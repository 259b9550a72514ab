//! Which tables a plan reads.
#![tactic(auto)]

ghost use Rattle.scanned_tables.specs.Laws.{ScansDecide};

mod scans;

pub use scans::{ScannedTable, scanned};

/// Where each table that a plan reads has as many columns by other widths as it has in the plan,
/// so has each that its query names, in the bodies of called functions too. So it is the plan by
/// these widths as well.
pub fn scans_decide()
    ensures { ScansDecide }
{}
