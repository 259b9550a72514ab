//! Plans of one row as steps.

use region_steps::Idle;
use rel_algebra::Node;

/// Some of the nodes of such a plan, one after another, and on which rows they are idle, where that
/// is known.
#[derive(Clone, Copy)]
pub struct Step<'a> {
    pub nodes: &'a [Node],
    pub idle: Option<Idle>,
}

/// A plan of one row: its steps, the first of them first.
#[derive(Drop)]
pub struct Region<'a> {
    pub steps: Vec<Step<'a>>,
}
