//! Frames: what a statement's names stand for while it runs. Its variables and cursors by their
//! slots, which grow and shrink as compound statements start and end, and its diagnostics.
#![tactic(auto)]

mod arguments;
mod aside;
mod copies;
mod cursor;
mod extent;
mod frame;
mod law;

pub use arguments::Arguments;
pub use aside::Aside;
pub use cursor::{Cursor, Fetched};
pub use extent::Extent;
pub use frame::Frame;
pub use law::{actions_have_their_own, blocks_leave, cursors_move_on};
