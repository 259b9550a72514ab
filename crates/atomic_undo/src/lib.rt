//! Changes of tables, and the log by which they are taken back.
#![tactic(auto)]

mod between;
mod changes;
mod delete;
mod fault;
mod insert;
mod log;
mod passes;
mod rekey;
mod sorted;
mod statement;
mod undo;
mod update;

pub use changes::Changes;
pub use fault::ApplyFault;
pub use log::{Edit, Entry, Log, Mark};
pub use statement::apply;
pub use undo::roll_back;
