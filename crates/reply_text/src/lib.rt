//! The text of replies.
#![tactic(auto)]

mod area;
mod bytes;
mod dump;
mod fault;
mod record;
mod reply;

pub use area::{area_reply, spent_reply};
pub use bytes::{put, put_count};
pub use dump::Dump;
pub use fault::{FaultText, fault_reply};
pub use record::put_doubled;
pub use reply::{Reply, done_reply, records_reply, rows_reply};
