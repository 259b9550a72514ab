//! What one call of the program reads, writes and answers: the script as bytes, replies as bytes,
//! and the status. Which of the seven statuses comes is decided here; what a statement is, or a
//! database, is not known.
#![tactic(auto)]

mod ending;
mod read;
mod reply;
mod status;
mod write;

pub use ending::finish;
pub use read::{LIMIT, ReadEnd, read_script};
pub use reply::{is_exception, write_reply};
pub use status::Status;
pub use write::{tell, write_whole};
