//! The edges of the program: where bytes come from and where they go. A source and a sink each
//! count their faults, tell what they took where they can, and answer `Failed` only where the count
//! rose. This crate knows nothing of what the bytes mean.
#![tactic(auto)]

mod calls;
mod empty;
mod log;
mod memory;
mod sink;
mod source;
mod standard;
mod sure;
mod tries;

pub use memory::{MemSink, MemSource};
pub use sink::Sink;
pub use source::{Failed, Source};
pub use standard::{StdSink, StdSource};
pub use sure::{SureSink, SureSource};
pub use tries::TRIES_AGAIN;
