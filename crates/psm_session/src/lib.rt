//! A session: one statement after another, each over the database that the one before it left.
#![tactic(auto)]

mod database;
mod dump;
mod effect;
mod keeping;
mod names;
mod next;
mod typing;

pub use database::Database;
pub use next::{check_next, run_next};
pub use plan_exec::Answer;
pub use psm_effects::Prepared;
pub use reply_text::Reply;
pub use run_modes::Mode;
pub use typing::statements_are_typed;
