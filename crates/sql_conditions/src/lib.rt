//! Conditions: what statements raise, and the areas that hold them (ISO/IEC 9075-2, 24, SQLSTATE
//! values, and 9075-4, 4.8, diagnostics area); and the turns that a statement may take.
#![tactic(auto)]

mod area;
mod condition;
mod law;
mod message;
mod state;
mod turns;

pub use area::Area;
pub use condition::{Condition, EngineCondition, text_of};
pub use law::states_are_known;
pub use message::Message;
pub use state::{Class, SqlState};
pub use turns::Turns;
