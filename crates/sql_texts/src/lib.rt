//! What words and texts of a script are made of: names, character texts, and the one value for want
//! of memory.
#![tactic(auto)]

mod memory;
mod name;
mod text;

pub use memory::NoMemory;
pub use name::Name;
pub use text::Text;

/// The most characters of a name.
pub const MOST_NAME: usize = 128;

/// The most characters of a text.
pub const MOST_TEXT: usize = 4096;
