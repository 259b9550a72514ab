//! The program as one call, over any source, sinks and database.
//!
//! From here on down: `program` has the answers, `run` the statements one by one, and `law` says
//! that each script has one run. How bytes are read and written, and what a status is, is
//! program_status'; which words are a command is psm_words', and what a statement means is
//! psm_session's.
#![tactic(auto)]

mod law;
mod program;
mod run;

pub use law::each_script_has_one_run;
pub use program::run_program;
pub use program_status::{LIMIT, Status, tell};
