//! The interpreter of routines: what expressions, queries and statements do, run.
#![tactic(auto)]

mod alone;
mod assigning;
mod blocks;
mod calls;
mod cursors;
mod diagnosing;
mod expr;
mod from;
mod functions;
mod groups;
mod joins;
mod lists;
mod loops;
mod passing;
mod procedures;
mod queries;
mod raising;
mod records;
mod selecting;
mod signals;
mod statements;
mod units;
mod writing;

pub use alone::{call_alone, delete_alone, insert_alone, run_alone, run_query, update_alone};
pub use expr::eval;
pub use functions::call_function;
pub use passing::run_call;
pub use procedures::call_procedure;
pub use statements::{run_list, run_stmt};
