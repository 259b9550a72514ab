//! The script of `psm demo`: a table with made numbers, two functions, and two queries that call
//! them. `numbers` makes the numbers and `script` the bytes; specs/Demo.antt says which they are.
#![tactic(auto)]

mod numbers;
mod script;

pub use script::demo_script;
