//! Tables: rows in key order, with memory for more.
#![tactic(auto)]

mod block;
mod blocks;
mod placed_row;
mod rows;
mod search;
mod table;
mod tables;

pub use placed_row::PlacedRow;
pub use table::Table;
pub use tables::Tables;
