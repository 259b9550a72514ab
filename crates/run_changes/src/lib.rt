//! Changing the rows of a table, in a world: INSERT with a column list, UPDATE and DELETE, each for
//! any rows that a query or a plan gave. No query is run here.
#![tactic(auto)]

mod any_places;
mod change;
mod making;
mod places;
mod remove;
mod store;
mod targets;

pub use change::{change_counted, change_rows};
pub use remove::{remove_counted, remove_rows};
pub use store::{store_counted, store_rows};
