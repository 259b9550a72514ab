//! Tests of what no script can show: calls of the libraries by hand. They stand in a crate of their
//! own, since a crate that has tests is proved twice, once with them and once without.
#![tactic(auto)]

#[cfg(test)]
mod databases;
#[cfg(test)]
mod edges;
#[cfg(test)]
mod heads;
#[cfg(test)]
mod limits;
#[cfg(test)]
mod prepared;
#[cfg(test)]
mod reading;
#[cfg(test)]
mod row_lists;
#[cfg(test)]
mod undo;
