//! What expressions and queries are made of once the names in their parts are resolved: each part
//! with its kind, and what is asked of parts that stand together. No expression is judged here.
#![tactic(auto, using(bind_faults::proofs::Laws::noted_append))]

mod aggregates;
mod fault;
mod from;
mod grouping;
mod list;
mod order;
mod parts;
mod select;
mod subquery;
mod typed;
mod values;

pub use aggregates::{Parts, aggregated, no_parts, parts_of_keys};
pub use fault::NameFault;
pub use from::{
    Opened, add_from, add_item, add_joined, bind_table, derived_source, list_level, note_repeated,
    nothing_open, on_level, put_comma, put_cross, row_level, table_named,
};
pub use grouping::{Grouping, bind_row_grouping, is_grouped};
pub use list::{Outputs, add_output, no_outputs, star};
pub use order::ordered_by;
pub use parts::{bind_found, called, chained, literal, operated};
pub use select::{ListClauses, RowClauses, select_typed};
pub use subquery::{exists, member, single};
pub use typed::{Operands, Typed, TypedQuery, TypedSource, add_operand, no_operands, settle};
pub use values::{TypedRows, add_row, ask_row, no_rows, values_typed};
