//! Definitions: what CREATE TABLE, CREATE FUNCTION and CREATE PROCEDURE make of bodies that are
//! bound, what DROP takes away, and what is asked of each. No body is bound here.
#![tactic(auto, using(bind_faults::proofs::Laws::noted_append))]

mod characteristics;
mod making;
mod removal;
mod returned;
mod routine;
mod table;

pub use characteristics::{access_by, note_groups, note_null_calls};
pub use making::{
    BoundBody, bind_signature, body_need, interpreted, note_body, own_function, own_procedure,
    procedure_head, procedure_of,
};
pub use removal::bind_drop;
pub use returned::{BoundResult, note_result, returning, value_returned};
pub use routine::{greatest_height, parameters_of};
pub use table::bind_table;
