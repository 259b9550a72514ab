//! Kinds of values, and what is asked of them: no name is sought here. A rule looks at the heads of
//! operands, which say their kinds and places, and no tree is made.
#![tactic(auto, using(bind_faults::proofs::Laws::noted_append))]

ghost use Rattle.bind_kinds.specs.Examples.{ConjunctsStandInOrder, AggregatesOfArguments};

mod aggregates;
mod cases;
mod chains;
mod columns;
mod kind;
mod operands;
mod operations;
mod types;
mod words;

pub use aggregates::{aggregate_kind, ask_aggregate};
pub use chains::{ask_chain, chain_kind, chain_place};
pub use columns::{arguments, in_turn, join_row};
pub use kind::{Kind, OperandHead, head_of, kind_of_literal, kind_of_type, settle};
pub use operands::{like_first, test};
pub use operations::{ask, kind_given};
pub use types::{note_type, type_of};
pub use words::{is_and, over_in, word_of_test};

/// Conjuncts in brackets stand beside the others, in their order; an operand of OR is none.
pub fn conjuncts_stand_in_order()
    ensures { ConjunctsStandInOrder }
{}

/// What aggregates ask of their arguments, their kinds, and what COUNT(*) counts.
pub fn aggregates_of_arguments()
    ensures { AggregatesOfArguments }
{}
