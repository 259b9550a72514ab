//! Names of the statements of routines and blocks: whether each stands for something, and the
//! statement with its names resolved.
#![tactic(auto, using(bind_faults::proofs::Laws::noted_append))]

ghost use Rattle.bind_routines.specs.Examples.{StatementsInStatements};

mod alone;
mod statements;

pub use statements::bind_statement;

/// What statements that hold statements stand for, and each fault at its place.
pub fn statements_in_statements()
    ensures { StatementsInStatements }
{}
