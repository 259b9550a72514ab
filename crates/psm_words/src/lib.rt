//! The words of the command line, read with `clap`. `psm` is one simple command with help off: a
//! required subcommand, each made by one function of `made`. `command` says what a subcommand asks
//! for, and `read` reads the words. Which words are taken, and as what, is clap's rule for this
//! command, written out in specs/Words.antt.
#![tactic(auto)]

mod command;
mod made;
mod read;

pub use command::{Command, DEFAULT_BUDGET, DemoOptions, RunOptions};
pub use made::psm_command;
pub use read::read_words;
