//! Reading the words.
ghost use Rattle.std.specs.Prelude.{◌≡◌, ◌≢◌, ◌↔◌, IfOk, IsSome, None, map, option_and_then};
ghost use Rattle.clap.specs.Words.{kind_of, subcommand_rows_of};
ghost use Rattle.psm_words.specs.Words.{IsTaken, command_entered, command_of};

use crate::command::{Command, entered};
use crate::made::psm_command;
use clap::error::ErrorKind;
use clap::{ArgMatches, Error};
use std::alloc::{AllocError, Global};

// What the subcommand of the matches asks for.
fn command_in(matches: &ArgMatches) -> Option<Command>
    ensures { result ≡ option_and_then command_entered (subcommand_rows_of matches.now) }
{
    match matches.subcommand() {
        Some((name, below)) => entered(name, below),
        None => None,
    }
}

// Words that clap refuses are none of a command, unless it lacked memory.
fn refused(error: &Error) -> Result<Option<Command>, AllocError>
    ensures { IfOk result (λ c. (c ≡ None) × (kind_of error.now ≢ ErrorKind.OutOfMemory)) }
{
    match error.kind() {
        ErrorKind::OutOfMemory => Err(AllocError),
        _ => Ok(None),
    }
}

/// Which command the words are, of which the first is the program's name, whatever it is; `None`
/// exactly where clap's rule does not take them. Only memory can be lacking, which says nothing of
/// the words.
pub fn read_words<'a>(alloc: Global, words: &'a [&'a str]) -> Result<Option<Command>, AllocError>
    ensures exact { IfOk result (λ c. c ≡ command_of (map (λ w. w.now) words.entry.now)) }
    ensures taken { IfOk result (λ c. IsSome c ↔ IsTaken (map (λ w. w.now) words.entry.now)) }
{
    let command = psm_command(alloc)?;
    match command.try_get_matches_from(words) {
        Ok(matches) => Ok(command_in(&matches)),
        Err(error) => refused(&error),
    }
}
