//! What the words ask for.
ghost use Rattle.std.specs.Prelude.{◌≡◌};
ghost use Rattle.clap.specs.Words.{found_of, rows_of};
ghost use Rattle.psm_words.specs.Words.{command_entered, demo_options_of, has_flag, most_u32};
ghost use Rattle.psm_words.specs.Words.{most_u64, number_of, run_options_of};

use clap::ArgMatches;

/// The budget of `run` where none is given.
pub const DEFAULT_BUDGET: u32 = 1_000_000;

/// What the words ask for, by their subcommand.
#[derive(Clone, Copy, Debug, PartialEq, Eq)]
pub enum Command {
    /// `run`: the statements of the script are done one by one.
    Run(RunOptions),
    /// `check`: definitions are carried out, and all other statements are only read and bound.
    Check,
    /// `demo`: a script that is made is run, and none is read.
    Demo(DemoOptions),
}

/// How a script is run.
#[derive(Clone, Copy, Debug, PartialEq, Eq)]
pub struct RunOptions {
    /// How many turns each statement has.
    pub budget: u32,
    /// Whether the tables are written after the replies.
    pub dump: bool,
    /// Whether queries that call functions are run row by row, and the functions' bodies with them.
    pub plain: bool,
}

/// Which script is made.
#[derive(Clone, Copy, Debug, PartialEq, Eq)]
pub struct DemoOptions {
    /// What the numbers in the rows begin with.
    pub seed: u64,
    /// How many rows are inserted.
    pub rows: u32,
}

// The number up to 2 ^ 32 - 1 that the matches have for this argument.
fn u32_in(matches: &ArgMatches, id: &str) -> Option<u32>
    ensures { result ≡ number_of most_u32 id.now (rows_of (found_of matches.now)) }
{
    match matches.get_str(id) {
        Some(text) => text.parse::<u32>().ok(),
        None => None,
    }
}

// The number up to 2 ^ 64 - 1 that the matches have for this argument.
fn u64_in(matches: &ArgMatches, id: &str) -> Option<u64>
    ensures { result ≡ number_of most_u64 id.now (rows_of (found_of matches.now)) }
{
    match matches.get_str(id) {
        Some(text) => text.parse::<u64>().ok(),
        None => None,
    }
}

// Whether the matches have this flag.
fn is_flagged(matches: &ArgMatches, id: &str) -> bool
    ensures { result ≡ has_flag id.now (rows_of (found_of matches.now)) }
{
    match matches.get_str(id) {
        Some(text) => text == "true",
        None => false,
    }
}

// The options that the matches of `run` have.
fn run_options(matches: &ArgMatches) -> Option<RunOptions>
    ensures { result ≡ run_options_of (rows_of (found_of matches.now)) }
{
    let budget = u32_in(matches, "budget")?;
    let dump = is_flagged(matches, "dump");
    let plain = is_flagged(matches, "plain");
    Some(RunOptions {
        budget,
        dump,
        plain,
    })
}

// The options that the matches of `demo` have.
fn demo_options(matches: &ArgMatches) -> Option<DemoOptions>
    ensures { result ≡ demo_options_of (rows_of (found_of matches.now)) }
{
    let seed = u64_in(matches, "seed")?;
    let rows = u32_in(matches, "rows")?;
    Some(DemoOptions { seed, rows })
}

// The command that a subcommand of this name is, with its matches.
pub(crate) fn entered(name: &str, matches: &ArgMatches) -> Option<Command>
    ensures { result ≡ command_entered (name.now, rows_of (found_of matches.now)) }
{
    if name == "run" {
        run_options(matches).map(Command::Run)
    } else if name == "check" {
        Some(Command::Check)
    } else if name == "demo" {
        demo_options(matches).map(Command::Demo)
    } else {
        None
    }
}
