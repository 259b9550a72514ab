//! The command as clap has it, with one function an argument and a subcommand.
ghost use Rattle.std.specs.Prelude.{◌≡◌, IfOk, codes, false};
ghost use Rattle.clap.specs.Words.{app_of, new_app, rule_of};
ghost use Rattle.clap.specs.declared.builder.command.Command.TheViews.{out-Command};
ghost use Rattle.psm_words.specs.Words.{budget, check, demo, dump, plain, psm, row_count, run, seed};
ghost use Rattle.psm_words.specs.Words.{without_help};

use clap::builder::ValueParser;
use clap::{Arg, ArgAction, Command};
use std::alloc::{AllocError, Global};

// `--budget N`.
fn budget_arg<'a>(alloc: Global) -> Arg<'a>
    ensures rule { rule_of result ≡ budget }
    ensures local { result.global ≡ false }
{
    Arg::new(alloc, "budget")
        .long("budget")
        .value_parser(ValueParser::unsigned(0, u32::MAX as u64))
        .default_value("1000000")
}

// `--dump`.
fn dump_arg<'a>(alloc: Global) -> Arg<'a>
    ensures rule { rule_of result ≡ dump }
    ensures local { result.global ≡ false }
{
    Arg::new(alloc, "dump")
        .long("dump")
        .action(ArgAction::SetTrue)
}

// `--plain`.
fn plain_arg<'a>(alloc: Global) -> Arg<'a>
    ensures rule { rule_of result ≡ plain }
    ensures local { result.global ≡ false }
{
    Arg::new(alloc, "plain")
        .long("plain")
        .action(ArgAction::SetTrue)
}

// `--seed S`.
fn seed_arg<'a>(alloc: Global) -> Arg<'a>
    ensures rule { rule_of result ≡ seed }
    ensures local { result.global ≡ false }
{
    Arg::new(alloc, "seed")
        .long("seed")
        .required(true)
        .value_parser(ValueParser::unsigned(0, u64::MAX))
}

// `--rows N`.
fn rows_arg<'a>(alloc: Global) -> Arg<'a>
    ensures rule { rule_of result ≡ row_count }
    ensures local { result.global ≡ false }
{
    Arg::new(alloc, "rows")
        .long("rows")
        .required(true)
        .value_parser(ValueParser::unsigned(1, 10_000))
}

// `run`.
fn run_command<'a>(alloc: Global) -> Result<Command<'a>, AllocError>
    ensures app { IfOk result (λ c. app_of c ≡ run) }
    ensures local { IfOk result (λ c. (out-Command c).has_globals ≡ false) }
{
    Command::new(alloc, "run")
        .arg(budget_arg(alloc))?
        .arg(dump_arg(alloc))?
        .arg(plain_arg(alloc))
}

// `check`.
fn check_command<'a>(alloc: Global) -> Command<'a>
    ensures app { app_of result ≡ check }
    ensures local { (out-Command result).has_globals ≡ false }
{
    Command::new(alloc, "check")
}

// `demo`.
fn demo_command<'a>(alloc: Global) -> Result<Command<'a>, AllocError>
    ensures app { IfOk result (λ c. app_of c ≡ demo) }
    ensures local { IfOk result (λ c. (out-Command c).has_globals ≡ false) }
{
    Command::new(alloc, "demo")
        .arg(seed_arg(alloc))?
        .arg(rows_arg(alloc))
}

// The program's name, with a subcommand required and no help.
fn top_command<'a>(alloc: Global) -> Command<'a>
    ensures { app_of result ≡ without_help (new_app (codes "psm")) }
{
    Command::new(alloc, "psm")
        .disable_help_flag(true)
        .disable_help_subcommand(true)
        .subcommand_required(true)
}

/// The command of the program.
pub fn psm_command<'a>(alloc: Global) -> Result<Command<'a>, AllocError>
    ensures { IfOk result (λ c. app_of c ≡ psm) }
{
    top_command(alloc)
        .subcommand(run_command(alloc)?)?
        .subcommand(check_command(alloc))?
        .subcommand(demo_command(alloc)?)
}
