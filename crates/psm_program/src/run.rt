//! Running a script: tokens, then statement after statement, each reply written whole before the
//! next statement, then the dump where it is asked for, made whole before a byte of it is written,
//! and one flush at the end.
ghost use Rattle.std.specs.Prelude.{◌≡◌, ◌<◌, ◌≤◌, length, IfOk, IfErr, OnOk, OnErr, IsErrOf};
ghost use Rattle.io_edges.specs.Causes.{Rose};
ghost use Rattle.io_edges.specs.TakenBytes.{Takes};
ghost use Rattle.psm_session.specs.Dump.{dump_text};
ghost use Rattle.psm_program.specs.Session.{Does, ending};
ghost use Rattle.psm_program.specs.Outcome.{RanTo, Stepped, StepStopped, Stopped, Ends};
ghost use Rattle.psm_program.specs.Outcome.{EndingStopped, Closes};
ghost use Rattle.psm_program.specs.Whole.{EndsOn};

use io_edges::Sink;
use program_status::{Status, finish, write_reply, write_whole};
use psm_session::{Database, Reply, check_next, run_next};
use psm_words::{Command, DEFAULT_BUDGET};
use sql_lex::{Tokens, tokens};
use sql_values::NoMemory;
use std::alloc::Global;

/// Why the statements stopped.
#[derive(Clone, Copy, Debug, PartialEq, Eq)]
pub enum Interruption {
    /// The sink failed.
    Write,
    /// There was no memory for a statement, which was taken back, or for the dump.
    Memory,
}

// Does what the command does with the statement at a token: its reply, and where the next one
// begins.
fn do_next(
    alloc: Global,
    command: Command,
    list: &Tokens,
    at: usize,
    db: &mut Database,
) -> Result<(Reply, usize), NoMemory>
    requires { at < length list.now.tokens }
    ensures ok { IfOk result (λ r. Does command list.now at db.old r.0 r.1 db.new) }
    ensures goes { IfOk result (λ r. (at < r.1) × (r.1 ≤ length list.now.tokens)) }
    ensures err { OnErr result (db.new ≡ db.old) }
{
    match command {
        Command::Run(options) => {
            run_next(
                alloc,
                list,
                at,
                options.plain,
                u64::from(options.budget),
                db,
            )
        }
        Command::Check => check_next(alloc, list, at, db),
        Command::Demo(_) => { run_next(alloc, list, at, false, u64::from(DEFAULT_BUDGET), db) }
    }
}

// Does the statement at a token and writes its reply: where the next one begins, and whether it was
// an exception.
fn run_statement<K: Sink>(
    alloc: Global,
    command: Command,
    list: &Tokens,
    at: usize,
    out: &mut K,
    db: &mut Database,
) -> Result<(usize, bool), Interruption>
    requires { at < length list.now.tokens }
    ensures ok { IfOk result (λ r. Stepped (Does command list.now) at r.0 (K.told out.old)
        (K.told out.new) db.old db.new r.1) }
    ensures goes { IfOk result (λ r. (at < r.0) × (r.0 ≤ length list.now.tokens)) }
    ensures err { IfErr result (λ stop. StepStopped stop (Does command list.now) at (K.told out.old)
        (K.told out.new) db.old db.new) }
    ensures fault { IsErrOf result Interruption.Write → Rose (K.faults out.old) (K.faults out.new) }
    ensures later { K.faults out.old ≤ K.faults out.new }
{
    match do_next(alloc, command, list, at, db) {
        Ok((reply, next)) => match write_reply(out, reply.as_bytes()) {
            Ok(is_exception) => Ok((next, is_exception)),
            Err(_) => Err(Interruption::Write),
        },
        Err(_) => Err(Interruption::Memory),
    }
}

// Does the statements in turn: whether one was an exception.
fn run_statements<K: Sink>(
    alloc: Global,
    command: Command,
    list: &Tokens,
    out: &mut K,
    db: &mut Database,
) -> Result<bool, Interruption>
    ensures ok { IfOk result (λ excepts. RanTo (Does command list.now) (length list.now.tokens)
        (K.told out.old) (K.told out.new) db.old db.new excepts) }
    ensures err { IfErr result (λ stop. Stopped stop (Does command list.now) (K.told out.old)
        (K.told out.new) db.old db.new) }
    ensures fault { IsErrOf result Interruption.Write → Rose (K.faults out.old) (K.faults out.new) }
    ensures later { K.faults out.old ≤ K.faults out.new }
{
    let mut at = 0;
    let mut excepts = false;
    while at < list.len() {
        match run_statement(alloc, command, list, at, out, db) {
            Ok((next, is_exception)) => {
                at = next;
                excepts = excepts || is_exception;
            }
            Err(stop) => return Err(stop),
        }
    }
    Ok(excepts)
}

// Writes the dump of a database, which is made whole before.
fn write_dump<K: Sink>(out: &mut K, db: &Database) -> Result<(), Interruption>
    ensures ok { OnOk result (Takes (K.told out.old) (K.told out.new) (dump_text db.now)) }
    ensures err { IfErr result (λ stop. EndingStopped stop (dump_text db.now) (K.told out.old)
        (K.told out.new)) }
    ensures fault { IsErrOf result Interruption.Write → Rose (K.faults out.old) (K.faults out.new) }
    ensures later { K.faults out.old ≤ K.faults out.new }
{
    match db.dump() {
        Ok(dump) => match write_whole(out, dump.as_bytes()) {
            Ok(()) => Ok(()),
            Err(_) => Err(Interruption::Write),
        },
        Err(_) => Err(Interruption::Memory),
    }
}

// Writes what a command has behind the replies.
fn write_ending<K: Sink>(command: Command, out: &mut K, db: &Database) -> Result<(), Interruption>
    ensures ok { OnOk result (Takes (K.told out.old) (K.told out.new) (ending command db.now)) }
    ensures err { IfErr result (λ stop. EndingStopped stop (ending command db.now) (K.told out.old)
        (K.told out.new)) }
    ensures fault { IsErrOf result Interruption.Write → Rose (K.faults out.old) (K.faults out.new) }
    ensures later { K.faults out.old ≤ K.faults out.new }
{
    match command {
        Command::Run(options) if options.dump => write_dump(out, db),
        Command::Run(_) | Command::Check | Command::Demo(_) => Ok(()),
    }
}

// Writes what a command has behind the replies, which are all written, and flushes.
fn end_run<K: Sink>(command: Command, excepts: bool, out: &mut K, db: &Database) -> Status
    ensures closes { Closes excepts (ending command db.now) (K.told out.old) (K.told out.new) result }
    ensures fault { result ≡ Status.WriteFault → Rose (K.faults out.old) (K.faults out.new) }
    ensures later { K.faults out.old ≤ K.faults out.new }
{
    match write_ending(command, out, db) {
        Ok(()) => finish(excepts, out),
        Err(Interruption::Write) => Status::WriteFault,
        Err(Interruption::Memory) => Status::NoMemory,
    }
}

// Runs the statements of the tokens, writes what the command has behind their replies, and flushes.
fn run_tokens<K: Sink>(
    alloc: Global,
    command: Command,
    list: &Tokens,
    out: &mut K,
    db: &mut Database,
) -> Status
    ensures ends { Ends (Does command list.now) (length list.now.tokens) (ending command)
        (K.told out.old) (K.told out.new) db.old db.new result }
    ensures fault { result ≡ Status.WriteFault → Rose (K.faults out.old) (K.faults out.new) }
    ensures later { K.faults out.old ≤ K.faults out.new }
{
    match run_statements(alloc, command, list, out, db) {
        Ok(excepts) => end_run(command, excepts, out, db),
        Err(Interruption::Write) => Status::WriteFault,
        Err(Interruption::Memory) => Status::NoMemory,
    }
}

/// Runs a script, and writes all that the command replies.
pub fn run_script<K: Sink>(
    alloc: Global,
    command: Command,
    script: &[u8],
    out: &mut K,
    db: &mut Database,
) -> Status
    ensures ends { EndsOn command script.now (K.told out.old) (K.told out.new) db.old db.new result }
    ensures fault { result ≡ Status.WriteFault → Rose (K.faults out.old) (K.faults out.new) }
    ensures later { K.faults out.old ≤ K.faults out.new }
{
    match tokens(alloc, script) {
        Ok(list) => run_tokens(alloc, command, &list, out, db),
        Err(_) => Status::NoMemory,
    }
}
