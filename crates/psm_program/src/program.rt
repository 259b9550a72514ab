//! All that the program does, from words to an answer. Which answer comes, and why, stands in the
//! clauses of `run_program`; what a script means to a command stands in specs/Session.antt.
ghost use Rattle.std.specs.Prelude.{◌≡◌, ◌⊎◌, ◌≤◌, ◌+◌, ◌++◌, ℕ, List, length, map, Some, None};
ghost use Rattle.std.specs.Prelude.{true, false, IfOk, IfErr, OnOk, IsErrOf};
ghost use Rattle.io_edges.specs.Causes.{Rose};
ghost use Rattle.psm_words.specs.Words.{command_of};
ghost use Rattle.program_status.specs.Reading.{TakesCount, StopsBy};
ghost use Rattle.program_status.specs.Statuses.{Tells, line_of};
ghost use Rattle.psm_program.specs.Session.{IsGiven, EndsReading};
ghost use Rattle.psm_program.specs.Whole.{RunsWhole, IsCutShort, IsFirstFew, SaysExceptions};
ghost use Rattle.psm_program.specs.Whole.{LeavesTheOnlyRun, WritesFront, ReadsCount};
ghost use Rattle.psm_words.specs.declared.command.Command.{Command};
ghost use Rattle.psm_words.specs.declared.command.Command.TheVariants.{Demo};
ghost use Rattle.psm_words.specs.declared.command.DemoOptions.{DemoOptions};

use crate::run::run_script;
use demo_script::demo_script;
use io_edges::{Sink, Source};
use program_status::{LIMIT, ReadEnd, Status, read_script, tell};
use psm_session::Database;
use psm_words::{Command, read_words};
use std::alloc::Global;

// The script of a command: what the source has, which is read to its end; for the demo it is made,
// and the source is not read.
fn command_script<S: Source>(
    alloc: Global,
    command: Command,
    src: &mut S,
) -> Result<Vec<u8>, ReadEnd>
    ensures ok { IfOk result (λ script. IsGiven command (S.left src.old) (S.left src.new) script.items) }
    ensures few { OnOk result (TakesCount (S.left src.old) (S.left src.new) (λ n. n ≤ LIMIT)) }
    ensures err { IfErr result (λ end. StopsBy (S.left src.old) (S.left src.new) end) }
    ensures fault { IsErrOf result ReadEnd.Fault → Rose (S.faults src.old) (S.faults src.new) }
    ensures asks { S.empty_reads src.new ≤ S.empty_reads src.old + 1 }
    ensures ended { OnOk result (EndsReading command (S.empty_reads src.old) (S.empty_reads src.new)) }
    ensures demo { (options : DemoOptions) → command ≡ Demo options → (src.new ≡ src.old) ×
        IfErr result (λ end. end ≡ ReadEnd.Memory) }
{
    match command {
        Command::Run(_) | Command::Check => read_script(alloc, src),
        Command::Demo(options) => match demo_script(alloc, options.seed, options.rows) {
            Ok(script) => Ok(script),
            Err(_) => Err(ReadEnd::Memory),
        },
    }
}

// Runs the script of a command.
fn run_source<S: Source, K: Sink>(
    alloc: Global,
    command: Command,
    src: &mut S,
    out: &mut K,
    db: &mut Database,
) -> Status
    ensures done { result ≡ Status.Done
        → RunsWhole command (S.left src.old) (S.left src.new) (K.told out.old)
        (K.told out.new) db.old db.new false }
    ensures exceptions { result ≡ Status.DoneWithExceptions
        → RunsWhole command (S.left src.old) (S.left src.new) (K.told out.old)
        (K.told out.new) db.old db.new true }
    ensures usage { result ≡ Status.Usage → ⊥ }
    ensures read_fault { result ≡ Status.ReadFault
        → Rose (S.faults src.old) (S.faults src.new) × (out.new ≡ out.old) × (db.new ≡ db.old) }
    ensures write_fault { result ≡ Status.WriteFault → Rose (K.faults out.old) (K.faults out.new)
        × IsCutShort command (S.left src.old) (S.left src.new) (K.told out.old) (K.told out.new) db.old db.new }
    ensures no_memory { result ≡ Status.NoMemory → ((out.new ≡ out.old) × (db.new ≡ db.old))
        ⊎ (EndsReading command (S.empty_reads src.old) (S.empty_reads src.new)
        × IsFirstFew command (S.left src.old) (S.left src.new) (K.told out.old) (K.told out.new) db.old db.new) }
    ensures too_long { result ≡ Status.ScriptTooLong
        → ReadsCount (S.left src.old) (S.left src.new) (LIMIT + 1) × (out.new ≡ out.old) ×
        (db.new ≡ db.old) }
    ensures within { (result ≡ Status.ScriptTooLong) ⊎
        TakesCount (S.left src.old) (S.left src.new) (λ n. n ≤ LIMIT) }
    ensures asks { S.empty_reads src.new ≤ S.empty_reads src.old + 1 }
    ensures ended { ((result ≡ Status.Done) ⊎ (result ≡ Status.DoneWithExceptions)) ⊎
        (result ≡ Status.WriteFault)
        → EndsReading command (S.empty_reads src.old) (S.empty_reads src.new) }
    ensures demo { (options : DemoOptions) → command ≡ Demo options → (src.new ≡ src.old) ×
        ((result ≡ Status.ReadFault) ⊎ (result ≡ Status.ScriptTooLong) → ⊥) }
{
    match command_script(alloc, command, src) {
        Ok(script) => run_script(alloc, command, &script, out, db),
        Err(ReadEnd::Fault) => Status::ReadFault,
        Err(ReadEnd::TooLong) => Status::ScriptTooLong,
        Err(ReadEnd::Memory) => Status::NoMemory,
    }
}

/// All that the program does: it takes the words, reads the script of `src` whole, or makes that of
/// the demo, does its statements one by one over the database, writes their replies to `out`, each
/// whole before the next statement, and then the dump where it is asked for, flushes `out` once, and
/// writes at most one line to `err`.
pub fn run_program<'a, S: Source, K: Sink, E: Sink>(
    alloc: Global,
    words: &'a [&'a str],
    src: &mut S,
    out: &mut K,
    err: &mut E,
    db: &mut Database,
) -> Status
    // 0 and 1: the command had its script, which is what the source gave, read to its end, and for
    // the demo is made; and all replies were written, and the dump where it is asked for, and all of
    // it flushed. No reply begins with `!`, or one does.
    ensures done { result ≡ Status.Done → (command : Command) ×
        (command_of (map (λ w. w.now) words.entry.now) ≡ Some command)
        × RunsWhole command (S.left src.old) (S.left src.new) (K.told out.old) (K.told out.new) db.old db.new false }
    ensures exceptions { result ≡ Status.DoneWithExceptions → (command : Command) ×
        (command_of (map (λ w. w.now) words.entry.now) ≡ Some command)
        × RunsWhole command (S.left src.old) (S.left src.new) (K.told out.old) (K.told out.new) db.old db.new true }

    // A script has one run: its database is what is left, and its replies, and the dump of its
    // database where it is asked for, are what was written.
    ensures only { (result ≡ Status.Done) ⊎ (result ≡ Status.DoneWithExceptions)
        → (command : Command) → command_of (map (λ w. w.now) words.entry.now) ≡ Some command
        → LeavesTheOnlyRun command (S.left src.old) (K.told out.old) (K.told out.new) db.old db.new }

    // 1 is exactly where a reply begins with `!` and all was written and flushed.
    ensures exactly { (command : Command) → command_of (map (λ w. w.now) words.entry.now) ≡
        Some command
        → SaysExceptions command (S.left src.old) (K.told out.old) (K.told out.new) db.old result }

    // 2: only where the command does not take the words, and nothing is touched. Words that it does
    // not take give 2, or there was no memory to read them; nothing is touched then either.
    ensures usage { result ≡ Status.Usage → (command_of (map (λ w. w.now) words.entry.now) ≡ None)
        × (src.new ≡ src.old) × (out.new ≡ out.old) × (db.new ≡ db.old) }
    ensures not_taken { command_of (map (λ w. w.now) words.entry.now) ≡ None →
        ((result ≡ Status.Usage) ⊎ (result ≡ Status.NoMemory))
        × (src.new ≡ src.old) × (out.new ≡ out.old) × (db.new ≡ db.old) }

    // 3: the source failed, and nothing was run or written.
    ensures read_fault { result ≡ Status.ReadFault
        → Rose (S.faults src.old) (S.faults src.new) × (out.new ≡ out.old) × (db.new ≡ db.old) }

    // 4: the sink failed, and took a front of the replies, and the database is the one after the
    // statements whose reply was begun; or it took all replies and a front of the dump, or all, with
    // the flush refused, and the database is the one after all statements.
    ensures write_fault { result ≡ Status.WriteFault → Rose (K.faults out.old) (K.faults out.new)
        × ((command : Command) × (command_of (map (λ w. w.now) words.entry.now) ≡ Some command)
        × IsCutShort command (S.left src.old) (S.left src.new) (K.told out.old) (K.told out.new) db.old db.new) }

    // 5: nothing was written or run; or the command had its script, the first replies were written
    // whole, and nothing else, no byte of the dump either, and the database is the one after their
    // statements.
    ensures no_memory { result ≡ Status.NoMemory → ((out.new ≡ out.old) × (db.new ≡ db.old))
        ⊎ ((command : Command) × (command_of (map (λ w. w.now) words.entry.now) ≡ Some command)
        × EndsReading command (S.empty_reads src.old) (S.empty_reads src.new)
        × IsFirstFew command (S.left src.old) (S.left src.new) (K.told out.old) (K.told out.new) db.old db.new) }

    // 4 and 5: what was written is a front of all replies of the script's one run, with the dump
    // behind them where it is asked for.
    ensures front { (result ≡ Status.WriteFault) ⊎ (result ≡ Status.NoMemory)
        → (command : Command) → command_of (map (λ w. w.now) words.entry.now) ≡ Some command
        → WritesFront command (S.left src.old) (K.told out.old) (K.told out.new) db.old }

    // 6: exactly where one byte more than the limit was read, and nothing was run or written.
    ensures too_long { result ≡ Status.ScriptTooLong
        → ReadsCount (S.left src.old) (S.left src.new) (LIMIT + 1) × (out.new ≡ out.old) ×
        (db.new ≡ db.old) }
    ensures too_long_there { (bytes rest : List ℕ) → S.left src.old ≡ Some (bytes ++ rest) →
        S.left src.new ≡ Some rest
        → length bytes ≡ LIMIT + 1 → result ≡ Status.ScriptTooLong }

    // No more is read than one byte past the limit, and at most one read takes nothing: the one
    // that finds the end, or that fails. Where a run began, the end was found; the demo reads
    // nothing, and the source stays as it was.
    ensures reads { TakesCount (S.left src.old) (S.left src.new) (λ n. n ≤ LIMIT + 1) }
    ensures asks { S.empty_reads src.new ≤ S.empty_reads src.old + 1 }
    ensures ended { ((result ≡ Status.Done) ⊎ (result ≡ Status.DoneWithExceptions)) ⊎
        (result ≡ Status.WriteFault)
        → (command : Command) → command_of (map (λ w. w.now) words.entry.now) ≡ Some command
        → EndsReading command (S.empty_reads src.old) (S.empty_reads src.new) }
    ensures demo { (options : DemoOptions) → command_of (map (λ w. w.now) words.entry.now) ≡
        Some (Demo options)
        → src.new ≡ src.old }

    // With the words of a command, a script within the limit and no fault, all is done, or memory
    // ran out.
    ensures complete { (command : Command) → command_of (map (λ w. w.now) words.entry.now) ≡
        Some command
        → (bytes : List ℕ) → S.left src.old ≡ Some bytes → length bytes ≤ LIMIT
        → (Rose (S.faults src.old) (S.faults src.new) → ⊥) →
        (Rose (K.faults out.old) (K.faults out.new) → ⊥)
        → ((result ≡ Status.Done) ⊎ (result ≡ Status.DoneWithExceptions)) ⊎
        (result ≡ Status.NoMemory) }

    // For the demo it is enough that the sink has no fault.
    ensures demo_complete { (options : DemoOptions) →
        command_of (map (λ w. w.now) words.entry.now) ≡ Some (Demo options)
        → (Rose (K.faults out.old) (K.faults out.new) → ⊥)
        → ((result ≡ Status.Done) ⊎ (result ≡ Status.DoneWithExceptions)) ⊎
        (result ≡ Status.NoMemory) }

    // A front of the status's line, and all of it where `err` did not fail.
    ensures err { Tells (E.told err.old) (E.told err.new) (E.faults err.old) (E.faults err.new)
        (line_of result) }
{
    let status = match read_words(alloc, words) {
        Ok(Some(command)) => run_source(alloc, command, src, out, db),
        Ok(None) => Status::Usage,
        Err(_) => Status::NoMemory,
    };
    tell(err, status);
    status
}
