//! psm runs a script of SQL and SQL/PSM from standard input, or checks each of its statements
//! alone, or runs a script of its own, and writes its replies to standard output, and with `--dump`
//! the tables behind them; with `--plain` functions are run row by row, to the same replies:
//!
//! ```text
//! psm run [--plain] [--budget N] [--dump] <script
//! psm check <script
//! psm demo --seed S --rows N
//! ```
//!
//! The words, the standard streams and an empty database are taken here; what is done with them is
//! psm_program's.
#![tactic(auto)]

use io_edges::{StdSink, StdSource};
use psm_program::{Status, run_program, tell};
use psm_session::Database;
use sql_values::NoMemory;
use std::alloc::Global;
use std::io::ErrorKind;
use std::process::ExitCode;
use std::{env, mem};

// The words of the command line, and none where one of them is no text.
fn given_words(rt: &HostRuntime, alloc: Global) -> Result<Vec<String>, NoMemory> {
    match env::args(rt) {
        Ok(words) => Ok(words.collect(alloc)?),
        Err(error) if error.kind() == ErrorKind::OutOfMemory => Err(NoMemory),
        Err(_) => Ok(Vec::new(alloc)),
    }
}

// Runs the program over the standard streams and an empty database.
fn run_words(rt: &HostRuntime, alloc: Global) -> Result<Status, NoMemory> {
    let given = given_words(rt, alloc)?;
    let words: Vec<&str> = given.iter().map(|word| word.as_str()).collect(alloc)?;
    let mut src = StdSource::new(rt.stdin());
    let mut out = StdSink::new(rt.stdout());
    let mut err = StdSink::new(rt.stderr());
    let mut db = Database::new(alloc);
    let status = run_program(alloc, &words, &mut src, &mut out, &mut err, &mut db);
    // The process ends here, and its memory with it: no table is taken apart row by row.
    mem::forget(db);
    Ok(status)
}

fn main(rt: HostRuntime) -> ExitCode {
    let status = match run_words(&rt, rt.alloc()) {
        Ok(status) => status,
        Err(NoMemory) => {
            tell(&mut StdSink::new(rt.stderr()), Status::NoMemory);
            Status::NoMemory
        }
    };
    ExitCode::from(status.number())
}
