//! A case carried out, over edges in memory.

use crate::case::{Case, ROOM};
use crate::script::script_bytes;
use io_edges::{MemSink, MemSource};
use psm_program::{Status, run_program};
use psm_session::Database;
use std::alloc::{AllocError, Global};

/// What a case left.
#[derive(Drop)]
pub struct Outcome {
    pub status: Status,
    pub out: MemSink,
    pub err: MemSink,
}

// The list of the calls that fail: one, or none for 0.
fn failing(alloc: Global, call: u64) -> Result<Vec<u64>, AllocError> {
    match call.checked_sub(1) {
        Some(number) => Ok(vec![in alloc; number]?),
        None => Ok(Vec::new(alloc)),
    }
}

fn source_of(alloc: Global, case: Case<'_>) -> Result<MemSource, AllocError> {
    let bytes = script_bytes(alloc, case)?;
    let calls = failing(alloc, case.failing_read)?;
    Ok(MemSource::new(bytes, calls, case.reads.max(1)))
}

fn sink_of(alloc: Global, call: u64, per_call: usize, room: usize) -> Result<MemSink, AllocError> {
    let calls = failing(alloc, call)?;
    MemSink::new(alloc, calls, per_call.max(1), room)
}

// The words of the command line, with `--plain` behind the first, where that is asked for.
fn words_of<'a>(alloc: Global, case: Case<'a>, is_plain: bool) -> Result<Vec<&'a str>, AllocError> {
    let mut words = Vec::new(alloc);
    words.push("psm")?;
    for word in case.words.split_whitespace() {
        words.push(word)?;
        if is_plain && words.len() == 2 {
            words.push("--plain")?;
        }
    }
    Ok(words)
}

/// Runs the program as a case says, with `--plain` where that is asked for, over a database. Memory
/// that is refused before it starts, also for the room of the sinks, is no outcome of the case.
pub fn run_case(
    alloc: Global,
    case: Case<'_>,
    is_plain: bool,
    db: &mut Database,
) -> Result<Outcome, AllocError> {
    let words = words_of(alloc, case, is_plain)?;
    let mut src = source_of(alloc, case)?;
    let mut out = sink_of(alloc, case.failing_write, case.writes, case.room)?;
    let mut err = sink_of(alloc, case.failing_error, case.writes, ROOM)?;
    let status = run_program(alloc, &words, &mut src, &mut out, &mut err, db);
    Ok(Outcome { status, out, err })
}
