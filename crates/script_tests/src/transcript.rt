//! What is printed of a case.

use crate::ran::Outcome;
use std::alloc::{AllocError, Global};

/// Adds the name of a case.
pub fn push_name(transcript: &mut Vec<u8>, name: &str) -> Result<(), AllocError> {
    transcript.extend_from_slice(b"=== ")?;
    transcript.extend_from_slice(name.as_bytes())?;
    transcript.extend_from_slice(b"\n")
}

/// Adds a header line that is none.
pub fn push_unread(transcript: &mut Vec<u8>, line: &str) -> Result<(), AllocError> {
    transcript.extend_from_slice(b"??? ")?;
    transcript.extend_from_slice(line.as_bytes())?;
    transcript.extend_from_slice(b"\n")
}

// Adds what a stream took, and says so where its last line has no line feed.
fn push_stream(transcript: &mut Vec<u8>, bytes: &[u8]) -> Result<(), AllocError> {
    transcript.extend_from_slice(bytes)?;
    match bytes.last() {
        None | Some(b'\n') => Ok(()),
        Some(_) => transcript.extend_from_slice(b"\n<no line feed>\n"),
    }
}

// How a case ended, and how much of what was written is flushed where that isn't all.
fn ending(alloc: Global, outcome: &Outcome) -> Result<String, AllocError> {
    let number = outcome.status.number();
    let flushed = outcome.out.flushed();
    let written = outcome.out.bytes().len();
    if flushed == written {
        format!(in alloc; "--- {number}\n")
    } else {
        format!(in alloc; "--- {number}, {flushed} of {written} bytes flushed\n")
    }
}

/// Adds what was written, how the case ended, and what the error stream took.
pub fn push_outcome(
    alloc: Global,
    transcript: &mut Vec<u8>,
    outcome: &Outcome,
) -> Result<(), AllocError> {
    push_stream(transcript, outcome.out.bytes())?;
    let line = ending(alloc, outcome)?;
    transcript.extend_from_slice(line.as_bytes())?;
    push_stream(transcript, outcome.err.bytes())
}

/// Adds what a case left with `--plain`, which is something else.
pub fn push_otherwise(
    alloc: Global,
    transcript: &mut Vec<u8>,
    outcome: &Outcome,
) -> Result<(), AllocError> {
    transcript.extend_from_slice(b"??? otherwise with --plain\n")?;
    push_outcome(alloc, transcript, outcome)
}

/// Adds how many cases were run in both modes.
pub fn push_count(alloc: Global, transcript: &mut Vec<u8>, count: u64) -> Result<(), AllocError> {
    let line = format!(in alloc; "*** {count} cases in both modes\n")?;
    transcript.extend_from_slice(line.as_bytes())
}
