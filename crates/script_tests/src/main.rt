//! Runs the cases that standard input spells, each a script over edges in memory, and prints what
//! each of them gave: the replies, the status, and what the error stream took.
//!
//! ```text
//! === a write of the second reply that fails
//! failing write: 2
//! ---
//! CREATE TABLE t (k INTEGER PRIMARY KEY);
//! INSERT INTO t VALUES (1);
//! ```
//!
//! A line `=== NAME` begins a case. Header lines come next, then a line `---`, then the script up
//! to the next case. Each case of `run` is run once more with `--plain`, over a database of its own,
//! and has to leave the same. `case` says which header lines there are, `script` which bytes the
//! source has, `ran` how a case is run, `modes` how in both modes, and `transcript` what is printed.
//! README.md has it in whole.
#![tactic(auto)]

mod case;
mod modes;
mod ran;
mod script;
mod transcript;

use case::{Case, read_section};
use modes::{Databases, run_both};
use std::alloc::{AllocError, Global};
use std::io;
use std::io::Write;
use transcript::{push_count, push_name, push_otherwise, push_outcome, push_unread};

// Runs a case in both modes, and adds what is printed of it.
fn do_case(
    alloc: Global,
    case: Case<'_>,
    dbs: &mut Databases,
    transcript: &mut Vec<u8>,
) -> Result<(), AllocError> {
    if !case.keeps_database {
        *dbs = Databases::new(alloc);
    }
    let both = run_both(alloc, case, dbs)?;
    push_outcome(alloc, transcript, &both.stated)?;
    match &both.otherwise {
        Some(outcome) => push_otherwise(alloc, transcript, outcome),
        None => Ok(()),
    }
}

// Carries out the case of a section, and adds what is printed of it. Whether it has both modes.
fn do_section(
    alloc: Global,
    section: &str,
    dbs: &mut Databases,
    transcript: &mut Vec<u8>,
) -> Result<bool, AllocError> {
    let (name, case) = read_section(section);
    push_name(transcript, name)?;
    match case {
        Ok(case) => {
            do_case(alloc, case, dbs, transcript)?;
            Ok(case.has_both_modes())
        }
        Err(line) => {
            push_unread(transcript, line)?;
            Ok(false)
        }
    }
}

// Adds what is printed of all cases of a text, over databases that go from case to case, and how
// many of them were run in both modes.
fn add_sections(
    alloc: Global,
    text: &str,
    dbs: &mut Databases,
    transcript: &mut Vec<u8>,
) -> Result<(), AllocError> {
    let mut count: u64 = 0;
    let cases = text.strip_suffix('\n').unwrap_or(text);
    for section in cases.split("\n=== ").skip(1) {
        if do_section(alloc, section, dbs, transcript)? {
            count = count.saturating_add(1);
        }
    }
    push_count(alloc, transcript, count)
}

// The same, over two new databases.
fn add_all(alloc: Global, text: &str, transcript: &mut Vec<u8>) -> Result<(), AllocError> {
    let mut dbs = Databases::new(alloc);
    add_sections(alloc, text, &mut dbs, transcript)
}

// The transcript of all cases of a text.
fn transcript_of(alloc: Global, text: &str) -> Result<Vec<u8>, AllocError> {
    let mut transcript = Vec::new(alloc);
    add_all(alloc, text, &mut transcript)?;
    Ok(transcript)
}

fn main(rt: HostRuntime) -> io::Result<()> {
    let alloc = rt.alloc();
    let text = io::read_to_string(alloc, rt.stdin())?;
    let transcript = transcript_of(alloc, text.as_str())?;
    rt.stdout().write_all(&transcript)
}
