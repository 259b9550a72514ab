//! The statement at a token.

ghost use Rattle.std.specs.Prelude.{◌≡◌, ◌<◌, ◌≤◌, length, IfOk, OnErr};
ghost use Rattle.sql_lex.specs.Openings.{place_at};
ghost use Rattle.reply_text.specs.Texts.{fault_text};
ghost use Rattle.psm_session.specs.Statement.{Statement, Checked};

use crate::Database;
use grammar_algebra::ParseFault;
use parse_statements::parse_statement;
use reply_text::{FaultText, Reply, fault_reply};
use run_modes::mode_of;
use sql_lex::{Tokens, place};
use sql_values::NoMemory;
use std::alloc::Global;
use std::mem::drop;

// The reply where no statement is read, with the place up to which one begins.
fn unread(
    alloc: Global,
    tokens: &Tokens,
    why: FaultText,
    stop: usize,
) -> Result<(Reply, usize), NoMemory>
    requires { stop ≤ length tokens.now.tokens }
    ensures reply { IfOk result (λ r. r.0 ≡ fault_text why (place_at tokens.now stop).0
        (place_at tokens.now stop).1) }
    ensures end { IfOk result (λ r. r.1 ≡ length tokens.now.tokens) }
{
    let (line, column) = place(tokens, stop);
    let reply = fault_reply(alloc, why, line, column)?;
    Ok((reply, tokens.len()))
}

/// Does the statement at a token with so many turns, in the plain mode where that is said: its
/// reply, and the token at which the next one begins, which is the number of tokens where the script
/// ends. All of this is the same in both modes. A statement with faults replies the least of them,
/// changes nothing, and the script goes on after it. Where no statement is read, the reply says so
/// with the place up to which one begins, nothing changes, and the script ends. Without memory
/// nothing changes.
pub fn run_next(
    alloc: Global,
    tokens: &Tokens,
    at: usize,
    plain: bool,
    budget: u64,
    db: &mut Database,
) -> Result<(Reply, usize), NoMemory>
    requires { at < length tokens.now.tokens }
    ensures ok { IfOk result (λ r. Statement budget tokens.now at db.old r.0 r.1 db.new) }
    ensures goes { IfOk result (λ r. (at < r.1) × (r.1 ≤ length tokens.now.tokens)) }
    ensures err { OnErr result (db.new ≡ db.old) }
{
    match parse_statement(alloc, tokens, at) {
        Ok((stmt, next)) => {
            let reply = db.exec_statement(&stmt, mode_of(plain), budget);
            drop(stmt);
            Ok((reply?, next))
        }
        Err(ParseFault::NoMemory) => Err(NoMemory),
        Err(ParseFault::NoStatement(stop)) => unread(alloc, tokens, FaultText::Syntax, stop),
        Err(ParseFault::TooDeep(stop)) => unread(alloc, tokens, FaultText::TooDeep, stop),
    }
}

/// Checks the statement at a token alone: its reply, and the token at which the next one begins, as
/// `run_next` has them. Definitions are carried out, and all other statements are read and bound.
/// Without memory nothing changes.
pub fn check_next(
    alloc: Global,
    tokens: &Tokens,
    at: usize,
    db: &mut Database,
) -> Result<(Reply, usize), NoMemory>
    requires { at < length tokens.now.tokens }
    ensures ok { IfOk result (λ r. Checked tokens.now at db.old r.0 r.1 db.new) }
    ensures goes { IfOk result (λ r. (at < r.1) × (r.1 ≤ length tokens.now.tokens)) }
    ensures err { OnErr result (db.new ≡ db.old) }
{
    match parse_statement(alloc, tokens, at) {
        Ok((stmt, next)) => {
            let checked = db.check_statement(&stmt);
            drop(stmt);
            Ok((checked?, next))
        }
        Err(ParseFault::NoMemory) => Err(NoMemory),
        Err(ParseFault::NoStatement(stop)) => unread(alloc, tokens, FaultText::Syntax, stop),
        Err(ParseFault::TooDeep(stop)) => unread(alloc, tokens, FaultText::TooDeep, stop),
    }
}
