//! Reading a script whole.
ghost use Rattle.std.specs.Prelude.{◌≡◌, ◌<◌, ◌≤◌, ◌+◌, ◌^◌, ◌++◌, ℕ, List, length, take, vec_len};
ghost use Rattle.std.specs.Prelude.{IfOk, IfErr, OnOk, OnErr, IsErrOf};
ghost use Rattle.std.specs.Io.KnownBytes.{Consumes, Keeps, IsAtEnd};
ghost use Rattle.io_edges.specs.Causes.{HasCause, Rose};
ghost use Rattle.program_status.specs.Reading.{ReadsWhole, StopsBy, empty_reads_by};
ghost use Rattle.io_edges.specs.EmptyReads.{empty_by};

use io_edges::{Failed, Source};
use std::alloc::{AllocError, Global};

/// The most bytes that a script has.
pub const LIMIT: usize = 16_777_216;

// How many bytes are asked for at a time.
const PIECE: usize = 4096;

/// Why no script was read.
#[derive(Clone, Copy, Debug, PartialEq, Eq)]
pub enum ReadEnd {
    /// The source failed.
    Fault,
    /// A byte more than the limit was read.
    TooLong,
    /// There was no memory for the next bytes.
    Memory,
}

/// The bytes of the source up to its end. Room is made before each read, so that no byte is taken
/// in vain.
pub fn read_script<S: Source>(alloc: Global, src: &mut S) -> Result<Vec<u8>, ReadEnd>
    ensures ok { IfOk result (λ text. ReadsWhole (S.left src.old) (S.left src.new) text.items) }
    ensures err { IfErr result (λ end. StopsBy (S.left src.old) (S.left src.new) end) }
    ensures fault { IsErrOf result ReadEnd.Fault → Rose (S.faults src.old) (S.faults src.new) }
    ensures later { S.faults src.old ≤ S.faults src.new }
    ensures asks { S.empty_reads src.new ≡ S.empty_reads src.old + empty_reads_by result }
{
    let mut text = Vec::new(alloc);
    while text.len() <= LIMIT {
        let at = text.len();
        let room = (LIMIT + 1 - at).min(PIECE);
        if let Err(_) = grow(&mut text, room) {
            return Err(ReadEnd::Memory);
        }
        match read_piece(src, &mut text, at) {
            Ok(0) => return Ok(text),
            Ok(_) => {}
            Err(_) => return Err(ReadEnd::Fault),
        }
    }
    Err(ReadEnd::TooLong)
}

// Makes the text longer by some bytes.
fn grow(text: &mut Vec<u8>, room: usize) -> Result<(), AllocError>
    requires { vec_len text.old + room < 2 ^ 64 }
    ensures ok { OnOk result ((take (vec_len text.old) text.new.items ≡ text.old.items)
        × (vec_len text.new ≡ vec_len text.old + room)) }
{
    text.resize(text.len() + room, 0)
}

// Reads into the text after a place, and cuts it after what was read.
fn read_piece<S: Source>(src: &mut S, text: &mut Vec<u8>, at: usize) -> Result<usize, Failed>
    requires { at < vec_len text.old }
    ensures ok { IfOk result (λ count. (piece : List ℕ) ×
        (text.new.items ≡ take at text.old.items ++ piece)
        × Consumes (S.left src.old) (S.left src.new) piece × (length piece ≡ count)
        × (at + count ≤ vec_len text.old) × (count ≡ 0 → IsAtEnd (S.left src.new))) }
    ensures err { OnErr result (Keeps (S.left src.old) (S.left src.new)) }
    ensures cause { HasCause (S.faults src.old) (S.faults src.new) result }
    ensures empty { S.empty_reads src.new ≡ S.empty_reads src.old + empty_by result }
{
    let count = read_after(src, text, at)?;
    text.truncate(at + count);
    Ok(count)
}

// Reads into what comes after a place.
fn read_after<S: Source>(src: &mut S, text: &mut [u8], at: usize) -> Result<usize, Failed>
    requires { at < length text.old }
    ensures ok { IfOk result (λ count. (piece : List ℕ) ×
        (take (at + count) text.new ≡ take at text.old ++ piece)
        × Consumes (S.left src.old) (S.left src.new) piece × (length piece ≡ count)
        × (at + count ≤ length text.old) × (count ≡ 0 → IsAtEnd (S.left src.new))) }
    ensures err { OnErr result (Keeps (S.left src.old) (S.left src.new)) }
    ensures cause { HasCause (S.faults src.old) (S.faults src.new) result }
    ensures empty { S.empty_reads src.new ≡ S.empty_reads src.old + empty_by result }
{
    let count = src.read(&mut text[at..])?;
    Ok(count)
}
