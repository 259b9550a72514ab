//! The bytes of a case's script.

use crate::case::Case;
use std::alloc::{AllocError, Global};

/// The bytes that a case's source has.
pub fn script_bytes(alloc: Global, case: Case<'_>) -> Result<Vec<u8>, AllocError> {
    let mut bytes = spelled_bytes(alloc, case)?;
    if !case.is_open {
        bytes.push(b'\n')?;
    }
    if bytes.len() < case.size {
        bytes.resize(case.size, b' ')?;
    }
    Ok(bytes)
}

// The bytes that a case's section spells.
fn spelled_bytes(alloc: Global, case: Case<'_>) -> Result<Vec<u8>, AllocError> {
    if case.has_escapes {
        unescaped(alloc, case.script)
    } else {
        case.script.as_bytes().to_vec(alloc)
    }
}

// The bytes of a text in which `\x` and two digits of base 16 stand for a byte.
fn unescaped(alloc: Global, text: &str) -> Result<Vec<u8>, AllocError> {
    let mut bytes = Vec::new(alloc);
    let mut is_first = true;
    for piece in text.split("\\x") {
        if is_first {
            bytes.extend_from_slice(piece.as_bytes())?;
        } else {
            push_escaped(&mut bytes, piece.as_bytes())?;
        }
        is_first = false;
    }
    Ok(bytes)
}

// Pushes the byte that two digits spell, and what comes after them.
fn push_escaped(bytes: &mut Vec<u8>, piece: &[u8]) -> Result<(), AllocError> {
    match piece {
        [high, low, rest @ ..] => {
            bytes.push(digit(*high).wrapping_mul(16).wrapping_add(digit(*low)))?;
            bytes.extend_from_slice(rest)
        }
        _ => bytes.extend_from_slice(piece),
    }
}

// What a digit of base 16 counts, and 0 for what is none.
fn digit(byte: u8) -> u8 {
    match char::from(byte).to_digit(16) {
        Some(value) => value as u8,
        None => 0,
    }
}
