//! The reply to a fault of the script: the texts are this engine's own.

ghost use Rattle.std.specs.Prelude.{◌≡◌, IfOk};
ghost use Rattle.reply_text.specs.Texts.{kind_text, refusal_text, fault_text};

use crate::Reply;
use crate::bytes::{put, put_count};
use bind_faults::FaultKind;
use sql_values::NoMemory;
use std::alloc::Global;

/// What a script is refused for.
#[derive(Clone, Copy, Debug, PartialEq, Eq)]
pub enum FaultText {
    /// A name fault.
    Name(FaultKind),
    /// No statement is spelled there.
    Syntax,
    /// More constructs are open than may be.
    TooDeep,
}

// What is wrong with a name.
fn kind_text(kind: FaultKind) -> &'static str
    ensures { result.now ≡ kind_text kind }
{
    match kind {
        FaultKind::UnknownName => "unknown name",
        FaultKind::DuplicateName => "duplicate name",
        FaultKind::TypeMismatch => "type mismatch",
        FaultKind::WrongCount => "wrong count",
        FaultKind::NotPermitted => "not permitted",
        FaultKind::TooHigh => "too high",
    }
}

impl FaultText {
    /// The text.
    pub fn text(self) -> &'static str
        ensures { result.now ≡ refusal_text self }
    {
        match self {
            FaultText::Name(kind) => kind_text(kind),
            FaultText::Syntax => "syntax error",
            FaultText::TooDeep => "nesting too deep",
        }
    }
}

/// The reply to a fault: its text with its place, a line and a column, both from 1.
pub fn fault_reply(
    alloc: Global,
    fault: FaultText,
    line: u64,
    column: u64,
) -> Result<Reply, NoMemory>
    ensures { IfOk result (λ r. r ≡ fault_text fault line column) }
{
    let mut text = Vec::from_slice(alloc, b"! 42000 ")?;
    put(&mut text, fault.text().as_bytes())?;
    put(&mut text, b" at line ")?;
    put_count(&mut text, line)?;
    put(&mut text, b" column ")?;
    put_count(&mut text, column)?;
    put(&mut text, b"\n")?;
    Ok(Reply::of_bytes(text))
}
