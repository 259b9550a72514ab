//! The reply of a statement that raises.

ghost use Rattle.std.specs.Prelude.{◌≡◌, ◌++◌, IfOk, OnOk};
ghost use Rattle.std.specs.List.{flat_map};
ghost use Rattle.reply_text.specs.Texts.{message_text, condition_line, further_line, area_text};
ghost use Rattle.reply_text.specs.Texts.{spent_text};

use crate::Reply;
use crate::bytes::put;
use sql_conditions::{Area, Condition};
use sql_values::NoMemory;
use std::alloc::Global;

// Writes a message; an empty one leaves no space.
fn put_message(text: &mut Vec<u8>, message: &[u8]) -> Result<(), NoMemory>
    ensures { OnOk result (text.new.items ≡ text.old.items ++ message_text message.now) }
{
    match message {
        [_, ..] => {
            put(text, b" ")?;
            put(text, message)
        }
        [] => Ok(()),
    }
}

// Writes a line with a condition.
fn put_condition(text: &mut Vec<u8>, condition: &Condition) -> Result<(), NoMemory>
    ensures { OnOk result (text.new.items ≡ text.old.items ++ condition_line condition.now) }
{
    put(text, condition.state.as_bytes())?;
    put_message(text, condition.message.as_str().as_bytes())?;
    put(text, b"\n")
}

// Writes a line with a further condition.
fn put_further(text: &mut Vec<u8>, condition: &Condition) -> Result<(), NoMemory>
    ensures { OnOk result (text.new.items ≡ text.old.items ++ further_line condition.now) }
{
    put(text, b"  ")?;
    put_condition(text, condition)
}

fn put_all_further(text: &mut Vec<u8>, conditions: &[Condition]) -> Result<(), NoMemory>
    ensures { OnOk result (text.new.items ≡ text.old.items ++ flat_map further_line conditions.now) }
{
    for condition in conditions {
        put_further(text, condition)?;
    }
    Ok(())
}

// Writes the conditions of an area.
fn put_conditions(text: &mut Vec<u8>, conditions: &[Condition]) -> Result<(), NoMemory>
    ensures { OnOk result (text.new.items ≡ text.old.items ++ area_text conditions.now) }
{
    match conditions {
        [first, more @ ..] => {
            put(text, b"! ")?;
            put_condition(text, first)?;
            put_all_further(text, more)
        }
        [] => Ok(()),
    }
}

/// The reply of a statement that raises: a line for each condition, the newest first.
pub fn area_reply(alloc: Global, area: &Area) -> Result<Reply, NoMemory>
    ensures { IfOk result (λ r. r ≡ area_text area.now) }
{
    let mut text = Vec::new(alloc);
    put_conditions(&mut text, area.as_slice())?;
    Ok(Reply::of_bytes(text))
}

/// The reply of a statement for which no turn was left.
pub fn spent_reply(alloc: Global) -> Result<Reply, NoMemory>
    ensures { IfOk result (λ r. r ≡ spent_text) }
{
    let text = Vec::from_slice(alloc, b"! PS001 budget exhausted\n")?;
    Ok(Reply::of_bytes(text))
}
