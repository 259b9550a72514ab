//! SIGNAL and RESIGNAL.

ghost use Rattle.std.specs.Prelude.{◌≡◌};
ghost use Rattle.grammar_algebra.specs.Reading.{reading};
ghost use Rattle.grammar_algebra.specs.Reads.{Reads};
ghost use Rattle.grammar_sql.specs.Conditions as conditions;
ghost use Rattle.grammar_sql.specs.Sql.{rules};

use grammar_algebra::{Input, ParseError};
use parse_expressions::anchor_in;
use parse_queries::after;
use parse_simple::{if_signal_value, signal_value};
use sql_lex::{Sign, TokenKind, Word};
use statement_trees::{Resignal, Signal};
use std::alloc::Global;
use syntax_trees::{Anchor, Expr};

#[tactic(auto, unfolding(grammar_sql::specs::Conditions::message_text))]
fn message_text(alloc: Global, input: &mut Input<'_>, room: u32) -> Result<Expr, ParseError>
    ensures { Reads (reading rules room conditions.message_text input.old.rest.now) result
        input.new.rest.now }
{
    input.expect(TokenKind::Word(Word::MessageText))?;
    after(alloc, input, room, TokenKind::Sign(Sign::Equals))
}

// SET with the text of the message.
#[tactic(auto, unfolding(grammar_sql::specs::Conditions::message))]
fn message(alloc: Global, input: &mut Input<'_>, room: u32) -> Result<Expr, ParseError>
    ensures { Reads (reading rules room conditions.message input.old.rest.now) result
        input.new.rest.now }
{
    input.expect(TokenKind::Word(Word::Set))?;
    message_text(alloc, input, room)
}

#[tactic(auto, unfolding(grammar_sql::specs::Conditions::if_message, grammar_sql::specs::Conditions::message))]
fn if_message(alloc: Global, input: &mut Input<'_>, room: u32) -> Result<Option<Expr>, ParseError>
    ensures { Reads (reading rules room conditions.if_message input.old.rest.now) result
        input.new.rest.now }
{
    if input.sees(TokenKind::Word(Word::Set)) {
        Ok(Some(message(alloc, input, room)?))
    } else {
        Ok(None)
    }
}

#[tactic(auto, unfolding(grammar_sql::specs::Conditions::signal_word))]
fn signal_word(input: &mut Input<'_>, room: u32) -> Result<Anchor, ParseError>
    ensures { Reads (reading rules room conditions.signal_word input.old.rest.now) result
        input.new.rest.now }
{
    let token = input.expect(TokenKind::Word(Word::Signal))?;
    Ok(anchor_in(token))
}

/// SIGNAL with its condition and its message.
#[tactic(auto, unfolding(grammar_sql::specs::Conditions::signal))]
pub(crate) fn signal(alloc: Global, input: &mut Input<'_>, room: u32) -> Result<Signal, ParseError>
    ensures { Reads (reading rules room conditions.signal input.old.rest.now) result
        input.new.rest.now }
{
    let anchor = signal_word(input, room)?;
    let value = signal_value(input, room)?;
    let message = if_message(alloc, input, room)?;
    Ok(Signal {
        anchor,
        value,
        message,
    })
}

#[tactic(auto, unfolding(grammar_sql::specs::Conditions::resignal_word))]
fn resignal_word(input: &mut Input<'_>, room: u32) -> Result<Anchor, ParseError>
    ensures { Reads (reading rules room conditions.resignal_word input.old.rest.now) result
        input.new.rest.now }
{
    let token = input.expect(TokenKind::Word(Word::Resignal))?;
    Ok(anchor_in(token))
}

/// RESIGNAL, perhaps with another condition and a message.
#[tactic(auto, unfolding(grammar_sql::specs::Conditions::resignal))]
pub(crate) fn resignal(
    alloc: Global,
    input: &mut Input<'_>,
    room: u32,
) -> Result<Resignal, ParseError>
    ensures { Reads (reading rules room conditions.resignal input.old.rest.now) result
        input.new.rest.now }
{
    let anchor = resignal_word(input, room)?;
    let value = if_signal_value(input, room)?;
    let message = if_message(alloc, input, room)?;
    Ok(Resignal {
        anchor,
        value,
        message,
    })
}
