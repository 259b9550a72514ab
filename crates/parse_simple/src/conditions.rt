//! States, what handlers wait for, and what SIGNAL and RESIGNAL raise.

ghost use Rattle.std.specs.Prelude.{◌≡◌};
ghost use Rattle.grammar_algebra.specs.Reading.{reading};
ghost use Rattle.grammar_algebra.specs.Reads.{Reads};
ghost use Rattle.grammar_sql.specs.Conditions as conditions;
ghost use Rattle.grammar_sql.specs.Sql.{rules};

use grammar_algebra::{Input, ParseError, text_in};
use parse_expressions::{ListItem, anchor_in, comma_list, ident};
use sql_lex::{TokenKind, Word};
use sqlite_items::Items;
use statement_trees::{ConditionValue, SignalValue, SqlstateValue};
use std::alloc::Global;

#[tactic(auto, unfolding(grammar_sql::specs::Conditions::state_text))]
fn state_text(input: &mut Input<'_>, room: u32) -> Result<SqlstateValue, ParseError>
    ensures { Reads (reading rules room conditions.state_text input.old.rest.now) result
        input.new.rest.now }
{
    let token = input.expect(TokenKind::Text)?;
    let text = text_in(token).copied()?;
    let anchor = anchor_in(token);
    Ok(SqlstateValue { anchor, text })
}

// The text of a state, perhaps after VALUE.
#[tactic(auto, unfolding(grammar_sql::specs::Conditions::state))]
fn state(input: &mut Input<'_>, room: u32) -> Result<SqlstateValue, ParseError>
    ensures { Reads (reading rules room conditions.state input.old.rest.now) result
        input.new.rest.now }
{
    input.eat(TokenKind::Word(Word::Value));
    state_text(input, room)
}

/// SQLSTATE with the text of the state.
#[tactic(auto, unfolding(grammar_sql::specs::Conditions::sqlstate))]
pub(crate) fn sqlstate(input: &mut Input<'_>, room: u32) -> Result<SqlstateValue, ParseError>
    ensures { Reads (reading rules room conditions.sqlstate input.old.rest.now) result
        input.new.rest.now }
{
    input.expect(TokenKind::Word(Word::Sqlstate))?;
    state(input, room)
}

// ---- what handlers wait for

#[tactic(auto, unfolding(grammar_sql::specs::Conditions::state_value))]
fn state_value(input: &mut Input<'_>, room: u32) -> Result<ConditionValue, ParseError>
    ensures { Reads (reading rules room conditions.state_value input.old.rest.now) result
        input.new.rest.now }
{
    let token = input.expect(TokenKind::Word(Word::Sqlstate))?;
    let anchor = anchor_in(token);
    let state = state(input, room)?;
    Ok(ConditionValue::Sqlstate(anchor, state))
}

#[tactic(auto, unfolding(grammar_sql::specs::Conditions::exception_value))]
fn exception_value(input: &mut Input<'_>, room: u32) -> Result<ConditionValue, ParseError>
    ensures { Reads (reading rules room conditions.exception_value input.old.rest.now) result
        input.new.rest.now }
{
    let token = input.expect(TokenKind::Word(Word::Sqlexception))?;
    Ok(ConditionValue::SqlException(anchor_in(token)))
}

#[tactic(auto, unfolding(grammar_sql::specs::Conditions::warning_value))]
fn warning_value(input: &mut Input<'_>, room: u32) -> Result<ConditionValue, ParseError>
    ensures { Reads (reading rules room conditions.warning_value input.old.rest.now) result
        input.new.rest.now }
{
    let token = input.expect(TokenKind::Word(Word::Sqlwarning))?;
    Ok(ConditionValue::SqlWarning(anchor_in(token)))
}

#[tactic(auto, unfolding(grammar_sql::specs::Conditions::not_found))]
fn not_found(input: &mut Input<'_>, room: u32) -> Result<ConditionValue, ParseError>
    ensures { Reads (reading rules room conditions.not_found input.old.rest.now) result
        input.new.rest.now }
{
    let token = input.expect(TokenKind::Word(Word::Not))?;
    let anchor = anchor_in(token);
    input.expect(TokenKind::Word(Word::Found))?;
    Ok(ConditionValue::NotFound(anchor))
}

#[tactic(auto, unfolding(grammar_sql::specs::Conditions::condition_value, grammar_sql::specs::Conditions::state_value, grammar_sql::specs::Trees::ident, grammar_sql::specs::Conditions::exception_value, grammar_sql::specs::Conditions::warning_value))]
fn condition_value(input: &mut Input<'_>, room: u32) -> Result<ConditionValue, ParseError>
    ensures { Reads (reading rules room conditions.condition_value input.old.rest.now) result
        input.new.rest.now }
{
    if input.sees(TokenKind::Word(Word::Sqlstate)) {
        return state_value(input, room);
    }
    if input.sees(TokenKind::Name) {
        return Ok(ConditionValue::Condition(ident(input, room)?));
    }
    if input.sees(TokenKind::Word(Word::Sqlexception)) {
        return exception_value(input, room);
    }
    if input.sees(TokenKind::Word(Word::Sqlwarning)) {
        return warning_value(input, room);
    }
    not_found(input, room)
}

// What a handler waits for.
struct ConditionValues;

impl ListItem for ConditionValues {
    type Tree = ConditionValue;

    ghost item = { conditions.condition_value };

    fn read(
        _alloc: Global,
        input: &mut Input<'_>,
        room: u32,
    ) -> Result<ConditionValue, ParseError> {
        condition_value(input, room)
    }
}

/// States, conditions and classes of them, with commas between them.
#[tactic(auto, unfolding(grammar_sql::specs::Conditions::condition_values, grammar_sql::specs::Conditions::more_condition_values))]
pub(crate) fn condition_values(
    alloc: Global,
    input: &mut Input<'_>,
    room: u32,
) -> Result<Items<ConditionValue>, ParseError>
    ensures { Reads (reading rules room conditions.condition_values input.old.rest.now) result
        input.new.rest.now }
{
    comma_list::<ConditionValues>(alloc, input, room)
}

// ---- what SIGNAL and RESIGNAL raise

/// A state, or the name of a condition (ISO/IEC 9075-4, 17.2), by the rule `signal_value`. On Ok
/// the input stands after it, else at the token that does not go on.
#[tactic(auto, unfolding(grammar_sql::specs::Conditions::signal_value, grammar_sql::specs::Conditions::sqlstate))]
pub fn signal_value(input: &mut Input<'_>, room: u32) -> Result<SignalValue, ParseError>
    ensures { Reads (reading rules room conditions.signal_value input.old.rest.now) result
        input.new.rest.now }
{
    if input.sees(TokenKind::Word(Word::Sqlstate)) {
        return Ok(SignalValue::Sqlstate(sqlstate(input, room)?));
    }
    Ok(SignalValue::Condition(ident(input, room)?))
}

/// The same, if it stands here. Where none stands here nothing is read.
#[tactic(auto, unfolding(grammar_sql::specs::Conditions::if_signal_value, grammar_sql::specs::Conditions::signal_value, grammar_sql::specs::Conditions::sqlstate, grammar_sql::specs::Trees::ident))]
pub fn if_signal_value(input: &mut Input<'_>, room: u32) -> Result<Option<SignalValue>, ParseError>
    ensures { Reads (reading rules room conditions.if_signal_value input.old.rest.now) result
        input.new.rest.now }
{
    if input.sees_any(&[TokenKind::Word(Word::Sqlstate), TokenKind::Name]) {
        Ok(Some(signal_value(input, room)?))
    } else {
        Ok(None)
    }
}
