//! The text of SIGNAL and RESIGNAL, and the conditions that RESIGNAL raises again (ISO/IEC 9075-4, 17.2
//! and 17.3).

ghost use Rattle.std.specs.Prelude.{◌≡◌, IfOk};
ghost use Rattle.rel_algebra.specs.Diagnostics.{again_as, or_empty};
ghost use Rattle.run_places.specs.Texts.{text_in};

use run_choices::Raise;
use sql_conditions::{Area, Condition, Message, SqlState};
use sql_texts::Text;
use sql_values::{NoMemory, Value};
use std::alloc::Global;

/// The text that a value stands for: none where none is written. NULL, and what is no text, stand
/// for none at all (ISO/IEC 9075-4, 17.2).
pub fn text_of(value: Option<Value>) -> Option<Option<Text>>
    ensures { result ≡ text_in value }
{
    match value {
        None => Some(None),
        Some(Value::Str(text)) => Some(Some(text)),
        Some(_) => None,
    }
}

/// A text as a message, which is empty where none is written.
pub fn message_of(text: Option<Text>) -> Message
    ensures { result ≡ or_empty text }
{
    match text {
        Some(text) => Message::written(text),
        None => Message::empty(),
    }
}

// The handled conditions with a new condition first, or with another text.
fn renewed(state: &Option<SqlState>, text: Option<Text>, handled: &Raise) -> Result<Area, NoMemory>
    ensures { IfOk result (λ a. a ≡ again_as state.now text handled.now) }
{
    let mut area = handled.area()?;
    match (state, text) {
        (Some(state), text) => area.push_front(Condition {
            state: *state,
            message: message_of(text),
        }),
        (None, Some(text)) => area.retext(Message::written(text)),
        (None, None) => {}
    }
    Ok(area)
}

/// The handled conditions again (17.3), which share their area where nothing about them is new. Want
/// of memory is `Err`.
pub fn again(
    alloc: Global,
    state: &Option<SqlState>,
    text: Option<Text>,
    handled: &Raise,
) -> Result<Raise, NoMemory>
    ensures { IfOk result (λ r. r ≡ again_as state.now text handled.now) }
{
    match (state, text) {
        (None, None) => handled.copied(),
        (state, text) => Raise::held(alloc, renewed(state, text, handled)?),
    }
}
