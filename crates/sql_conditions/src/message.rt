//! Message texts. Those of the engine are constants; a written one shares its characters with its
//! copies.

ghost use Rattle.std.specs.Prelude.{◌≡◌, ◌≤◌, [], IfOk, length};
ghost use Rattle.std.specs.Str.{chars, encode_utf8_all};
ghost use Rattle.sql_texts.specs.declared.TheConstants.{MOST_TEXT};
ghost use Rattle.sql_conditions.specs.Texts.{message_of};

use crate::EngineCondition;
use sql_texts::{NoMemory, Text};
use std::alloc::Global;
use std::marker::Model;

// Where the characters lie.
#[derive(Debug, Drop)]
enum Words {
    None,
    Engine(EngineCondition),
    Written(Text),
}

// The text of a constant.
fn text_of_constant(alloc: Global, constant: &'static str) -> Result<Text, NoMemory>
    requires { length (chars constant.now) ≤ MOST_TEXT }
    ensures { IfOk result (λ t. t ≡ chars constant.now) }
{
    Text::of(alloc, String::from_str(alloc, constant)?)
}

/// The message text of a condition (ISO/IEC 9075-2, 23.1, MESSAGE_TEXT): at most 4,096 characters.
/// Contracts see its characters. Neither it nor a copy of it takes memory.
#[derive(Debug, Drop)]
pub struct Message {
    words: Words,
}

impl Model for Message {
    ghost use Rattle.std.specs.Prelude.{List, ℕ};

    ghost Value = { List ℕ };

    ghost use Rattle.sql_conditions.specs.Messages.{characters_of};

    ghost view = { λ m. characters_of m.words };
}

impl Message {
    /// The text without characters.
    pub fn empty() -> Message
        ensures { result ≡ [] }
    {
        Message { words: Words::None }
    }

    /// The text of a condition that the engine raises.
    pub fn of_engine(engine: EngineCondition) -> Message
        ensures { result ≡ message_of engine }
    {
        Message {
            words: Words::Engine(engine),
        }
    }

    /// A text that a script gives.
    pub fn written(text: Text) -> Message
        ensures { result ≡ text }
    {
        Message {
            words: Words::Written(text),
        }
    }

    /// The characters, as they are stored.
    pub fn as_str(&self) -> &str
        ensures characters { chars result.now ≡ self.now }
        ensures bytes { result.now ≡ encode_utf8_all self.now }
    {
        match &self.words {
            Words::None => "",
            Words::Engine(engine) => engine.text(),
            Words::Written(text) => text.as_str(),
        }
    }

    /// The message as a text: a written one is shared, another one takes memory.
    pub fn to_text(&self, alloc: Global) -> Result<Text, NoMemory>
        ensures { IfOk result (λ t. t ≡ self.now) }
    {
        match &self.words {
            Words::None => text_of_constant(alloc, ""),
            Words::Engine(engine) => text_of_constant(alloc, engine.text()),
            Words::Written(text) => Ok(text.copied()?),
        }
    }

    /// The same message once more; its characters are shared.
    pub fn copied(&self) -> Result<Message, NoMemory>
        ensures { IfOk result (λ m. m ≡ self.now) }
    {
        match &self.words {
            Words::None => Ok(Message::empty()),
            Words::Engine(engine) => Ok(Message::of_engine(*engine)),
            Words::Written(text) => Ok(Message::written(text.copied()?)),
        }
    }
}
