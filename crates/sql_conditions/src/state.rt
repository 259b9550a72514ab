//! SQLSTATE values and their classes.

ghost use Rattle.std.specs.Prelude.{◌≡◌, true, IfOk};
ghost use Rattle.std.specs.Str.{bytes_eq};
ghost use Rattle.std.specs.List.{list_all};
ghost use Rattle.sql_conditions.specs.States as spec;

use sql_texts::{NoMemory, Text};
use std::alloc::Global;
use std::marker::Model;

/// What the first two characters of an SQLSTATE say (ISO/IEC 9075-2, 24.1).
#[derive(Clone, Copy)]
pub enum Class {
    /// Nothing was raised.
    Success,
    /// It went on, with a warning.
    Warning,
    /// No row was met.
    NoData,
    /// Every other class.
    Exception,
}

/// An SQLSTATE (ISO/IEC 9075-2, 24.1): five characters, each a digit or a capital. Contracts see
/// its characters.
#[derive(Clone, Copy, Debug)]
pub struct SqlState {
    characters: [u8; 5],
}

impl Model for SqlState {
    ghost use Rattle.std.specs.Prelude.{List, ℕ, ◌≡◌, true};
    ghost use Rattle.std.specs.List.{list_all};
    ghost use Rattle.sql_conditions.specs.States.{is_state_character};

    ghost Value = { List ℕ };

    ghost view = { λ s. s.characters };

    ghost invariant = { λ s. list_all is_state_character s.characters ≡ true };

    ghost inverse = { λ characters. record { characters = characters } };
}

fn is_state_byte(byte: u8) -> bool
    ensures { result ≡ spec.is_state_character byte }
{
    48 <= byte && byte <= 57 || 65 <= byte && byte <= 90
}

fn are_state_bytes(bytes: &[u8]) -> bool
    ensures { result ≡ list_all spec.is_state_character bytes.now }
{
    bytes.iter().all(|byte| is_state_byte(*byte))
}

impl SqlState {
    /// A state that is known as the program is written.
    pub fn known(characters: [u8; 5]) -> SqlState
        requires { list_all spec.is_state_character characters ≡ true }
        ensures { result ≡ characters }
    {
        SqlState { characters }
    }

    /// The state that a text spells. `None` comes exactly where it isn't five digits or capitals.
    pub fn parse(text: &str) -> Option<SqlState>
        ensures { result ≡ spec.state_in_text text.now }
    {
        let bytes = text.as_bytes();
        match bytes {
            [a, b, c, d, e] if are_state_bytes(bytes) => Some(SqlState {
                characters: [*a, *b, *c, *d, *e],
            }),
            _ => None,
        }
    }

    /// The characters.
    pub fn as_bytes(&self) -> &[u8]
        ensures characters { result.now ≡ self.now }
        ensures state { spec.is_state self.now ≡ true }
    {
        &self.characters
    }

    /// The state as a text.
    pub fn to_text(&self, alloc: Global) -> Result<Text, NoMemory>
        ensures { IfOk result (λ t. t ≡ self.now) }
    {
        let characters = String::from_utf8_lossy(alloc, &self.characters)?;
        Text::of(alloc, characters)
    }

    /// Whether it is this other state.
    pub fn is(&self, other: &SqlState) -> bool
        ensures { result ≡ bytes_eq self.now other.now }
    {
        self.as_bytes() == other.as_bytes()
    }

    fn is_of(&self, class: &[u8]) -> bool
        ensures { result ≡ spec.is_class class.now self.now }
    {
        &self.characters[..2] == class
    }

    /// Whether it is of every class but success, warning and no data.
    pub fn is_exception(&self) -> bool
        ensures { result ≡ spec.is_exception self.now }
    {
        !(self.is_of(b"00") || self.is_of(b"01") || self.is_of(b"02"))
    }

    /// Its class.
    pub fn class(&self) -> Class
        ensures { result ≡ spec.class_of self.now }
    {
        if self.is_of(b"00") {
            Class::Success
        } else if self.is_of(b"01") {
            Class::Warning
        } else if self.is_of(b"02") {
            Class::NoData
        } else {
            Class::Exception
        }
    }
}
