//! Texts: lists of Unicode scalars.

ghost use Rattle.std.specs.Prelude.{◌≡◌, ◌≤◌, ◌+◌, ◌++◌, IfOk, length, take, drop, string_bytes};
ghost use Rattle.std.specs.Str.{chars, encode_utf8_all};
ghost use Rattle.std.specs.Ordering.{nat_cmp};
ghost use Rattle.std.specs.Cmp.Lexicographic.{slice_cmp};

use crate::{MOST_TEXT, NoMemory};
use std::alloc::Global;
use std::cmp::Ordering;
use std::marker::Model;
use std::rc::Rc;

/// A text of at most `MOST_TEXT` characters. Contracts see its characters. Its copies share them,
/// so that a copy takes no memory.
#[derive(Debug, Drop)]
pub struct Text {
    characters: Rc<String>,
}

impl Model for Text {
    ghost use Rattle.std.specs.Prelude.{List, ℕ, string_bytes, length, ◌≤◌};
    ghost use Rattle.std.specs.Str.{chars};
    ghost use Rattle.sql_texts.specs.declared.TheConstants.{MOST_TEXT};

    ghost Value = { List ℕ };

    ghost view = { λ t. chars (string_bytes t.characters.value) };

    ghost invariant = { λ t. length (chars (string_bytes t.characters.value)) ≤ MOST_TEXT };
}

impl Text {
    /// The text of these characters.
    pub fn of(alloc: Global, characters: String) -> Result<Text, NoMemory>
        requires { length (chars (string_bytes characters)) ≤ MOST_TEXT }
        ensures { IfOk result (λ t. t ≡ chars (string_bytes characters)) }
    {
        Ok(Text {
            characters: Rc::new(alloc, characters)?,
        })
    }

    /// The characters, as they are stored.
    pub fn as_str(&self) -> &str
        ensures characters { chars result.now ≡ self.now }
        ensures bytes { result.now ≡ encode_utf8_all self.now }
    {
        self.characters.as_ref().as_str()
    }

    /// The same text once more; its characters are shared.
    pub fn copied(&self) -> Result<Text, NoMemory>
        ensures { IfOk result (λ t. t ≡ self.now) }
    {
        Ok(Text {
            characters: self.characters.clone()?,
        })
    }

    /// This text with another one after it (ISO/IEC 9075-2, 6.29).
    pub fn joined(&self, alloc: Global, other: &Text) -> Result<Text, NoMemory>
        requires { length self.now + length other.now ≤ MOST_TEXT }
        ensures { IfOk result (λ t. t ≡ self.now ++ other.now) }
    {
        let (front, rest) = (self.as_str(), other.as_str());
        let mut characters = String::with_capacity(alloc, front.len() + rest.len())?;
        characters.push_str(front)?;
        characters.push_str(rest)?;
        Text::of(alloc, characters)
    }

    /// So many of its characters, where the first so many are left out; fewer where it has no more
    /// (ISO/IEC 9075-2, 6.32).
    pub fn part(&self, alloc: Global, left_out: usize, count: usize) -> Result<Text, NoMemory>
        ensures { IfOk result (λ t. t ≡ take count (drop left_out self.now)) }
    {
        let all = self.characters.as_ref().as_str().chars();
        let characters = all.skip(left_out).take(count).collect(alloc)?;
        Text::of(alloc, characters)
    }

    /// The number of characters (ISO/IEC 9075-2, 6.28).
    pub fn len(&self) -> usize
        ensures count { result ≡ length self.now }
        ensures within { result ≤ MOST_TEXT }
    {
        self.characters.as_ref().as_str().chars().count()
    }

    /// How it stands to another text: the first character in which they differ decides, by code
    /// point, and else the lengths do (ISO/IEC 9075-2, 8.2).
    pub fn order(&self, other: &Text) -> Ordering
        ensures { result ≡ slice_cmp nat_cmp self.now other.now }
    {
        self.as_str().cmp(other.as_str())
    }
}

/// Texts are the same where their characters are.
impl PartialEq for Text {
    ghost use Rattle.std.specs.Str.{bytes_eq};
    ghost use Rattle.std.specs.Cmp.Lexicographic.{nat_list_eq_equiv};
    ghost use Rattle.std.specs.Cmp as Cmp;

    ghost eq = { bytes_eq };

    ghost laws = { Cmp.partial_equiv_from_equiv nat_list_eq_equiv };

    fn eq(&self, other: &Text) -> bool {
        self.as_str() == other.as_str()
    }
}

impl Eq for Text {
    ghost use Rattle.std.specs.Cmp.Lexicographic.{nat_list_eq_equiv};

    ghost laws = { nat_list_eq_equiv };
}
