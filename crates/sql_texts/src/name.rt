//! Names: ASCII words, folded to capitals.

ghost use Rattle.std.specs.Prelude.{◌≡◌, ◌≤◌, ◌↔◌, IfOk, IsTrue, length};
ghost use Rattle.sql_texts.specs.Names.{IsWordLike, folded};

use crate::NoMemory;
use std::alloc::Global;
use std::hash::{Hash, Hasher};
use std::marker::Model;

/// A regular identifier of ISO/IEC 9075-2, 5.2: a letter, then letters, digits and `_`, folded to
/// capitals, at most `MOST_NAME` characters. Contracts see its characters.
#[derive(Debug, Drop)]
pub struct Name {
    letters: Vec<u8>,
}

impl Model for Name {
    ghost use Rattle.std.specs.Prelude.{List, ℕ};
    ghost use Rattle.sql_texts.specs.Names.{IsName};

    ghost Value = { List ℕ };

    ghost view = { λ n. n.letters.items };

    ghost invariant = { λ n. IsName (n.letters.items) };
}

// The word with its letters folded.
fn capitals(alloc: Global, word: &[u8]) -> Result<Vec<u8>, NoMemory>
    ensures { IfOk result (λ v. v.items ≡ folded word.now) }
{
    Ok(word.iter().map(|b| b.to_ascii_uppercase()).collect(alloc)?)
}

impl Name {
    /// The name that a word spells, its letters folded to capitals.
    pub fn folded(alloc: Global, word: &[u8]) -> Result<Name, NoMemory>
        requires { IsWordLike word.now }
        ensures { IfOk result (λ n. n ≡ folded word.now) }
    {
        let letters = capitals(alloc, word)?;
        Ok(Name { letters })
    }

    /// The characters.
    pub fn as_bytes(&self) -> &[u8]
        ensures { result.now ≡ self.now }
    {
        self.letters.as_slice()
    }

    /// The same name once more.
    pub fn copied(&self) -> Result<Name, NoMemory>
        ensures { IfOk result (λ n. n ≡ self.now) }
    {
        Ok(Name {
            letters: self.letters.clone()?,
        })
    }

    /// Whether it is this other name.
    pub fn is(&self, other: &Name) -> bool
        ensures { IsTrue result ↔ (self.now ≡ other.now) }
    {
        self.letters.as_slice() == other.letters.as_slice()
    }
}

/// Names are the same where their characters are.
impl PartialEq for Name {
    ghost use Rattle.std.specs.Str.{bytes_eq};
    ghost use Rattle.std.specs.Cmp.Lexicographic.{nat_list_eq_equiv};
    ghost use Rattle.std.specs.Cmp as Cmp;

    ghost eq = { bytes_eq };

    ghost laws = { Cmp.partial_equiv_from_equiv nat_list_eq_equiv };

    fn eq(&self, other: &Name) -> bool {
        self.as_bytes() == other.as_bytes()
    }
}

impl Eq for Name {
    ghost use Rattle.std.specs.Cmp.Lexicographic.{nat_list_eq_equiv};

    ghost laws = { nat_list_eq_equiv };
}

impl Hash for Name {
    ghost use Rattle.std.specs.Hash as fed;
    ghost use Rattle.std.specs.Cmp.Rules.{hashing};
    ghost use borrow.Author.Rules.{rules};

    ghost hash_input = { λ n. fed.slice fed.u8 n };

    ghost respects_eq = { Prim.search (hashing, rules) };

    fn hash<H: Hasher>(&self, state: &mut H) {
        self.letters.hash(state);
    }
}
