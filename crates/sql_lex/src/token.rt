//! Tokens.

use crate::{Sign, Word};
use sql_texts::{Name, Text};

/// What a token is, with what it spells.
#[derive(Debug, Drop)]
pub enum Lexeme {
    /// A name, folded to capitals.
    Name(Name),
    /// A reserved word.
    Word(Word),
    /// A whole number from 0 to 2^63-1.
    Number(i64),
    /// A text in single quotes.
    Text(Text),
    Sign(Sign),
    /// What begins no token. No token follows it.
    Bad,
}

/// What a rule of a grammar asks of a token.
#[derive(Clone, Copy, Debug, PartialEq, Eq)]
pub enum TokenKind {
    Name,
    Word(Word),
    Number,
    Text,
    Sign(Sign),
    Bad,
}

/// A token and where it stands. Its bytes are those from `start` up to `end`.
#[derive(Debug, Drop)]
pub struct Token {
    pub lexeme: Lexeme,
    /// Its place among the tokens, from 0.
    pub number: usize,
    pub start: usize,
    pub end: usize,
    /// Its line, counted by LF, from 1.
    pub line: u64,
    /// Its column in the line, counted in bytes, from 1.
    pub column: u64,
}

impl Token {
    ghost use Rattle.std.specs.Prelude.{◌≡◌};
    ghost use Rattle.sql_lex.specs.Tokens.{kind_of};

    /// What rules ask of it.
    pub fn kind(&self) -> TokenKind
        ensures { result ≡ kind_of self.now.lexeme }
    {
        match self.lexeme {
            Lexeme::Name(_) => TokenKind::Name,
            Lexeme::Word(word) => TokenKind::Word(word),
            Lexeme::Number(_) => TokenKind::Number,
            Lexeme::Text(_) => TokenKind::Text,
            Lexeme::Sign(sign) => TokenKind::Sign(sign),
            Lexeme::Bad => TokenKind::Bad,
        }
    }
}
