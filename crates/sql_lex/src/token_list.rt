//! A script's tokens as one value.

ghost use Rattle.std.specs.Prelude.{◌≡◌, ◌≤◌, ◌<◌, ◌==◌, length};
ghost use Rattle.sql_lex.specs.Tokens.{AreSpans};
ghost use Rattle.sql_lex.specs.Openings.{opens_at, place_at, is_opening_word};
ghost use Rattle.sql_lex.specs.Openings.{follows_end as follows_end_at};

use crate::{Position, Sign, Token, TokenKind, Word};
use std::marker::Model;

/// The tokens of a script in their order, and the place of its end. Contracts see both as a
/// `Lexing`.
#[derive(Debug, Drop)]
pub struct Tokens {
    list: Vec<Token>,
    end_line: u64,
    end_column: u64,
}

impl Model for Tokens {
    ghost use Rattle.sql_lex.specs.Tokens.{AreSpans, Lexing};

    ghost Value = { Lexing };

    ghost view = { λ t. record { tokens = t.list.items; end_line = t.end_line; end_column = t.end_column } };

    ghost invariant = { λ t. AreSpans 0 0 t.list.items };
}

impl Tokens {
    /// These tokens, and the place of the end.
    pub(crate) fn of(list: Vec<Token>, end: Position) -> Tokens
        requires { AreSpans 0 0 list.items }
        ensures { result ≡ record {
          tokens = list.items;
          end_line = end.line;
          end_column =
              end.column;
        } }
    {
        Tokens {
            list,
            end_line: end.line,
            end_column: end.column,
        }
    }

    /// A law of every such value: the tokens count up from 0, their spans are in order and not
    /// empty, and only the last may be Bad.
    pub fn spans_are_in_order(&self)
        ensures { AreSpans 0 0 self.now.tokens }
    {
        let _ = &self.list;
    }

    /// How many tokens there are.
    pub fn len(&self) -> usize
        ensures { result ≡ length self.now.tokens }
    {
        self.list.len()
    }

    /// Whether there is none.
    pub fn is_empty(&self) -> bool
        ensures { result ≡ (length self.now.tokens == 0) }
    {
        self.list.is_empty()
    }

    /// The tokens in their order.
    pub fn as_slice(&self) -> &[Token]
        ensures { result.now ≡ self.now.tokens }
    {
        self.list.as_slice()
    }
}

/// Whether the token opens a construct, by the tokens alone: `(`, and, but right after END, CASE,
/// BEGIN, IF, LOOP, WHILE and REPEAT.
pub fn opens(tokens: &Tokens, at: usize) -> bool
    requires { at < length tokens.now.tokens }
    ensures { result ≡ opens_at tokens.now.tokens at }
{
    let list = tokens.as_slice();
    match list[at].kind() {
        TokenKind::Sign(sign) => sign == Sign::LeftParen,
        TokenKind::Word(word) => opens_by_itself(word) && !follows_end(list, at),
        TokenKind::Name | TokenKind::Number | TokenKind::Text | TokenKind::Bad => false,
    }
}

// Whether the word opens a construct, where END does not stand right before it.
fn opens_by_itself(word: Word) -> bool
    ensures { result ≡ is_opening_word word }
{
    matches!(
        word,
        Word::Case | Word::Begin | Word::If | Word::Loop | Word::While | Word::Repeat
    )
}

// Whether END stands right before the token.
fn follows_end(list: &[Token], at: usize) -> bool
    requires { at < length list.now }
    ensures { result ≡ follows_end_at list.now at }
{
    at > 0 && list[at - 1].kind() == TokenKind::Word(Word::End)
}

/// The line and the column of the token, or, after the last one, of the end of the script.
pub fn place(tokens: &Tokens, at: usize) -> (u64, u64)
    requires { at ≤ length tokens.now.tokens }
    ensures { result ≡ place_at tokens.now at }
{
    match tokens.as_slice().get(at) {
        Some(token) => (token.line, token.column),
        None => (tokens.end_line, tokens.end_column),
    }
}
