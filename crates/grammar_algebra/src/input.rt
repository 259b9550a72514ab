//! A place in the tokens, from which a parser by recursive descent reads.

ghost use Rattle.std.specs.Prelude.{◌≡◌, [], ◌∷◌, ◌≤◌, length, drop, cond, true, IfOk, IfErr};
ghost use Rattle.sql_lex.specs.declared.token.TokenKind.TheVariants as kinds;
ghost use Rattle.sql_lex.specs.Tokens.{kind_of};
ghost use Rattle.grammar_algebra.specs.declared.fault.ParseError.TheVariants as errors;
ghost use Rattle.grammar_algebra.specs.Notation.{name_of, number_of, text_of};
ghost use Rattle.grammar_algebra.specs.Reading.{next_kind, next_token, begins, expect, enter};
ghost use Rattle.grammar_algebra.specs.Reading.{mapped, same_kind};
ghost use Rattle.grammar_algebra.specs.Reads.{Reads, lent};
ghost use Rattle.grammar_algebra.specs.Statement.{place};

use crate::fault::ParseError;
use sql_lex::{Lexeme, Token, TokenKind};
use sql_texts::{Name, NoMemory, Text};

#[tactic(auto, unfolding(crate::specs::Reading::same_kind))]
fn is_same(a: TokenKind, b: TokenKind) -> bool
    ensures same { result ≡ same_kind a b }
    ensures means { result ≡ true → a ≡ b }
{
    match a {
        TokenKind::Name => matches!(b, TokenKind::Name),
        TokenKind::Word(one) => match b {
            TokenKind::Word(other) => one == other,
            _ => false,
        },
        TokenKind::Number => matches!(b, TokenKind::Number),
        TokenKind::Text => matches!(b, TokenKind::Text),
        TokenKind::Sign(one) => match b {
            TokenKind::Sign(other) => one == other,
            _ => false,
        },
        TokenKind::Bad => matches!(b, TokenKind::Bad),
    }
}

/// The name that a token spells. NoMemory: there is none for the copy.
pub fn name_in(token: &Token) -> Result<Name, NoMemory>
    requires { kind_of token.now.lexeme ≡ kinds.Name }
    ensures { IfOk result (λ n. n ≡ name_of token.now.lexeme) }
{
    match &token.lexeme {
        Lexeme::Name(name) => name.copied(),
        _ => unreachable!(),
    }
}

/// The text that a token spells.
pub fn text_in(token: &Token) -> &Text
    requires { kind_of token.now.lexeme ≡ kinds.Text }
    ensures { result.now ≡ text_of token.now.lexeme }
{
    match &token.lexeme {
        Lexeme::Text(text) => text,
        _ => unreachable!(),
    }
}

/// The whole number that a token spells, or 0.
pub fn number_in(token: &Token) -> i64
    ensures { result ≡ number_of token.now.lexeme }
{
    match token.lexeme {
        Lexeme::Number(number) => number,
        _ => 0,
    }
}

/// The tokens that are left.
#[derive(Drop)]
pub struct Input<'a> {
    pub rest: &'a [Token],
}

impl<'a> Input<'a> {
    /// The tokens from a place on.
    pub fn from_place(tokens: &'a [Token], at: usize) -> Input<'a>
        requires { at ≤ length tokens.now }
        ensures { result.rest.now ≡ drop at tokens.now }
    {
        Input {
            rest: &tokens[at..],
        }
    }

    /// The place in these tokens from which they are left, where they are left of these.
    pub fn place_in(&self, tokens: &[Token]) -> usize
        ensures { result ≡ place tokens.now self.now.rest.now }
    {
        tokens.len().saturating_sub(self.rest.len())
    }

    /// The kind of the next token, if there is one.
    pub fn peek(&self) -> Option<TokenKind>
        ensures { result ≡ next_kind self.now.rest.now }
    {
        match self.rest {
            [token, ..] => Some(token.kind()),
            [] => None,
        }
    }

    /// Whether the next token is of the kind.
    pub fn sees(&self, kind: TokenKind) -> bool
        ensures { result ≡ begins (kind ∷ []) self.now.rest.now }
    {
        match self.peek() {
            Some(next) => is_same(next, kind),
            None => false,
        }
    }

    /// Whether the next token is of one of the kinds.
    #[tactic(auto, using(crate::proofs::Ahead::begins_none, crate::proofs::Ahead::begins_more))]
    pub fn sees_any(&self, kinds: &[TokenKind]) -> bool
        ensures { result ≡ begins kinds.now self.now.rest.now }
    {
        match kinds {
            [] => false,
            [kind, rest @ ..] => self.sees(*kind) || self.sees_any(rest),
        }
    }

    /// The number of the next token, or 0 where none is left: the place of what begins here.
    pub fn place(&self) -> usize
        ensures { result ≡ (next_token self.now.rest.now).number }
    {
        match self.rest {
            [token, ..] => token.number,
            [] => 0,
        }
    }

    /// Goes on after the next token.
    pub fn take(&mut self)
        ensures { self.new.rest.now ≡ drop 1 self.old.rest.now }
    {
        if let [_, rest @ ..] = self.rest {
            self.rest = rest;
        }
    }

    /// Goes on after the next token if it is of the kind, and says whether it was.
    pub fn eat(&mut self, kind: TokenKind) -> bool
        ensures found { result ≡ begins (kind ∷ []) self.old.rest.now }
        ensures after { self.new.rest.now ≡ cond result (drop 1 self.old.rest.now) self.old.rest.now }
    {
        let found = self.sees(kind);
        if found {
            self.take();
        }
        found
    }

    /// Reads a token of the kind. NoStatement: another token stands here, or none.
    #[tactic(auto, unfolding(crate::specs::Reading::same_kind))]
    pub fn expect(&mut self, kind: TokenKind) -> Result<&'a Token, ParseError>
        ensures reads { Reads (expect kind self.old.rest.now) (lent result) self.new.rest.now }
        ensures fits { IfOk result (λ t. kind_of t.now.lexeme ≡ kind) }
    {
        match self.rest {
            [token, rest @ ..] if is_same(token.kind(), kind) => {
                self.rest = rest;
                Ok(token)
            }
            _ => Err(ParseError::NoStatement),
        }
    }

    /// Opens a construct by a token of the kind, and answers how many more may be opened in it.
    /// NoStatement: another token stands here, or none. TooDeep: the token stands here, and none
    /// may be opened.
    pub fn open(&mut self, room: u32, kind: TokenKind) -> Result<u32, ParseError>
        ensures { Reads (mapped (λ p. p.1) (enter room kind self.old.rest.now)) result
            self.new.rest.now }
    {
        if !self.sees(kind) {
            return Err(ParseError::NoStatement);
        }
        if room == 0 {
            return Err(ParseError::TooDeep);
        }
        self.take();
        Ok(room - 1)
    }

    /// Reads a token of the kind after what was read, as it closes a construct. NoStatement:
    /// another token stands here, or none.
    pub fn close<T: Drop>(&mut self, kind: TokenKind, read: T) -> Result<T, ParseError>
        ensures { Reads (mapped (λ _. read) (expect kind self.old.rest.now)) result
            self.new.rest.now }
    {
        if self.eat(kind) {
            Ok(read)
        } else {
            Err(ParseError::NoStatement)
        }
    }
}
