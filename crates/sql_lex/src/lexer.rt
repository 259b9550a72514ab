//! The tokens of a script, from its first byte on.

ghost use Rattle.std.specs.Prelude.{◌≡◌, ◌<◌, ◌+◌, ◌^◌, length, IfOk};
ghost use Rattle.sql_lex.specs.Tokens.{IsTokens, token_at as the_token};

use crate::step::{Step, next_step};
use crate::{Lexeme, Position, Token, Tokens};
use sql_texts::NoMemory;
use std::alloc::Global;

// The token of a lexeme with its number, its place and its length.
fn token_at(lexeme: Lexeme, number: usize, position: Position, width: usize) -> Token
    requires { position.at + width < 2 ^ 63 }
    ensures { result ≡ the_token lexeme number position width }
{
    Token {
        lexeme,
        number,
        start: position.at,
        end: position.at + width,
        line: position.line,
        column: position.column,
    }
}

/// The tokens of a script.
///
/// # Errors
///
/// `NoMemory` comes only where memory was refused.
pub fn tokens(alloc: Global, bytes: &[u8]) -> Result<Tokens, NoMemory>
    ensures { IfOk result (λ t. IsTokens bytes.now t) }
{
    let mut list = Vec::new(alloc);
    let mut position = Position::ORIGIN;
    while position.at < bytes.len() {
        let rest = &bytes[position.at..];
        match next_step(alloc, rest)? {
            Step::Gap(width) => position = position.past(&rest[..width]),
            Step::Token(lexeme, width) => {
                list.push(token_at(lexeme, list.len(), position, width))?;
                position = position.past(&rest[..width]);
            }
            Step::Bad => {
                list.push(token_at(Lexeme::Bad, list.len(), position, 1))?;
                position = position.past(rest);
            }
        }
    }
    Ok(Tokens::of(list, position))
}
