//! How a parser answers, how many constructs it may open, and the `;` after a statement.

ghost use Rattle.std.specs.Prelude.{◌≡◌, ◌≤◌, ◌-◌};
ghost use Rattle.sql_lex.specs.declared.sign.Sign.TheVariants as signs;
ghost use Rattle.sql_lex.specs.declared.token.TokenKind.TheVariants as kinds;
ghost use Rattle.grammar_algebra.specs.Reading.{expect, mapped};
ghost use Rattle.grammar_algebra.specs.Reads.{Reads};
ghost use Rattle.grammar_algebra.specs.Statement.{answered as answered_by, most_open};

use grammar_algebra::{Input, MOST_OPEN, ParseError, ParseFault};
use sql_lex::{Sign, TokenKind};

/// What was read, or why nothing was, with the place where the input stands. It reads nothing.
pub fn answered<T>(read: Result<T, ParseError>, place: usize) -> Result<(T, usize), ParseFault>
    ensures { result ≡ answered_by read place }
{
    match read {
        Ok(tree) => Ok((tree, place)),
        Err(error) => Err(error.at(place)),
    }
}

/// How many constructs may still be opened where so many are open already.
pub fn room_left(already_open: u32) -> u32
    requires { already_open ≤ most_open }
    ensures { result ≡ most_open - already_open }
{
    MOST_OPEN - already_open
}

/// What was read, with the `;` after it. On Ok the input stands after the `;`. NoStatement:
/// another token stands here, or none.
pub fn semicolon_after<T: Drop>(input: &mut Input<'_>, read: T) -> Result<T, ParseError>
    ensures { Reads (mapped (λ _. read) (expect (kinds.Sign signs.Semicolon) input.old.rest.now))
        result input.new.rest.now }
{
    input.close(TokenKind::Sign(Sign::Semicolon), read)
}
