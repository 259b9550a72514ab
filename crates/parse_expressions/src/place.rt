//! Anchors, names and tables of tokens.

ghost use Rattle.std.specs.Prelude.{◌≡◌, []};
ghost use Rattle.grammar_algebra.specs.Reading.{next_token, reading};
ghost use Rattle.grammar_algebra.specs.Reads.{Reads};
ghost use Rattle.grammar_sql.specs.Trees as trees;
ghost use Rattle.grammar_sql.specs.Sql.{rules};

use grammar_algebra::{Input, ParseError, name_in};
use sql_lex::{Token, TokenKind};
use syntax_trees::{Anchor, Ident};

/// The anchor of what stands at a token: its number, its line and its column. It reads nothing.
pub fn anchor_in(token: &Token) -> Anchor
    ensures { result ≡ trees.anchor_of token.now }
{
    Anchor {
        token: token.number,
        line: token.line,
        column: token.column,
    }
}

/// The anchor of what begins at the next token. It reads nothing.
pub fn anchor(input: &Input<'_>) -> Anchor
    ensures { result ≡ trees.anchor_of (next_token input.now.rest.now) }
{
    match input.rest {
        [token, ..] => anchor_in(token),
        [] => Anchor {
            token: 0,
            line: 1,
            column: 1,
        },
    }
}

/// One token of a table: what it stands for, and its anchor, by the rule `choice`. The first line
/// stands apart, since no table is empty. On Ok the input stands after the token, else at one that
/// stands in no line.
pub fn choice<T: Copy>(
    input: &mut Input<'_>,
    room: u32,
    kind: TokenKind,
    meaning: T,
    more: &[(TokenKind, T)],
) -> Result<(T, Anchor), ParseError>
    ensures { Reads (reading rules room (trees.choice (kind, meaning) more.now) input.old.rest.now)
        result input.new.rest.now }
{
    match more {
        [] => chosen(input, room, kind, meaning),
        [next, rest @ ..] => {
            if input.sees(kind) {
                chosen(input, room, kind, meaning)
            } else {
                choice(input, room, next.0, next.1, rest)
            }
        }
    }
}

// What a token of the kind stands for, and its anchor.
fn chosen<T: Copy>(
    input: &mut Input<'_>,
    room: u32,
    kind: TokenKind,
    meaning: T,
) -> Result<(T, Anchor), ParseError>
    ensures { Reads (reading rules room (trees.choice (kind, meaning) []) input.old.rest.now) result
        input.new.rest.now }
{
    let token = input.expect(kind)?;
    Ok((meaning, anchor_in(token)))
}

/// A name (ISO/IEC 9075-2, 5.4), by the rule `ident`. On Ok the input stands after it, else at the
/// token that is no name.
#[tactic(auto, unfolding(grammar_sql::specs::Trees::ident))]
pub fn ident(input: &mut Input<'_>, room: u32) -> Result<Ident, ParseError>
    ensures { Reads (reading rules room trees.ident input.old.rest.now) result input.new.rest.now }
{
    let token = input.expect(TokenKind::Name)?;
    let name = name_in(token)?;
    let anchor = anchor_in(token);
    Ok(Ident { name, anchor })
}
