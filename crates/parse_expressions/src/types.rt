//! Data types.

ghost use Rattle.std.specs.Prelude.{◌≡◌};
ghost use Rattle.grammar_algebra.specs.Reading.{begins, first, reading};
ghost use Rattle.grammar_algebra.specs.Reads.{Reads};
ghost use Rattle.grammar_sql.specs.Trees as trees;
ghost use Rattle.grammar_sql.specs.Sql.{rules};

use crate::place::{anchor_in, choice};
use grammar_algebra::{Input, ParseError, number_in};
use sql_lex::{Sign, TokenKind, Word};
use syntax_trees::{Anchor, DataType, TypeName};

// A type of no length, with its anchor.
#[tactic(auto, unfolding(grammar_sql::specs::Trees::plain_type))]
fn plain_type(input: &mut Input<'_>, room: u32) -> Result<(TypeName, Anchor), ParseError>
    ensures { Reads (reading rules room trees.plain_type input.old.rest.now) result
        input.new.rest.now }
{
    choice(
        input,
        room,
        TokenKind::Word(Word::Integer),
        TypeName::Integer,
        &[
            (TokenKind::Word(Word::Int), TypeName::Integer),
            (TokenKind::Word(Word::Boolean), TypeName::Boolean),
        ],
    )
}

#[tactic(auto, unfolding(grammar_sql::specs::Trees::plain_type))]
fn begins_plain_type(input: &Input<'_>) -> bool
    ensures { result ≡ begins (first trees.plain_type) input.now.rest.now }
{
    input.sees_any(&[
        TokenKind::Word(Word::Integer),
        TokenKind::Word(Word::Int),
        TokenKind::Word(Word::Boolean),
    ])
}

// A length as it is written, with its anchor.
#[tactic(auto, unfolding(grammar_sql::specs::Trees::varchar_length))]
fn varchar_length(input: &mut Input<'_>, room: u32) -> Result<(Anchor, i64), ParseError>
    ensures { Reads (reading rules room trees.varchar_length input.old.rest.now) result
        input.new.rest.now }
{
    let token = input.expect(TokenKind::Number)?;
    Ok((anchor_in(token), number_in(token)))
}

#[tactic(auto, unfolding(grammar_sql::specs::Trees::bracketed))]
fn bracketed_length(input: &mut Input<'_>, room: u32) -> Result<(Anchor, i64), ParseError>
    ensures { Reads (reading rules room (trees.bracketed trees.Length) input.old.rest.now) result
        input.new.rest.now }
{
    let left = input.open(room, TokenKind::Sign(Sign::LeftParen))?;
    let inner = varchar_length(input, left)?;
    input.close(TokenKind::Sign(Sign::RightParen), inner)
}

// VARCHAR with its length, and its anchor.
#[tactic(auto, unfolding(grammar_sql::specs::Trees::varchar))]
fn varchar(input: &mut Input<'_>, room: u32) -> Result<(TypeName, Anchor), ParseError>
    ensures { Reads (reading rules room trees.varchar input.old.rest.now) result input.new.rest.now }
{
    let token = input.expect(TokenKind::Word(Word::Varchar))?;
    let anchor = anchor_in(token);
    let length = bracketed_length(input, room)?;
    Ok((TypeName::Varchar(length.0, length.1), anchor))
}

/// A data type (ISO/IEC 9075-2, 6.1), by the rule `data_type`. On Ok the input stands after it,
/// else at the token that does not go on.
#[tactic(auto, unfolding(grammar_sql::specs::Trees::data_type))]
pub fn data_type(input: &mut Input<'_>, room: u32) -> Result<DataType, ParseError>
    ensures { Reads (reading rules room trees.data_type input.old.rest.now) result
        input.new.rest.now }
{
    if begins_plain_type(input) {
        let plain = plain_type(input, room)?;
        return Ok(DataType {
            anchor: plain.1,
            name: plain.0,
        });
    }
    let varchar = varchar(input, room)?;
    Ok(DataType {
        anchor: varchar.1,
        name: varchar.0,
    })
}
