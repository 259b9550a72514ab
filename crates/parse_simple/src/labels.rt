//! Labels, before a statement and after its END.

ghost use Rattle.std.specs.Prelude.{◌≡◌};
ghost use Rattle.sql_lex.specs.declared.token.TokenKind.TheVariants as kinds;
ghost use Rattle.grammar_algebra.specs.Grammar.{optional, token};
ghost use Rattle.grammar_algebra.specs.Notation.{◌~>◌};
ghost use Rattle.grammar_algebra.specs.Reading.{reading};
ghost use Rattle.grammar_algebra.specs.Reads.{Reads};
ghost use Rattle.grammar_sql.specs.Statements as statements;
ghost use Rattle.grammar_sql.specs.Trees as trees;
ghost use Rattle.grammar_sql.specs.Sql.{rules};

use grammar_algebra::{Input, ParseError};
use grammar_sql::StructureWord;
use parse_expressions::ident;
use sql_lex::{Sign, TokenKind, Word};
use syntax_trees::Ident;

// A name with its colon.
#[tactic(auto, unfolding(grammar_sql::specs::Statements::label))]
fn label(input: &mut Input<'_>, room: u32) -> Result<Ident, ParseError>
    ensures { Reads (reading rules room statements.label input.old.rest.now) result
        input.new.rest.now }
{
    let name = ident(input, room)?;
    input.close(TokenKind::Sign(Sign::Colon), name)
}

/// A label with its colon (ISO/IEC 9075-4, 14.1), if a name stands here, by the rule `if_label`. On
/// Ok the input stands after the colon, or where it stood if no name stands there, else at the
/// token that does not go on.
#[tactic(auto, unfolding(grammar_sql::specs::Statements::if_label, grammar_sql::specs::Statements::label, grammar_sql::specs::Trees::ident))]
pub fn if_label(input: &mut Input<'_>, room: u32) -> Result<Option<Ident>, ParseError>
    ensures { Reads (reading rules room statements.if_label input.old.rest.now) result
        input.new.rest.now }
{
    if input.sees(TokenKind::Name) {
        Ok(Some(label(input, room)?))
    } else {
        Ok(None)
    }
}

#[tactic(auto, unfolding(grammar_sql::specs::Trees::ident))]
fn if_name(input: &mut Input<'_>, room: u32) -> Result<Option<Ident>, ParseError>
    ensures { Reads (reading rules room (optional trees.ident) input.old.rest.now) result
        input.new.rest.now }
{
    if input.sees(TokenKind::Name) {
        Ok(Some(ident(input, room)?))
    } else {
        Ok(None)
    }
}

// A loop's word, and a name if one stands after it.
fn name_after(input: &mut Input<'_>, room: u32, word: Word) -> Result<Option<Ident>, ParseError>
    ensures { Reads (reading rules room (token (kinds.Word word) ~> optional trees.ident)
        input.old.rest.now) result input.new.rest.now }
{
    input.expect(TokenKind::Word(word))?;
    if_name(input, room)
}

/// What stands after END: of a loop its word, and a name if one is written (ISO/IEC 9075-4, 14.1
/// and 14.10 to 14.13), by the rule `end_label` of the word. On Ok the input stands after it, else
/// at the token that does not go on.
#[tactic(auto, unfolding(grammar_sql::specs::Statements::end_label))]
pub fn end_label(
    input: &mut Input<'_>,
    room: u32,
    word: StructureWord,
) -> Result<Option<Ident>, ParseError>
    ensures { Reads (reading rules room (statements.end_label word) input.old.rest.now) result
        input.new.rest.now }
{
    match word {
        StructureWord::Begin => if_name(input, room),
        StructureWord::Loop => name_after(input, room, Word::Loop),
        StructureWord::While => name_after(input, room, Word::While),
        StructureWord::Repeat => name_after(input, room, Word::Repeat),
        StructureWord::For => name_after(input, room, Word::For),
    }
}
