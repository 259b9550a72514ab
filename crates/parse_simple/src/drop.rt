//! DROP.

ghost use Rattle.std.specs.Prelude.{◌≡◌};
ghost use Rattle.grammar_algebra.specs.Reading.{reading};
ghost use Rattle.grammar_algebra.specs.Reads.{Reads};
ghost use Rattle.grammar_sql.specs.Definitions as definitions;
ghost use Rattle.grammar_sql.specs.Sql.{rules};

use grammar_algebra::{Input, ParseError};
use parse_expressions::{anchor_in, ident};
use sql_lex::{TokenKind, Word};
use statement_trees::{DropObject, ObjectSort};
use syntax_trees::{Anchor, Ident};

#[tactic(auto, unfolding(grammar_sql::specs::Definitions::object_sort))]
fn object_sort(input: &mut Input<'_>, room: u32) -> Result<ObjectSort, ParseError>
    ensures { Reads (reading rules room definitions.object_sort input.old.rest.now) result
        input.new.rest.now }
{
    if input.eat(TokenKind::Word(Word::Table)) {
        return Ok(ObjectSort::Table);
    }
    if input.eat(TokenKind::Word(Word::Function)) {
        return Ok(ObjectSort::Function);
    }
    input.expect(TokenKind::Word(Word::Procedure))?;
    Ok(ObjectSort::Procedure)
}

// A name, after which RESTRICT may stand.
#[tactic(auto, unfolding(grammar_sql::specs::Definitions::dropped_name))]
fn dropped_name(input: &mut Input<'_>, room: u32) -> Result<Ident, ParseError>
    ensures { Reads (reading rules room definitions.dropped_name input.old.rest.now) result
        input.new.rest.now }
{
    let name = ident(input, room)?;
    input.eat(TokenKind::Word(Word::Restrict));
    Ok(name)
}

#[tactic(auto, unfolding(grammar_sql::specs::Definitions::drop_word))]
fn drop_word(input: &mut Input<'_>, room: u32) -> Result<Anchor, ParseError>
    ensures { Reads (reading rules room definitions.drop_word input.old.rest.now) result
        input.new.rest.now }
{
    let token = input.expect(TokenKind::Word(Word::Drop))?;
    Ok(anchor_in(token))
}

/// DROP with what it drops (ISO/IEC 9075-2, 11.31 and 11.62), by the rule `drop_object`. On Ok the
/// input stands after it, else at the token that does not go on.
#[tactic(auto, unfolding(grammar_sql::specs::Definitions::drop_object))]
pub fn drop_object(input: &mut Input<'_>, room: u32) -> Result<DropObject, ParseError>
    ensures { Reads (reading rules room definitions.drop_object input.old.rest.now) result
        input.new.rest.now }
{
    let anchor = drop_word(input, room)?;
    let sort = object_sort(input, room)?;
    let name = dropped_name(input, room)?;
    Ok(DropObject { anchor, sort, name })
}
