//! Names that are written for tables and columns.

ghost use Rattle.std.specs.Prelude.{◌≡◌};
ghost use Rattle.grammar_algebra.specs.Grammar.{optional};
ghost use Rattle.grammar_algebra.specs.Reading.{reading};
ghost use Rattle.grammar_algebra.specs.Reads.{Reads};
ghost use Rattle.grammar_sql.specs.Trees as trees;
ghost use Rattle.grammar_sql.specs.Expressions as expressions;
ghost use Rattle.grammar_sql.specs.Queries as queries;
ghost use Rattle.grammar_sql.specs.Sql.{rules};

use crate::commas::{ListItem, comma_list};
use crate::place::ident;
use crate::words::if_dotted;
use grammar_algebra::{Input, ParseError};
use parse_nodes::column_name_of;
use sql_lex::{Sign, TokenKind, Word};
use sqlite_items::Items;
use std::alloc::Global;
use syntax_trees::{ColumnName, Ident};

/// A name after AS, or alone, by the rule `alias`. On Ok the input stands after it, else at the
/// token that does not go on.
#[tactic(auto, unfolding(grammar_sql::specs::Queries::alias))]
pub fn alias(input: &mut Input<'_>, room: u32) -> Result<Ident, ParseError>
    ensures { Reads (reading rules room queries.alias input.old.rest.now) result input.new.rest.now }
{
    input.eat(TokenKind::Word(Word::As));
    ident(input, room)
}

/// The same, if it stands here. Where none stands here nothing is read.
#[tactic(auto, unfolding(grammar_sql::specs::Queries::alias, grammar_sql::specs::Trees::ident))]
pub fn if_alias(input: &mut Input<'_>, room: u32) -> Result<Option<Ident>, ParseError>
    ensures { Reads (reading rules room (optional queries.alias) input.old.rest.now) result
        input.new.rest.now }
{
    if input.sees_any(&[TokenKind::Word(Word::As), TokenKind::Name]) {
        Ok(Some(alias(input, room)?))
    } else {
        Ok(None)
    }
}

// Names in a list.
struct Names;

impl ListItem for Names {
    type Tree = Ident;

    ghost item = { trees.ident };

    fn read(_alloc: Global, input: &mut Input<'_>, room: u32) -> Result<Ident, ParseError> {
        ident(input, room)
    }
}

/// Names with commas between them, by the rule `idents`. On Ok the input stands after the last
/// one, else at the token that does not go on.
#[tactic(auto, unfolding(grammar_sql::specs::Queries::idents, grammar_sql::specs::Queries::more_idents))]
pub fn idents(alloc: Global, input: &mut Input<'_>, room: u32) -> Result<Items<Ident>, ParseError>
    ensures { Reads (reading rules room queries.idents input.old.rest.now) result input.new.rest.now }
{
    comma_list::<Names>(alloc, input, room)
}

/// Names with commas between them, in brackets, by the rule `Names` in its brackets. On Ok the
/// input stands after the closing bracket, else at the token that does not go on.
#[tactic(auto, unfolding(grammar_sql::specs::Trees::bracketed))]
pub fn bracketed_names(
    alloc: Global,
    input: &mut Input<'_>,
    room: u32,
) -> Result<Items<Ident>, ParseError>
    ensures { Reads (reading rules room (trees.bracketed trees.Names) input.old.rest.now) result
        input.new.rest.now }
{
    let left = input.open(room, TokenKind::Sign(Sign::LeftParen))?;
    let inner = idents(alloc, input, left)?;
    input.close(TokenKind::Sign(Sign::RightParen), inner)
}

/// Names in brackets, or none, by the rule `column_list`. On Ok the input stands after the closing
/// bracket, if there is one, else at the token that does not go on.
#[tactic(auto, unfolding(grammar_sql::specs::Queries::column_list, grammar_sql::specs::Trees::bracketed))]
pub fn column_list(
    alloc: Global,
    input: &mut Input<'_>,
    room: u32,
) -> Result<Items<Ident>, ParseError>
    ensures { Reads (reading rules room queries.column_list input.old.rest.now) result
        input.new.rest.now }
{
    if input.sees(TokenKind::Sign(Sign::LeftParen)) {
        bracketed_names(alloc, input, room)
    } else {
        Ok(Items::new(alloc))
    }
}

// ---- columns

// Columns in a list.
struct Columns;

impl ListItem for Columns {
    type Tree = ColumnName;

    ghost item = { expressions.column_name };

    #[tactic(auto, unfolding(grammar_sql::specs::Expressions::column_name))]
    fn read(alloc: Global, input: &mut Input<'_>, room: u32) -> Result<ColumnName, ParseError> {
        let name = ident(input, room)?;
        let more = if_dotted(input, room)?;
        Ok(column_name_of(alloc, name, more)?)
    }
}

/// Columns with commas between them (ISO/IEC 9075-2, 6.7), by the rule `column_names`. On Ok the
/// input stands after the last one, else at the token that does not go on.
#[tactic(auto, unfolding(grammar_sql::specs::Queries::column_names, grammar_sql::specs::Queries::more_column_names))]
pub fn column_names(
    alloc: Global,
    input: &mut Input<'_>,
    room: u32,
) -> Result<Items<ColumnName>, ParseError>
    ensures { Reads (reading rules room queries.column_names input.old.rest.now) result
        input.new.rest.now }
{
    comma_list::<Columns>(alloc, input, room)
}
