//! CREATE TABLE.

ghost use Rattle.std.specs.Prelude.{◌≡◌};
ghost use Rattle.grammar_algebra.specs.Notation.{◌~◌};
ghost use Rattle.grammar_algebra.specs.Reading.{begins, first, reading};
ghost use Rattle.grammar_algebra.specs.Reads.{Reads};
ghost use Rattle.grammar_sql.specs.Trees as trees;
ghost use Rattle.grammar_sql.specs.Definitions as definitions;
ghost use Rattle.grammar_sql.specs.Sql.{rules};

use grammar_algebra::{Input, ParseError};
use parse_expressions::{ListItem, anchor_in, bracketed_names, comma_list, data_type, ident};
use sql_lex::{Sign, TokenKind, Word};
use sqlite_items::Items;
use statement_trees::{Column, Constraint, TableElement};
use std::alloc::Global;
use syntax_trees::{Anchor, DataType, Ident};

/// The word CREATE, by the rule `create_word`. On Ok the input stands after it, else at the token
/// that is another.
#[tactic(auto, unfolding(grammar_sql::specs::Definitions::create_word))]
pub fn create_word(input: &mut Input<'_>, room: u32) -> Result<Anchor, ParseError>
    ensures { Reads (reading rules room definitions.create_word input.old.rest.now) result
        input.new.rest.now }
{
    let token = input.expect(TokenKind::Word(Word::Create))?;
    Ok(anchor_in(token))
}

#[tactic(auto, unfolding(grammar_sql::specs::Definitions::not_null))]
fn not_null(input: &mut Input<'_>, room: u32) -> Result<Constraint, ParseError>
    ensures { Reads (reading rules room definitions.not_null input.old.rest.now) result
        input.new.rest.now }
{
    input.expect(TokenKind::Word(Word::Not))?;
    input.expect(TokenKind::Word(Word::Null))?;
    Ok(Constraint::NotNull)
}

// PRIMARY KEY, with the place of its first word.
#[tactic(auto, unfolding(grammar_sql::specs::Definitions::key_words))]
fn key_words(input: &mut Input<'_>, room: u32) -> Result<Anchor, ParseError>
    ensures { Reads (reading rules room definitions.key_words input.old.rest.now) result
        input.new.rest.now }
{
    let token = input.expect(TokenKind::Word(Word::Primary))?;
    let anchor = anchor_in(token);
    input.expect(TokenKind::Word(Word::Key))?;
    Ok(anchor)
}

#[tactic(auto, unfolding(grammar_sql::specs::Definitions::primary_key))]
fn primary_key(input: &mut Input<'_>, room: u32) -> Result<Constraint, ParseError>
    ensures { Reads (reading rules room definitions.primary_key input.old.rest.now) result
        input.new.rest.now }
{
    Ok(Constraint::PrimaryKey(key_words(input, room)?))
}

#[tactic(auto, unfolding(grammar_sql::specs::Definitions::column_constraint, grammar_sql::specs::Definitions::not_null))]
fn column_constraint(input: &mut Input<'_>, room: u32) -> Result<Constraint, ParseError>
    ensures { Reads (reading rules room definitions.column_constraint input.old.rest.now) result
        input.new.rest.now }
{
    if input.sees(TokenKind::Word(Word::Not)) {
        not_null(input, room)
    } else {
        primary_key(input, room)
    }
}

#[tactic(auto, unfolding(grammar_sql::specs::Definitions::column_constraint, grammar_sql::specs::Definitions::not_null, grammar_sql::specs::Definitions::primary_key, grammar_sql::specs::Definitions::key_words))]
fn begins_constraint(input: &Input<'_>) -> bool
    ensures { result ≡ begins (first definitions.column_constraint) input.now.rest.now }
{
    input.sees_any(&[TokenKind::Word(Word::Not), TokenKind::Word(Word::Primary)])
}

#[tactic(auto, unfolding(grammar_sql::specs::Definitions::constraints, grammar_sql::specs::Definitions::column_constraint))]
fn constraints(
    alloc: Global,
    input: &mut Input<'_>,
    room: u32,
) -> Result<Items<Constraint>, ParseError>
    ensures { Reads (reading rules room definitions.constraints input.old.rest.now) result
        input.new.rest.now }
{
    let mut found = Items::new(alloc);
    'more: while begins_constraint(input) {
        match column_constraint(input, room) {
            Ok(next) => found.push(next)?,
            Err(error) => return Err(error),
        }
    }
    Ok(found)
}

// A type and its constraints.
fn typed(
    alloc: Global,
    input: &mut Input<'_>,
    room: u32,
) -> Result<(DataType, Items<Constraint>), ParseError>
    ensures { Reads (reading rules room (trees.data_type ~ definitions.constraints)
        input.old.rest.now) result input.new.rest.now }
{
    let data_type = data_type(input, room)?;
    let constraints = constraints(alloc, input, room)?;
    Ok((data_type, constraints))
}

#[tactic(auto, unfolding(grammar_sql::specs::Definitions::column))]
fn column(alloc: Global, input: &mut Input<'_>, room: u32) -> Result<Column, ParseError>
    ensures { Reads (reading rules room definitions.column input.old.rest.now) result
        input.new.rest.now }
{
    let name = ident(input, room)?;
    let (data_type, constraints) = typed(alloc, input, room)?;
    Ok(Column {
        name,
        data_type,
        constraints,
    })
}

// A column as an element of its table.
#[tactic(auto, unfolding(grammar_sql::specs::Definitions::table_column))]
fn table_column(alloc: Global, input: &mut Input<'_>, room: u32) -> Result<TableElement, ParseError>
    ensures { Reads (reading rules room definitions.table_column input.old.rest.now) result
        input.new.rest.now }
{
    Ok(TableElement::Column(column(alloc, input, room)?))
}

// PRIMARY KEY with its columns, as an element of their table.
#[tactic(auto, unfolding(grammar_sql::specs::Definitions::table_key))]
fn table_key(alloc: Global, input: &mut Input<'_>, room: u32) -> Result<TableElement, ParseError>
    ensures { Reads (reading rules room definitions.table_key input.old.rest.now) result
        input.new.rest.now }
{
    let anchor = key_words(input, room)?;
    let columns = bracketed_names(alloc, input, room)?;
    Ok(TableElement::PrimaryKey(anchor, columns))
}

#[tactic(auto, unfolding(grammar_sql::specs::Definitions::element, grammar_sql::specs::Definitions::table_column, grammar_sql::specs::Definitions::column, grammar_sql::specs::Trees::ident))]
fn element(alloc: Global, input: &mut Input<'_>, room: u32) -> Result<TableElement, ParseError>
    ensures { Reads (reading rules room definitions.element input.old.rest.now) result
        input.new.rest.now }
{
    if input.sees(TokenKind::Name) {
        table_column(alloc, input, room)
    } else {
        table_key(alloc, input, room)
    }
}

// The elements of a table.
struct TableElements;

impl ListItem for TableElements {
    type Tree = TableElement;

    ghost item = { definitions.element };

    fn read(alloc: Global, input: &mut Input<'_>, room: u32) -> Result<TableElement, ParseError> {
        element(alloc, input, room)
    }
}

#[tactic(auto, unfolding(grammar_sql::specs::Definitions::elements, grammar_sql::specs::Definitions::more_elements))]
fn elements(
    alloc: Global,
    input: &mut Input<'_>,
    room: u32,
) -> Result<Items<TableElement>, ParseError>
    ensures { Reads (reading rules room definitions.elements input.old.rest.now) result
        input.new.rest.now }
{
    comma_list::<TableElements>(alloc, input, room)
}

#[tactic(auto, unfolding(grammar_sql::specs::Trees::bracketed))]
fn bracketed_elements(
    alloc: Global,
    input: &mut Input<'_>,
    room: u32,
) -> Result<Items<TableElement>, ParseError>
    ensures { Reads (reading rules room (trees.bracketed trees.Elements) input.old.rest.now) result
        input.new.rest.now }
{
    let left = input.open(room, TokenKind::Sign(Sign::LeftParen))?;
    let inner = elements(alloc, input, left)?;
    input.close(TokenKind::Sign(Sign::RightParen), inner)
}

#[tactic(auto, unfolding(grammar_sql::specs::Definitions::table_definition))]
fn table_definition(
    alloc: Global,
    input: &mut Input<'_>,
    room: u32,
) -> Result<(Ident, Items<TableElement>), ParseError>
    ensures { Reads (reading rules room definitions.table_definition input.old.rest.now) result
        input.new.rest.now }
{
    let name = ident(input, room)?;
    let elements = bracketed_elements(alloc, input, room)?;
    Ok((name, elements))
}

/// TABLE with its name and its elements (ISO/IEC 9075-2, 11.3), by the rule `create_table`. On Ok
/// the input stands after the closing bracket, else at the token that does not go on.
#[tactic(auto, unfolding(grammar_sql::specs::Definitions::create_table))]
pub fn create_table(
    alloc: Global,
    input: &mut Input<'_>,
    room: u32,
) -> Result<(Ident, Items<TableElement>), ParseError>
    ensures { Reads (reading rules room definitions.create_table input.old.rest.now) result
        input.new.rest.now }
{
    input.expect(TokenKind::Word(Word::Table))?;
    table_definition(alloc, input, room)
}
