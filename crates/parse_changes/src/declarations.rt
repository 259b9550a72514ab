//! Declarations of variables, conditions and cursors.

ghost use Rattle.std.specs.Prelude.{◌≡◌};
ghost use Rattle.grammar_algebra.specs.Notation.{◌~◌};
ghost use Rattle.grammar_algebra.specs.Reading.{reading};
ghost use Rattle.grammar_algebra.specs.Reads.{Reads};
ghost use Rattle.grammar_sql.specs.Declarations as declarations;
ghost use Rattle.grammar_sql.specs.Trees as trees;
ghost use Rattle.grammar_sql.specs.Sql.{rules};

use grammar_algebra::{Input, ParseError};
use parse_expressions::{data_type, ident};
use parse_nodes::variables_of;
use parse_queries::{if_after, ordered_query};
use parse_simple::{begins_variables, condition, more_names};
use sql_lex::{TokenKind, Word};
use sqlite_items::Items;
use statement_trees::{ConditionDeclaration, CursorDeclaration, Declaration};
use std::alloc::Global;
use syntax_trees::{DataType, Expr, Ident, OrderedQuery};

// A type, and the default if there is one.
#[tactic(auto, unfolding(grammar_sql::specs::Declarations::default_clause))]
fn typed(
    alloc: Global,
    input: &mut Input<'_>,
    room: u32,
) -> Result<(DataType, Option<Expr>), ParseError>
    ensures { Reads (reading rules room (trees.data_type ~ declarations.default_clause)
        input.old.rest.now) result input.new.rest.now }
{
    let data_type = data_type(input, room)?;
    let default = if_after(alloc, input, room, TokenKind::Word(Word::Default))?;
    Ok((data_type, default))
}

// What stands after the first name of variables.
#[tactic(auto, unfolding(grammar_sql::specs::Declarations::variables))]
fn variables(
    alloc: Global,
    input: &mut Input<'_>,
    room: u32,
) -> Result<(Items<Ident>, (DataType, Option<Expr>)), ParseError>
    ensures { Reads (reading rules room declarations.variables input.old.rest.now) result
        input.new.rest.now }
{
    let names = more_names(alloc, input, room)?;
    let typed = typed(alloc, input, room)?;
    Ok((names, typed))
}

// CURSOR FOR with its query.
#[tactic(auto, unfolding(grammar_sql::specs::Declarations::cursor))]
fn cursor(alloc: Global, input: &mut Input<'_>, room: u32) -> Result<OrderedQuery, ParseError>
    ensures { Reads (reading rules room declarations.cursor input.old.rest.now) result
        input.new.rest.now }
{
    input.expect(TokenKind::Word(Word::Cursor))?;
    input.expect(TokenKind::Word(Word::For))?;
    ordered_query(alloc, input, room)
}

/// A declaration of variables, a condition or a cursor, without DECLARE (ISO/IEC 9075-4, 14.3 and
/// 14.4, and ISO/IEC 9075-2, 14.1), by the rule `named_declaration`. On Ok the input stands after
/// it, else at the token that does not go on.
#[tactic(auto, unfolding(grammar_sql::specs::Declarations::named_declaration, grammar_sql::specs::Declarations::condition))]
pub fn named_declaration(
    alloc: Global,
    input: &mut Input<'_>,
    room: u32,
) -> Result<Declaration, ParseError>
    ensures { Reads (reading rules room declarations.named_declaration input.old.rest.now) result
        input.new.rest.now }
{
    let name = ident(input, room)?;
    if begins_variables(input) {
        let variables = variables(alloc, input, room)?;
        return Ok(variables_of(alloc, name, variables)?);
    }
    if input.sees(TokenKind::Word(Word::Condition)) {
        let state = condition(input, room)?;
        return Ok(Declaration::Condition(ConditionDeclaration { name, state }));
    }
    let query = cursor(alloc, input, room)?;
    Ok(Declaration::Cursor(CursorDeclaration { name, query }))
}

/// A declaration of a cursor, without DECLARE (ISO/IEC 9075-2, 14.1), by the rule `named_cursor`.
/// On Ok the input stands after it, else at the token that does not go on.
#[tactic(auto, unfolding(grammar_sql::specs::Declarations::named_cursor))]
pub fn named_cursor(
    alloc: Global,
    input: &mut Input<'_>,
    room: u32,
) -> Result<Declaration, ParseError>
    ensures { Reads (reading rules room declarations.named_cursor input.old.rest.now) result
        input.new.rest.now }
{
    let name = ident(input, room)?;
    let query = cursor(alloc, input, room)?;
    Ok(Declaration::Cursor(CursorDeclaration { name, query }))
}
