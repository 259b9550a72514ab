//! The parts of expressions and queries that read neither an expression nor a query.

ghost use Rattle.std.specs.Prelude.{◌≡◌, []};
ghost use Rattle.grammar_sql.specs.declared.predicate_part.PredicatePart.TheVariants as predicate_parts;
ghost use Rattle.syntax_trees.specs.declared.expr.Expr.TheVariants as tree;
ghost use Rattle.grammar_algebra.specs.Grammar.{optional};
ghost use Rattle.grammar_algebra.specs.Notation.{◌=>◌};
ghost use Rattle.grammar_algebra.specs.Reading.{mapped, reading};
ghost use Rattle.grammar_algebra.specs.Reads.{Reads};
ghost use Rattle.grammar_sql.specs.Expressions as expressions;
ghost use Rattle.grammar_sql.specs.Queries as queries;
ghost use Rattle.grammar_sql.specs.Trees as trees;
ghost use Rattle.grammar_sql.specs.Sql.{rules};

use grammar_algebra::{Input, ParseError};
use grammar_sql::PredicatePart;
use parse_expressions::{anchor_in, dotted, ident, if_alias, literal, tested};
use parse_nodes::{only, qualified, unqualified};
use parse_reads::paired;
use sql_lex::{Sign, TokenKind};
use sqlite_items::Items;
use std::alloc::Global;
use syntax_trees::{Expr, Ident, SelectItem, TableRef};

/// A literal, as an expression.
pub(crate) fn literal_expr(input: &mut Input<'_>, room: u32) -> Result<Expr, ParseError>
    ensures { Reads (reading rules room ((λ p. tree.Literal p.1 p.0) => expressions.literal)
        input.old.rest.now) result input.new.rest.now }
{
    let (literal, anchor) = literal(input, room)?;
    Ok(Expr::Literal(anchor, literal))
}

/// IS or IS NOT with what it asks for.
pub(crate) fn tested_part(
    alloc: Global,
    input: &mut Input<'_>,
    room: u32,
) -> Result<PredicatePart, ParseError>
    ensures { Reads (reading rules room ((λ p. predicate_parts.Operation p []) =>
        expressions.tested) input.old.rest.now) result input.new.rest.now }
{
    let operation = tested(input, room)?;
    Ok(PredicatePart::Operation(operation, Items::new(alloc)))
}

/// A column of this name, or one after it whose FROM item this name is.
#[tactic(auto, unfolding(grammar_sql::specs::Expressions::dotted))]
pub(crate) fn named_column(
    alloc: Global,
    input: &mut Input<'_>,
    room: u32,
    name: Ident,
) -> Result<Expr, ParseError>
    ensures { Reads (mapped (λ more. tree.Name (expressions.column_name_of name more))
        (reading rules room (optional expressions.dotted) input.old.rest.now)) result
        input.new.rest.now }
{
    if input.sees(TokenKind::Sign(Sign::Period)) {
        let (name, column) = paired(name, dotted(input, room))?;
        return Ok(Expr::Name(qualified(alloc, name, column)?));
    }
    Ok(Expr::Name(unqualified(name)))
}

/// The `*` of a select list, as a list of one.
#[tactic(auto, unfolding(grammar_sql::specs::Queries::all_columns))]
pub(crate) fn all_columns(
    alloc: Global,
    input: &mut Input<'_>,
    room: u32,
) -> Result<Items<SelectItem>, ParseError>
    ensures { Reads (reading rules room (trees.only => queries.all_columns) input.old.rest.now)
        result input.new.rest.now }
{
    let token = input.expect(TokenKind::Sign(Sign::Asterisk))?;
    Ok(only(alloc, SelectItem::All(anchor_in(token)))?)
}

/// A table by its name, and the name that is written for it.
#[tactic(auto, unfolding(grammar_sql::specs::Queries::named_table))]
pub(crate) fn named_table(input: &mut Input<'_>, room: u32) -> Result<TableRef, ParseError>
    ensures { Reads (reading rules room queries.named_table input.old.rest.now) result
        input.new.rest.now }
{
    let table = ident(input, room)?;
    let name = if_alias(input, room)?;
    Ok(TableRef::Table(table, name))
}
