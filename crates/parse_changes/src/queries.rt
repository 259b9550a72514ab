//! Queries after the words of statements.

ghost use Rattle.std.specs.Prelude.{◌≡◌};
ghost use Rattle.grammar_algebra.specs.Reading.{reading};
ghost use Rattle.grammar_algebra.specs.Reads.{Reads};
ghost use Rattle.grammar_sql.specs.Statements as statements;
ghost use Rattle.grammar_sql.specs.Sql as sql;
ghost use Rattle.grammar_sql.specs.Sql.{rules};

use grammar_algebra::{Input, ParseError};
use parse_expressions::anchor_in;
use parse_queries::ordered_query;
use sql_lex::{TokenKind, Word};
use statement_trees::Stmt;
use std::alloc::Global;
use syntax_trees::{Anchor, OrderedQuery};

/// AS with the query whose rows a FOR goes over (ISO/IEC 9075-4, 14.13), by the rule `for_query`.
/// On Ok the input stands after it, else at the token that does not go on.
#[tactic(auto, unfolding(grammar_sql::specs::Statements::for_query))]
pub fn for_query(
    alloc: Global,
    input: &mut Input<'_>,
    room: u32,
) -> Result<OrderedQuery, ParseError>
    ensures { Reads (reading rules room statements.for_query input.old.rest.now) result
        input.new.rest.now }
{
    input.expect(TokenKind::Word(Word::As))?;
    ordered_query(alloc, input, room)
}

#[tactic(auto, unfolding(grammar_sql::specs::Sql::explain_word))]
fn explain_word(input: &mut Input<'_>, room: u32) -> Result<Anchor, ParseError>
    ensures { Reads (reading rules room sql.explain_word input.old.rest.now) result
        input.new.rest.now }
{
    let token = input.expect(TokenKind::Word(Word::Explain))?;
    Ok(anchor_in(token))
}

/// EXPLAIN with its query, by the rule `explain`. On Ok the input stands after it, else at the
/// token that does not go on.
#[tactic(auto, unfolding(grammar_sql::specs::Sql::explain))]
pub fn explain(alloc: Global, input: &mut Input<'_>, room: u32) -> Result<Stmt, ParseError>
    ensures { Reads (reading rules room sql.explain input.old.rest.now) result input.new.rest.now }
{
    let anchor = explain_word(input, room)?;
    let query = ordered_query(alloc, input, room)?;
    Ok(Stmt::Explain(anchor, query))
}
