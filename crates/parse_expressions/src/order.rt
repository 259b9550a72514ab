//! ORDER BY.

ghost use Rattle.std.specs.Prelude.{◌≡◌};
ghost use Rattle.grammar_algebra.specs.Grammar.{optional};
ghost use Rattle.grammar_algebra.specs.Notation.{◌=>◌};
ghost use Rattle.grammar_algebra.specs.Reading.{reading};
ghost use Rattle.grammar_algebra.specs.Reads.{Reads};
ghost use Rattle.grammar_sql.specs.Queries as queries;
ghost use Rattle.grammar_sql.specs.Sql.{rules};

use crate::commas::{ListItem, comma_list};
use crate::place::ident;
use grammar_algebra::{Input, ParseError};
use sql_lex::{TokenKind, Word};
use sqlite_items::Items;
use std::alloc::Global;
use syntax_trees::SortSpecification;

// Whether DESC stands here. ASC may stand in its place.
#[tactic(auto, unfolding(grammar_sql::specs::Queries::direction))]
fn is_descending(input: &mut Input<'_>, room: u32) -> Result<bool, ParseError>
    ensures { Reads (reading rules room (queries.if_descending => optional queries.direction)
        input.old.rest.now) result input.new.rest.now }
{
    if input.eat(TokenKind::Word(Word::Asc)) {
        return Ok(false);
    }
    Ok(input.eat(TokenKind::Word(Word::Desc)))
}

// A name, and whether the order by it is descending.
#[tactic(auto, unfolding(grammar_sql::specs::Queries::sort_specification))]
fn sort_specification(input: &mut Input<'_>, room: u32) -> Result<SortSpecification, ParseError>
    ensures { Reads (reading rules room queries.sort_specification input.old.rest.now) result
        input.new.rest.now }
{
    let name = ident(input, room)?;
    let descending = is_descending(input, room)?;
    Ok(SortSpecification { name, descending })
}

// The columns of ORDER BY.
struct SortSpecifications;

impl ListItem for SortSpecifications {
    type Tree = SortSpecification;

    ghost item = { queries.sort_specification };

    fn read(
        _alloc: Global,
        input: &mut Input<'_>,
        room: u32,
    ) -> Result<SortSpecification, ParseError> {
        sort_specification(input, room)
    }
}

#[tactic(auto, unfolding(grammar_sql::specs::Queries::sort_specifications, grammar_sql::specs::Queries::more_sort_specifications))]
fn sort_specifications(
    alloc: Global,
    input: &mut Input<'_>,
    room: u32,
) -> Result<Items<SortSpecification>, ParseError>
    ensures { Reads (reading rules room queries.sort_specifications input.old.rest.now) result
        input.new.rest.now }
{
    comma_list::<SortSpecifications>(alloc, input, room)
}

// ORDER BY with its columns.
#[tactic(auto, unfolding(grammar_sql::specs::Queries::order_clause))]
fn order_clause(
    alloc: Global,
    input: &mut Input<'_>,
    room: u32,
) -> Result<Items<SortSpecification>, ParseError>
    ensures { Reads (reading rules room queries.order_clause input.old.rest.now) result
        input.new.rest.now }
{
    input.expect(TokenKind::Word(Word::Order))?;
    input.expect(TokenKind::Word(Word::By))?;
    sort_specifications(alloc, input, room)
}

/// ORDER BY with its columns (ISO/IEC 9075-2, 14.3), or no column where no ORDER BY stands here, by
/// the rule `order_by`. On Ok the input stands after the last column, if there is one, else at the
/// token that does not go on.
#[tactic(auto, unfolding(grammar_sql::specs::Queries::order_by, grammar_sql::specs::Queries::order_clause))]
pub fn order_by(
    alloc: Global,
    input: &mut Input<'_>,
    room: u32,
) -> Result<Items<SortSpecification>, ParseError>
    ensures { Reads (reading rules room queries.order_by input.old.rest.now) result
        input.new.rest.now }
{
    if input.sees(TokenKind::Word(Word::Order)) {
        order_clause(alloc, input, room)
    } else {
        Ok(Items::new(alloc))
    }
}
