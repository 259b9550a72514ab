//! Lists with commas.

ghost use Rattle.std.specs.Prelude.{◌≡◌};
ghost use Rattle.sql_lex.specs.declared.sign.Sign.TheVariants as signs;
ghost use Rattle.grammar_algebra.specs.Notation.{list_by};
ghost use Rattle.grammar_algebra.specs.Reading.{reading};
ghost use Rattle.grammar_algebra.specs.Reads.{Reads};
ghost use Rattle.grammar_sql.specs.Trees.{G};
ghost use Rattle.grammar_sql.specs.Sql.{rules};

use grammar_algebra::{Input, ParseError};
use parse_nodes::only;
use sql_lex::{Sign, TokenKind};
use sqlite_items::Items;
use std::alloc::Global;

/// What stands in a list with commas: how one item is written, and how it is read. No code has a
/// value of such a type.
pub trait ListItem {
    /// The tree of an item.
    type Tree: Drop;

    /// How an item is written.
    ghost item: { G Self.Tree };

    /// An item. On Ok the input stands after it, else at the token that does not go on.
    fn read(alloc: Global, input: &mut Input<'_>, room: u32) -> Result<Self::Tree, ParseError>
        ensures { Reads (reading rules room item input.old.rest.now) result input.new.rest.now };
}

/// Items with commas between them, one or more. On Ok the input stands after the last one, else at
/// the token that does not go on.
pub fn comma_list<I: ListItem>(
    alloc: Global,
    input: &mut Input<'_>,
    room: u32,
) -> Result<Items<I::Tree>, ParseError>
    ensures { Reads (reading rules room (list_by signs.Comma I.item) input.old.rest.now) result
        input.new.rest.now }
{
    let first = I::read(alloc, input, room)?;
    let mut found = only(alloc, first)?;
    'more: while input.eat(TokenKind::Sign(Sign::Comma)) {
        match I::read(alloc, input, room) {
            Ok(next) => found.push(next)?,
            Err(error) => return Err(error),
        }
    }
    Ok(found)
}
