//! GET DIAGNOSTICS.

ghost use Rattle.std.specs.Prelude.{◌≡◌};
ghost use Rattle.sql_lex.specs.declared.word.Word.TheVariants as words;
ghost use Rattle.grammar_algebra.specs.Notation.{word, ◌~>◌};
ghost use Rattle.grammar_algebra.specs.Grammar.{optional};
ghost use Rattle.grammar_algebra.specs.Reading.{reading};
ghost use Rattle.grammar_algebra.specs.Reads.{Reads};
ghost use Rattle.grammar_sql.specs.Conditions as conditions;
ghost use Rattle.grammar_sql.specs.Sql.{rules};

use grammar_algebra::{Input, ParseError, number_in};
use parse_expressions::{ListItem, anchor_in, choice, comma_list, ident};
use parse_nodes::area_or_current;
use sql_lex::{Sign, TokenKind, Word};
use sqlite_items::Items;
use statement_trees::{
    ConditionItem, ConditionItemName, ConditionNumber, DiagnosticsArea, DiagnosticsInformation,
    GetDiagnostics, StatementItem, StatementItemName,
};
use std::alloc::Global;
use syntax_trees::Anchor;

// ---- of an area as a whole

#[tactic(auto, unfolding(grammar_sql::specs::Conditions::statement_item_name))]
fn statement_item_name(
    input: &mut Input<'_>,
    room: u32,
) -> Result<(StatementItemName, Anchor), ParseError>
    ensures { Reads (reading rules room conditions.statement_item_name input.old.rest.now) result
        input.new.rest.now }
{
    choice(
        input,
        room,
        TokenKind::Word(Word::Number),
        StatementItemName::Number,
        &[(TokenKind::Word(Word::RowCount), StatementItemName::RowCount)],
    )
}

#[tactic(auto, unfolding(grammar_sql::specs::Conditions::statement_item_value))]
fn statement_item_value(
    input: &mut Input<'_>,
    room: u32,
) -> Result<(StatementItemName, Anchor), ParseError>
    ensures { Reads (reading rules room conditions.statement_item_value input.old.rest.now) result
        input.new.rest.now }
{
    input.expect(TokenKind::Sign(Sign::Equals))?;
    statement_item_name(input, room)
}

// A variable, and the item that it takes.
#[tactic(auto, unfolding(grammar_sql::specs::Conditions::statement_item))]
fn statement_item(input: &mut Input<'_>, room: u32) -> Result<StatementItem, ParseError>
    ensures { Reads (reading rules room conditions.statement_item input.old.rest.now) result
        input.new.rest.now }
{
    let target = ident(input, room)?;
    let value = statement_item_value(input, room)?;
    Ok(StatementItem {
        target,
        item: value.0,
    })
}

// Items of an area as a whole.
struct StatementItems;

impl ListItem for StatementItems {
    type Tree = StatementItem;

    ghost item = { conditions.statement_item };

    fn read(_alloc: Global, input: &mut Input<'_>, room: u32) -> Result<StatementItem, ParseError> {
        statement_item(input, room)
    }
}

#[tactic(auto, unfolding(grammar_sql::specs::Conditions::statement_items, grammar_sql::specs::Conditions::more_statement_items))]
fn statement_items(
    alloc: Global,
    input: &mut Input<'_>,
    room: u32,
) -> Result<Items<StatementItem>, ParseError>
    ensures { Reads (reading rules room conditions.statement_items input.old.rest.now) result
        input.new.rest.now }
{
    comma_list::<StatementItems>(alloc, input, room)
}

// ---- of one condition

#[tactic(auto, unfolding(grammar_sql::specs::Conditions::condition_item_name))]
fn condition_item_name(
    input: &mut Input<'_>,
    room: u32,
) -> Result<(ConditionItemName, Anchor), ParseError>
    ensures { Reads (reading rules room conditions.condition_item_name input.old.rest.now) result
        input.new.rest.now }
{
    choice(
        input,
        room,
        TokenKind::Word(Word::ReturnedSqlstate),
        ConditionItemName::ReturnedSqlstate,
        &[(
            TokenKind::Word(Word::MessageText),
            ConditionItemName::MessageText,
        )],
    )
}

#[tactic(auto, unfolding(grammar_sql::specs::Conditions::condition_item_value))]
fn condition_item_value(
    input: &mut Input<'_>,
    room: u32,
) -> Result<(ConditionItemName, Anchor), ParseError>
    ensures { Reads (reading rules room conditions.condition_item_value input.old.rest.now) result
        input.new.rest.now }
{
    input.expect(TokenKind::Sign(Sign::Equals))?;
    condition_item_name(input, room)
}

// A variable, and the item that it takes.
#[tactic(auto, unfolding(grammar_sql::specs::Conditions::condition_item))]
fn condition_item(input: &mut Input<'_>, room: u32) -> Result<ConditionItem, ParseError>
    ensures { Reads (reading rules room conditions.condition_item input.old.rest.now) result
        input.new.rest.now }
{
    let target = ident(input, room)?;
    let value = condition_item_value(input, room)?;
    Ok(ConditionItem {
        target,
        item: value.0,
    })
}

// Items of one condition.
struct ConditionItems;

impl ListItem for ConditionItems {
    type Tree = ConditionItem;

    ghost item = { conditions.condition_item };

    fn read(_alloc: Global, input: &mut Input<'_>, room: u32) -> Result<ConditionItem, ParseError> {
        condition_item(input, room)
    }
}

#[tactic(auto, unfolding(grammar_sql::specs::Conditions::condition_items, grammar_sql::specs::Conditions::more_condition_items))]
fn condition_items(
    alloc: Global,
    input: &mut Input<'_>,
    room: u32,
) -> Result<Items<ConditionItem>, ParseError>
    ensures { Reads (reading rules room conditions.condition_items input.old.rest.now) result
        input.new.rest.now }
{
    comma_list::<ConditionItems>(alloc, input, room)
}

#[tactic(auto, unfolding(grammar_sql::specs::Conditions::written_number))]
fn written_number(input: &mut Input<'_>, room: u32) -> Result<ConditionNumber, ParseError>
    ensures { Reads (reading rules room conditions.written_number input.old.rest.now) result
        input.new.rest.now }
{
    let token = input.expect(TokenKind::Number)?;
    Ok(ConditionNumber::Number(anchor_in(token), number_in(token)))
}

// The number of a condition, or the variable that holds it.
#[tactic(auto, unfolding(grammar_sql::specs::Conditions::condition_number, grammar_sql::specs::Conditions::written_number))]
fn condition_number(input: &mut Input<'_>, room: u32) -> Result<ConditionNumber, ParseError>
    ensures { Reads (reading rules room conditions.condition_number input.old.rest.now) result
        input.new.rest.now }
{
    if input.sees(TokenKind::Number) {
        return written_number(input, room);
    }
    Ok(ConditionNumber::Variable(ident(input, room)?))
}

#[tactic(auto, unfolding(grammar_sql::specs::Conditions::numbered_items))]
fn numbered_items(
    alloc: Global,
    input: &mut Input<'_>,
    room: u32,
) -> Result<(ConditionNumber, Items<ConditionItem>), ParseError>
    ensures { Reads (reading rules room conditions.numbered_items input.old.rest.now) result
        input.new.rest.now }
{
    let number = condition_number(input, room)?;
    let items = condition_items(alloc, input, room)?;
    Ok((number, items))
}

// CONDITION with its number and its items.
fn condition_information(
    alloc: Global,
    input: &mut Input<'_>,
    room: u32,
) -> Result<(ConditionNumber, Items<ConditionItem>), ParseError>
    ensures { Reads (reading rules room (word words.Condition ~> conditions.numbered_items)
        input.old.rest.now) result input.new.rest.now }
{
    input.expect(TokenKind::Word(Word::Condition))?;
    numbered_items(alloc, input, room)
}

// ---- the statement

// What is read: items of the area, or those of one condition.
#[tactic(auto, unfolding(grammar_sql::specs::Conditions::information, grammar_sql::specs::Conditions::condition_information, grammar_sql::specs::Conditions::statement_items, grammar_sql::specs::Conditions::statement_item, grammar_sql::specs::Trees::ident))]
fn information(
    alloc: Global,
    input: &mut Input<'_>,
    room: u32,
) -> Result<DiagnosticsInformation, ParseError>
    ensures { Reads (reading rules room conditions.information input.old.rest.now) result
        input.new.rest.now }
{
    if input.sees(TokenKind::Name) {
        return Ok(DiagnosticsInformation::Statement(statement_items(alloc, input, room)?));
    }
    let numbered = condition_information(alloc, input, room)?;
    Ok(DiagnosticsInformation::Condition(numbered.0, numbered.1))
}

#[tactic(auto, unfolding(grammar_sql::specs::Conditions::diagnostics))]
fn diagnostics(
    alloc: Global,
    input: &mut Input<'_>,
    room: u32,
) -> Result<DiagnosticsInformation, ParseError>
    ensures { Reads (reading rules room conditions.diagnostics input.old.rest.now) result
        input.new.rest.now }
{
    input.expect(TokenKind::Word(Word::Diagnostics))?;
    information(alloc, input, room)
}

#[tactic(auto, unfolding(grammar_sql::specs::Conditions::written_area))]
fn written_area(input: &mut Input<'_>, room: u32) -> Result<(DiagnosticsArea, Anchor), ParseError>
    ensures { Reads (reading rules room conditions.written_area input.old.rest.now) result
        input.new.rest.now }
{
    choice(
        input,
        room,
        TokenKind::Word(Word::Current),
        DiagnosticsArea::Current,
        &[(TokenKind::Word(Word::Stacked), DiagnosticsArea::Stacked)],
    )
}

// The same, if one stands here.
#[tactic(auto, unfolding(grammar_sql::specs::Conditions::written_area))]
fn if_area(
    input: &mut Input<'_>,
    room: u32,
) -> Result<Option<(DiagnosticsArea, Anchor)>, ParseError>
    ensures { Reads (reading rules room (optional conditions.written_area) input.old.rest.now)
        result input.new.rest.now }
{
    if input.sees_any(&[
        TokenKind::Word(Word::Current),
        TokenKind::Word(Word::Stacked),
    ]) {
        Ok(Some(written_area(input, room)?))
    } else {
        Ok(None)
    }
}

// The area that is read: the current one where none is written.
#[tactic(auto, unfolding(grammar_sql::specs::Conditions::area))]
fn area(input: &mut Input<'_>, room: u32) -> Result<DiagnosticsArea, ParseError>
    ensures { Reads (reading rules room conditions.area input.old.rest.now) result
        input.new.rest.now }
{
    let written = if_area(input, room)?;
    Ok(area_or_current(written))
}

#[tactic(auto, unfolding(grammar_sql::specs::Conditions::get_word))]
fn get_word(input: &mut Input<'_>, room: u32) -> Result<Anchor, ParseError>
    ensures { Reads (reading rules room conditions.get_word input.old.rest.now) result
        input.new.rest.now }
{
    let token = input.expect(TokenKind::Word(Word::Get))?;
    Ok(anchor_in(token))
}

/// GET DIAGNOSTICS with its area and its items (ISO/IEC 9075-2, 23.1), by the rule
/// `get_diagnostics`. On Ok the input stands after the last item, else at the token that does not
/// go on.
#[tactic(auto, unfolding(grammar_sql::specs::Conditions::get_diagnostics))]
pub fn get_diagnostics(
    alloc: Global,
    input: &mut Input<'_>,
    room: u32,
) -> Result<GetDiagnostics, ParseError>
    ensures { Reads (reading rules room conditions.get_diagnostics input.old.rest.now) result
        input.new.rest.now }
{
    let anchor = get_word(input, room)?;
    let area = area(input, room)?;
    let information = diagnostics(alloc, input, room)?;
    Ok(GetDiagnostics {
        anchor,
        area,
        information,
    })
}
