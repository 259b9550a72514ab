//! Expressions and queries, which hold each other. `room` is the number of constructs that may
//! still be opened. One function reads the chains of every level, one what stands in the brackets
//! after a word, and one an expression after any token.

ghost use Rattle.std.specs.Prelude.{◌≡◌};
ghost use Rattle.grammar_sql.specs.declared.function_word.FunctionWord.TheVariants as function_words;
ghost use Rattle.grammar_sql.specs.declared.predicate_part.PredicatePart.TheVariants as predicate_parts;
ghost use Rattle.sql_lex.specs.declared.token.TokenKind.TheVariants as kinds;
ghost use Rattle.sql_lex.specs.declared.word.Word.TheVariants as words;
ghost use Rattle.syntax_trees.specs.declared.query.Query.TheVariants as query_of;
ghost use Rattle.grammar_algebra.specs.Grammar.{optional, token};
ghost use Rattle.grammar_algebra.specs.Notation.{◌~◌, ◌~>◌, ◌=>◌};
ghost use Rattle.grammar_algebra.specs.Reading.{reading};
ghost use Rattle.grammar_algebra.specs.Reads.{Reads};
ghost use Rattle.grammar_sql.specs.Trees as trees;
ghost use Rattle.grammar_sql.specs.Expressions as expressions;
ghost use Rattle.grammar_sql.specs.Queries as queries;
ghost use Rattle.grammar_sql.specs.Sql.{rules};

use crate::parts::{all_columns, literal_expr, named_column, named_table, tested_part};
use grammar_algebra::{Input, ParseError};
use grammar_sql::{ChainLevel, Function, FunctionWord, InValue, PredicatePart};
use parse_expressions::{
    anchor, anchor_in, as_type, begins_compared, begins_expr, begins_from_item, begins_link,
    begins_literal, begins_more, begins_predicate_part, begins_query, begins_when_clause,
    comparison_sign, function_word, group_by, ident, if_alias, if_not, if_sign, in_word,
    is_all_rows, is_lone_literal, naming, operator, select_word, values_word, word_of,
};
use parse_nodes::{
    applied, calls, derived, ended_by, inner_joined, left_joined, only, predicate_of, selected,
    substring_of,
};
use parse_reads::{
    aggregate_read, appended, begun_read, cases_read, cast_read, chain_read, char_length_read,
    closed, compared_read, exists_read, modulo_read, pair_read, paired, prefixed_read, put,
    subquery_read,
};
use sql_lex::{Sign, TokenKind, Word};
use sql_values::FoldKind;
use sqlite_items::Items;
use std::alloc::Global;
use syntax_trees::{
    ColumnName, Expr, FromItem, Link, Operation, Query, SelectItem, TableRef, ValueRow, Values,
};

/// An expression (ISO/IEC 9075-2, 6.26), by the rule `expr`. On Ok the input stands after it, else
/// at the token that does not go on.
#[tactic(auto, unfolding(grammar_sql::specs::Expressions::expr))]
#[cycle(parser)]
pub fn expr(alloc: Global, input: &mut Input<'_>, room: u32) -> Result<Expr, ParseError>
    ensures { Reads (reading rules room expressions.expr input.old.rest.now) result
        input.new.rest.now }
{
    if is_lone_literal(input) {
        return literal_expr(input, room);
    }
    chain(alloc, input, room, ChainLevel::Or)
}

// ---- chains

#[cycle(parser)]
fn chain(
    alloc: Global,
    input: &mut Input<'_>,
    room: u32,
    level: ChainLevel,
) -> Result<Expr, ParseError>
    ensures { Reads (reading rules room (expressions.chain_at level) input.old.rest.now) result
        input.new.rest.now }
{
    let first = operand(alloc, input, room, level)?;
    chain_read(alloc, paired(first, links(alloc, input, room, level)))
}

#[cycle(parser)]
fn links(
    alloc: Global,
    input: &mut Input<'_>,
    room: u32,
    level: ChainLevel,
) -> Result<Items<Link>, ParseError>
    ensures { Reads (reading rules room (expressions.links_at level) input.old.rest.now) result
        input.new.rest.now }
{
    let mut found = Items::new(alloc);
    'more: while begins_link(input, level) {
        found = put(found, link(alloc, input, room, level))?;
    }
    Ok(found)
}

#[cycle(parser)]
fn link(
    alloc: Global,
    input: &mut Input<'_>,
    room: u32,
    level: ChainLevel,
) -> Result<Link, ParseError>
    ensures { Reads (reading rules room (expressions.link_at level) input.old.rest.now) result
        input.new.rest.now }
{
    let operator = operator(input, room, level)?;
    let operand = operand(alloc, input, room, level)?;
    Ok(Link {
        operator: operator.0,
        anchor: operator.1,
        operand,
    })
}

// What the chains of a level are made of.
#[tactic(auto, unfolding(grammar_sql::specs::Expressions::conjunction, grammar_sql::specs::Expressions::negation, grammar_sql::specs::Expressions::term, grammar_sql::specs::Expressions::factor))]
#[cycle(parser)]
fn operand(
    alloc: Global,
    input: &mut Input<'_>,
    room: u32,
    level: ChainLevel,
) -> Result<Expr, ParseError>
    ensures { Reads (reading rules room (expressions.operand_at level) input.old.rest.now) result
        input.new.rest.now }
{
    match level {
        ChainLevel::Or => chain(alloc, input, room, ChainLevel::And),
        ChainLevel::And => {
            let not = if_not(input, room)?;
            prefixed_read(alloc, paired(not, predicate(alloc, input, room)))
        }
        ChainLevel::Additive => chain(alloc, input, room, ChainLevel::Multiplicative),
        ChainLevel::Multiplicative => {
            let sign = if_sign(input, room)?;
            prefixed_read(alloc, paired(sign, primary(alloc, input, room)))
        }
    }
}

// ---- predicates

#[tactic(auto, unfolding(grammar_sql::specs::Expressions::predicate, grammar_sql::specs::Expressions::sum))]
#[cycle(parser)]
fn predicate(alloc: Global, input: &mut Input<'_>, room: u32) -> Result<Expr, ParseError>
    ensures { Reads (reading rules room expressions.predicate input.old.rest.now) result
        input.new.rest.now }
{
    let left = chain(alloc, input, room, ChainLevel::Additive)?;
    if begins_predicate_part(input) {
        let (left, part) = paired(left, predicate_part(alloc, input, room))?;
        return Ok(predicate_of(alloc, left, part)?);
    }
    Ok(left)
}

// What stands after the left side of a predicate.
#[tactic(auto, unfolding(grammar_sql::specs::Expressions::predicate_part, grammar_sql::specs::Expressions::compared, grammar_sql::specs::Expressions::tested, grammar_sql::specs::Expressions::among))]
#[cycle(parser)]
fn predicate_part(
    alloc: Global,
    input: &mut Input<'_>,
    room: u32,
) -> Result<PredicatePart, ParseError>
    ensures { Reads (reading rules room expressions.predicate_part input.old.rest.now) result
        input.new.rest.now }
{
    if begins_compared(input) {
        return compared(alloc, input, room);
    }
    if input.sees(TokenKind::Word(Word::Is)) {
        return tested_part(alloc, input, room);
    }
    let word = in_word(input, room)?;
    let values = in_value(alloc, input, room)?;
    Ok(PredicatePart::In(word, values))
}

// A comparison, and what it compares with.
#[tactic(auto, unfolding(grammar_sql::specs::Expressions::compared, grammar_sql::specs::Expressions::comparison, grammar_sql::specs::Expressions::sum))]
#[cycle(parser)]
fn compared(alloc: Global, input: &mut Input<'_>, room: u32) -> Result<PredicatePart, ParseError>
    ensures { Reads (reading rules room ((λ p. predicate_parts.Operation p.0 p.1) =>
        expressions.compared) input.old.rest.now) result input.new.rest.now }
{
    let sign = comparison_sign(input, room)?;
    compared_read(alloc, sign, chain(alloc, input, room, ChainLevel::Additive))
}

// What IN looks in, in its brackets.
#[tactic(auto, unfolding(grammar_sql::specs::Trees::bracketed))]
#[cycle(parser)]
fn in_value(alloc: Global, input: &mut Input<'_>, room: u32) -> Result<InValue, ParseError>
    ensures { Reads (reading rules room (trees.bracketed trees.Among) input.old.rest.now) result
        input.new.rest.now }
{
    let left = input.open(room, TokenKind::Sign(Sign::LeftParen))?;
    let inner = query_or_exprs(alloc, input, left);
    closed(input, TokenKind::Sign(Sign::RightParen), inner)
}

// A query, or expressions with commas between them.
#[tactic(auto, unfolding(grammar_sql::specs::Queries::query_or_exprs))]
#[cycle(parser)]
fn query_or_exprs(alloc: Global, input: &mut Input<'_>, room: u32) -> Result<InValue, ParseError>
    ensures { Reads (reading rules room queries.query_or_exprs input.old.rest.now) result
        input.new.rest.now }
{
    if begins_query(input) {
        return Ok(InValue::Query(query(alloc, input, room)?));
    }
    Ok(InValue::List(exprs(alloc, input, room)?))
}

// ---- literals, names, calls, brackets

#[tactic(auto, unfolding(grammar_sql::specs::Expressions::primary, grammar_sql::specs::Expressions::named, grammar_sql::specs::Expressions::case_expression, grammar_sql::specs::Expressions::exists, grammar_sql::specs::Trees::ident, grammar_sql::specs::Trees::bracketed))]
#[cycle(parser)]
fn primary(alloc: Global, input: &mut Input<'_>, room: u32) -> Result<Expr, ParseError>
    ensures { Reads (reading rules room expressions.primary input.old.rest.now) result
        input.new.rest.now }
{
    if begins_literal(input) {
        return literal_expr(input, room);
    }
    if input.sees(TokenKind::Name) {
        return named(alloc, input, room);
    }
    if input.sees(TokenKind::Sign(Sign::LeftParen)) {
        return in_brackets(alloc, input, room);
    }
    if input.sees(TokenKind::Word(Word::Case)) {
        return case_expression(alloc, input, room);
    }
    if input.sees(TokenKind::Word(Word::Exists)) {
        return exists(alloc, input, room);
    }
    let function = function_word(input);
    function_call(alloc, input, room, function)
}

#[tactic(auto, unfolding(grammar_sql::specs::Expressions::named, grammar_sql::specs::Expressions::dotted, grammar_sql::specs::Trees::bracketed))]
#[cycle(parser)]
fn named(alloc: Global, input: &mut Input<'_>, room: u32) -> Result<Expr, ParseError>
    ensures { Reads (reading rules room expressions.named input.old.rest.now) result
        input.new.rest.now }
{
    let name = ident(input, room)?;
    if input.sees(TokenKind::Sign(Sign::LeftParen)) {
        let (name, arguments) = paired(name, arguments(alloc, input, room))?;
        return Ok(Expr::Call(name, arguments));
    }
    named_column(alloc, input, room, name)
}

// The arguments of a call.
#[tactic(auto, unfolding(grammar_sql::specs::Trees::bracketed))]
#[cycle(parser)]
fn arguments(alloc: Global, input: &mut Input<'_>, room: u32) -> Result<Items<Expr>, ParseError>
    ensures { Reads (reading rules room (trees.bracketed trees.Arguments) input.old.rest.now) result
        input.new.rest.now }
{
    let left = input.open(room, TokenKind::Sign(Sign::LeftParen))?;
    let inner = if_exprs(alloc, input, left);
    closed(input, TokenKind::Sign(Sign::RightParen), inner)
}

// Expressions with commas between them, or none.
#[tactic(auto, unfolding(grammar_sql::specs::Trees::bracketed))]
#[cycle(parser)]
fn if_exprs(alloc: Global, input: &mut Input<'_>, room: u32) -> Result<Items<Expr>, ParseError>
    ensures { Reads (reading rules room (rules trees.Arguments) input.old.rest.now) result
        input.new.rest.now }
{
    if begins_expr(input) {
        exprs(alloc, input, room)
    } else {
        Ok(Items::new(alloc))
    }
}

#[tactic(auto, unfolding(grammar_sql::specs::Trees::bracketed))]
#[cycle(parser)]
fn in_brackets(alloc: Global, input: &mut Input<'_>, room: u32) -> Result<Expr, ParseError>
    ensures { Reads (reading rules room (trees.bracketed trees.Bracketed) input.old.rest.now) result
        input.new.rest.now }
{
    let left = input.open(room, TokenKind::Sign(Sign::LeftParen))?;
    let inner = query_or_expr(alloc, input, left);
    closed(input, TokenKind::Sign(Sign::RightParen), inner)
}

// An expression, or a query that stands for its value.
#[tactic(auto, unfolding(grammar_sql::specs::Queries::query_or_expr))]
#[cycle(parser)]
fn query_or_expr(alloc: Global, input: &mut Input<'_>, room: u32) -> Result<Expr, ParseError>
    ensures { Reads (reading rules room queries.query_or_expr input.old.rest.now) result
        input.new.rest.now }
{
    if begins_query(input) {
        return subquery_read(alloc, query(alloc, input, room));
    }
    expr(alloc, input, room)
}

#[tactic(auto, unfolding(grammar_sql::specs::Expressions::exists))]
#[cycle(parser)]
fn exists(alloc: Global, input: &mut Input<'_>, room: u32) -> Result<Expr, ParseError>
    ensures { Reads (reading rules room expressions.exists input.old.rest.now) result
        input.new.rest.now }
{
    let token = input.expect(TokenKind::Word(Word::Exists))?;
    let anchor = anchor_in(token);
    exists_read(alloc, anchor, bracketed_query(alloc, input, room))
}

// ---- words with operands

// A word with its operands in brackets.
#[tactic(auto, unfolding(grammar_sql::specs::Expressions::function_call))]
#[cycle(parser)]
fn function_call(
    alloc: Global,
    input: &mut Input<'_>,
    room: u32,
    function: FunctionWord,
) -> Result<Expr, ParseError>
    ensures { Reads (reading rules room (expressions.function_call function) input.old.rest.now)
        result input.new.rest.now }
{
    let token = input.expect(TokenKind::Word(word_of(function)))?;
    let anchor = anchor_in(token);
    let called = bracketed_operands(alloc, input, room, function)?;
    Ok(applied(anchor, called))
}

#[tactic(auto, unfolding(grammar_sql::specs::Trees::bracketed))]
#[cycle(parser)]
fn bracketed_operands(
    alloc: Global,
    input: &mut Input<'_>,
    room: u32,
    function: FunctionWord,
) -> Result<(Function, Items<Expr>), ParseError>
    ensures { Reads (reading rules room (trees.bracketed (trees.Operands function))
        input.old.rest.now) result input.new.rest.now }
{
    let left = input.open(room, TokenKind::Sign(Sign::LeftParen))?;
    let inner = operands(alloc, input, left, function);
    closed(input, TokenKind::Sign(Sign::RightParen), inner)
}

// The operands of a word, with what stands between them, and what the word stands for.
#[tactic(auto, unfolding(grammar_sql::specs::Expressions::operands))]
#[cycle(parser)]
fn operands(
    alloc: Global,
    input: &mut Input<'_>,
    room: u32,
    function: FunctionWord,
) -> Result<(Function, Items<Expr>), ParseError>
    ensures { Reads (reading rules room (expressions.operands function) input.old.rest.now) result
        input.new.rest.now }
{
    match function {
        FunctionWord::Coalesce => {
            let values = exprs(alloc, input, room)?;
            Ok(calls(Operation::Coalesce, values))
        }
        FunctionWord::Modulo => modulo(alloc, input, room),
        FunctionWord::CharLength => char_length_read(alloc, expr(alloc, input, room)),
        FunctionWord::Substring => substring(alloc, input, room),
        FunctionWord::Cast => cast(alloc, input, room),
        FunctionWord::Aggregate(kind) => aggregate(alloc, input, room, kind),
    }
}

// The two operands of MOD.
#[tactic(auto, unfolding(grammar_sql::specs::Expressions::operands))]
#[cycle(parser)]
fn modulo(
    alloc: Global,
    input: &mut Input<'_>,
    room: u32,
) -> Result<(Function, Items<Expr>), ParseError>
    ensures { Reads (reading rules room (expressions.operands function_words.Modulo)
        input.old.rest.now) result input.new.rest.now }
{
    let dividend = expr(alloc, input, room)?;
    let divisor = after(alloc, input, room, TokenKind::Sign(Sign::Comma));
    modulo_read(alloc, paired(dividend, divisor))
}

// The text of SUBSTRING, the place, and the length if there is one.
#[tactic(auto, unfolding(grammar_sql::specs::Expressions::operands, grammar_sql::specs::Expressions::for_length))]
#[cycle(parser)]
fn substring(
    alloc: Global,
    input: &mut Input<'_>,
    room: u32,
) -> Result<(Function, Items<Expr>), ParseError>
    ensures { Reads (reading rules room (expressions.operands function_words.Substring)
        input.old.rest.now) result input.new.rest.now }
{
    let text = expr(alloc, input, room)?;
    let (text, places) = paired(text, places(alloc, input, room))?;
    Ok(substring_of(alloc, text, places)?)
}

// The place of SUBSTRING, and the length if there is one.
#[cycle(parser)]
fn places(
    alloc: Global,
    input: &mut Input<'_>,
    room: u32,
) -> Result<(Expr, Option<Expr>), ParseError>
    ensures { Reads (reading rules room (expressions.after (kinds.Word words.From) ~ optional
        (expressions.after (kinds.Word words.For))) input.old.rest.now) result input.new.rest.now }
{
    let place = after(alloc, input, room, TokenKind::Word(Word::From))?;
    let length = if_after(alloc, input, room, TokenKind::Word(Word::For));
    paired(place, length)
}

// The operand of CAST, with its type.
#[tactic(auto, unfolding(grammar_sql::specs::Expressions::operands))]
#[cycle(parser)]
fn cast(
    alloc: Global,
    input: &mut Input<'_>,
    room: u32,
) -> Result<(Function, Items<Expr>), ParseError>
    ensures { Reads (reading rules room (expressions.operands function_words.Cast)
        input.old.rest.now) result input.new.rest.now }
{
    let value = expr(alloc, input, room)?;
    cast_read(alloc, paired(value, as_type(input, room)))
}

// An aggregate with its argument, of which COUNT(*) has none.
#[tactic(auto, unfolding(grammar_sql::specs::Expressions::operands))]
#[cycle(parser)]
fn aggregate(
    alloc: Global,
    input: &mut Input<'_>,
    room: u32,
    kind: FoldKind,
) -> Result<(Function, Items<Expr>), ParseError>
    ensures { Reads (reading rules room (expressions.operands (function_words.Aggregate kind))
        input.old.rest.now) result input.new.rest.now }
{
    if is_all_rows(input, kind) {
        input.take();
        return Ok((Function::Aggregate(kind), Items::new(alloc)));
    }
    aggregate_read(alloc, kind, expr(alloc, input, room))
}

/// An expression (ISO/IEC 9075-2, 6.28) after a token of the kind, by the rule `after`. On Ok the
/// input stands after the expression, else at the token that does not go on.
#[tactic(auto, unfolding(grammar_sql::specs::Expressions::after))]
#[cycle(parser)]
pub fn after(
    alloc: Global,
    input: &mut Input<'_>,
    room: u32,
    kind: TokenKind,
) -> Result<Expr, ParseError>
    ensures { Reads (reading rules room (expressions.after kind) input.old.rest.now) result
        input.new.rest.now }
{
    input.expect(kind)?;
    expr(alloc, input, room)
}

/// An expression, if one begins here (ISO/IEC 9075-2, 6.26), by the rule `expr`. Where none begins
/// here nothing is read; else on Ok the input stands after it, and on Err at the token that does
/// not go on.
#[cycle(parser)]
pub fn if_expr(alloc: Global, input: &mut Input<'_>, room: u32) -> Result<Option<Expr>, ParseError>
    ensures { Reads (reading rules room (optional expressions.expr) input.old.rest.now) result
        input.new.rest.now }
{
    if begins_expr(input) {
        Ok(Some(expr(alloc, input, room)?))
    } else {
        Ok(None)
    }
}

/// The same as `after`, if such a token stands here. Where none stands here nothing is read.
#[tactic(auto, unfolding(grammar_sql::specs::Expressions::after))]
#[cycle(parser)]
pub fn if_after(
    alloc: Global,
    input: &mut Input<'_>,
    room: u32,
    kind: TokenKind,
) -> Result<Option<Expr>, ParseError>
    ensures { Reads (reading rules room (optional (expressions.after kind)) input.old.rest.now)
        result input.new.rest.now }
{
    if input.sees(kind) {
        Ok(Some(after(alloc, input, room, kind)?))
    } else {
        Ok(None)
    }
}

// ---- CASE

#[tactic(auto, unfolding(grammar_sql::specs::Expressions::case_expression))]
#[cycle(parser)]
fn case_expression(alloc: Global, input: &mut Input<'_>, room: u32) -> Result<Expr, ParseError>
    ensures { Reads (reading rules room expressions.case_expression input.old.rest.now) result
        input.new.rest.now }
{
    let anchor = anchor(input);
    let left = input.open(room, TokenKind::Word(Word::Case))?;
    let inner = cases(alloc, input, left);
    let case = closed(input, TokenKind::Word(Word::End), inner)?;
    Ok(Expr::Operation(anchor, case.0, case.1))
}

// What stands between CASE and END.
#[tactic(auto, unfolding(grammar_sql::specs::Expressions::cases))]
#[cycle(parser)]
fn cases(
    alloc: Global,
    input: &mut Input<'_>,
    room: u32,
) -> Result<(Operation, Items<Expr>), ParseError>
    ensures { Reads (reading rules room expressions.cases input.old.rest.now) result
        input.new.rest.now }
{
    let operand = if_expr(alloc, input, room)?;
    cases_read(alloc, paired(operand, arms(alloc, input, room)))
}

#[tactic(auto, unfolding(grammar_sql::specs::Expressions::arms, grammar_sql::specs::Expressions::else_clause))]
#[cycle(parser)]
fn arms(alloc: Global, input: &mut Input<'_>, room: u32) -> Result<Items<Expr>, ParseError>
    ensures { Reads (reading rules room expressions.arms input.old.rest.now) result
        input.new.rest.now }
{
    let clauses = when_clauses(alloc, input, room)?;
    let otherwise = if_after(alloc, input, room, TokenKind::Word(Word::Else));
    let (clauses, otherwise) = paired(clauses, otherwise)?;
    Ok(ended_by(alloc, clauses, otherwise)?)
}

// The clauses of WHEN, with tests and results in turn.
#[tactic(auto, unfolding(grammar_sql::specs::Expressions::when_clauses, grammar_sql::specs::Expressions::more_when_clauses))]
#[cycle(parser)]
fn when_clauses(alloc: Global, input: &mut Input<'_>, room: u32) -> Result<Items<Expr>, ParseError>
    ensures { Reads (reading rules room expressions.when_clauses input.old.rest.now) result
        input.new.rest.now }
{
    let mut found = when_clause(alloc, input, room)?;
    'more: while begins_when_clause(input) {
        found = appended(found, when_clause(alloc, input, room))?;
    }
    Ok(found)
}

// A test and its result.
#[tactic(auto, unfolding(grammar_sql::specs::Expressions::when_clause))]
#[cycle(parser)]
fn when_clause(alloc: Global, input: &mut Input<'_>, room: u32) -> Result<Items<Expr>, ParseError>
    ensures { Reads (reading rules room expressions.when_clause input.old.rest.now) result
        input.new.rest.now }
{
    let test = after(alloc, input, room, TokenKind::Word(Word::When))?;
    let result = after(alloc, input, room, TokenKind::Word(Word::Then));
    pair_read(alloc, paired(test, result))
}

// ---- lists

// Expressions with commas between them.
#[tactic(auto, unfolding(grammar_sql::specs::Expressions::exprs, grammar_sql::specs::Expressions::more_exprs))]
#[cycle(parser)]
fn exprs(alloc: Global, input: &mut Input<'_>, room: u32) -> Result<Items<Expr>, ParseError>
    ensures { Reads (reading rules room expressions.exprs input.old.rest.now) result
        input.new.rest.now }
{
    let mut found = begun_read(alloc, expr(alloc, input, room))?;
    'more: while begins_more(input) {
        let next = after(alloc, input, room, TokenKind::Sign(Sign::Comma));
        found = put(found, next)?;
    }
    Ok(found)
}

// ---- queries

/// A query (ISO/IEC 9075-2, 7.17), without ORDER BY, by the rule `query`. On Ok the input stands
/// after it, else at the token that does not go on.
#[tactic(auto, unfolding(grammar_sql::specs::Queries::query, grammar_sql::specs::Queries::select, grammar_sql::specs::Queries::select_word))]
#[cycle(parser)]
pub fn query(alloc: Global, input: &mut Input<'_>, room: u32) -> Result<Query, ParseError>
    ensures { Reads (reading rules room queries.query input.old.rest.now) result input.new.rest.now }
{
    if input.sees(TokenKind::Word(Word::Select)) {
        select(alloc, input, room)
    } else {
        values(alloc, input, room)
    }
}

#[tactic(auto, unfolding(grammar_sql::specs::Queries::select))]
#[cycle(parser)]
fn select(alloc: Global, input: &mut Input<'_>, room: u32) -> Result<Query, ParseError>
    ensures { Reads (reading rules room (query_of.Select => queries.select) input.old.rest.now)
        result input.new.rest.now }
{
    let anchor = select_word(input, room)?;
    let (items, tables) = selection(alloc, input, room)?;
    Ok(Query::Select(selected(anchor, items, tables)))
}

// What SELECT lists, and what stands after the list.
#[cycle(parser)]
fn selection(
    alloc: Global,
    input: &mut Input<'_>,
    room: u32,
) -> Result<
    (
        Items<SelectItem>,
        (
            Items<FromItem>,
            (Option<Expr>, (Items<ColumnName>, Option<Expr>)),
        ),
    ),
    ParseError,
>
    ensures { Reads (reading rules room (queries.select_list ~ queries.from_clause ~ queries.filter
        ~ queries.grouping) input.old.rest.now) result input.new.rest.now }
{
    let items = select_list(alloc, input, room)?;
    paired(items, table_expression(alloc, input, room))
}

/// What stands after the select list (ISO/IEC 9075-2, 7.4): the items of FROM, the condition of
/// WHERE, and the grouping, by the rules `from_clause`, `filter` and `grouping`. On Ok the input
/// stands after them, else at the token that does not go on.
#[cycle(parser)]
pub fn table_expression(
    alloc: Global,
    input: &mut Input<'_>,
    room: u32,
) -> Result<
    (
        Items<FromItem>,
        (Option<Expr>, (Items<ColumnName>, Option<Expr>)),
    ),
    ParseError,
>
    ensures { Reads (reading rules room (queries.from_clause ~ queries.filter ~ queries.grouping)
        input.old.rest.now) result input.new.rest.now }
{
    let from = from_clause(alloc, input, room)?;
    paired(from, conditions(alloc, input, room))
}

/// What stands after FROM: the condition of WHERE, and the grouping, by the rules `filter` and
/// `grouping`. On Ok the input stands after them, else at the token that does not go on.
#[tactic(auto, unfolding(grammar_sql::specs::Queries::filter))]
#[cycle(parser)]
pub fn conditions(
    alloc: Global,
    input: &mut Input<'_>,
    room: u32,
) -> Result<(Option<Expr>, (Items<ColumnName>, Option<Expr>)), ParseError>
    ensures { Reads (reading rules room (queries.filter ~ queries.grouping) input.old.rest.now)
        result input.new.rest.now }
{
    let filter = if_after(alloc, input, room, TokenKind::Word(Word::Where))?;
    paired(filter, grouping(alloc, input, room))
}

// The columns of GROUP BY, and the condition of HAVING.
#[tactic(auto, unfolding(grammar_sql::specs::Queries::grouping, grammar_sql::specs::Queries::having))]
#[cycle(parser)]
fn grouping(
    alloc: Global,
    input: &mut Input<'_>,
    room: u32,
) -> Result<(Items<ColumnName>, Option<Expr>), ParseError>
    ensures { Reads (reading rules room queries.grouping input.old.rest.now) result
        input.new.rest.now }
{
    let columns = group_by(alloc, input, room)?;
    let condition = if_after(alloc, input, room, TokenKind::Word(Word::Having));
    paired(columns, condition)
}

// ---- the select list

/// What SELECT lists: `*`, or expressions with commas between them, by the rule `select_list`. On
/// Ok the input stands after it, else at the token that does not go on.
#[tactic(auto, unfolding(grammar_sql::specs::Queries::select_list, grammar_sql::specs::Queries::all_columns))]
#[cycle(parser)]
pub fn select_list(
    alloc: Global,
    input: &mut Input<'_>,
    room: u32,
) -> Result<Items<SelectItem>, ParseError>
    ensures { Reads (reading rules room queries.select_list input.old.rest.now) result
        input.new.rest.now }
{
    if input.sees(TokenKind::Sign(Sign::Asterisk)) {
        return all_columns(alloc, input, room);
    }
    select_values(alloc, input, room)
}

#[tactic(auto, unfolding(grammar_sql::specs::Queries::select_values, grammar_sql::specs::Queries::more_select_values))]
#[cycle(parser)]
fn select_values(
    alloc: Global,
    input: &mut Input<'_>,
    room: u32,
) -> Result<Items<SelectItem>, ParseError>
    ensures { Reads (reading rules room queries.select_values input.old.rest.now) result
        input.new.rest.now }
{
    let mut found = begun_read(alloc, select_value(alloc, input, room))?;
    'more: while input.eat(TokenKind::Sign(Sign::Comma)) {
        match put(found, select_value(alloc, input, room)) {
            Ok(more) => found = more,
            Err(error) => return Err(error),
        }
    }
    Ok(found)
}

// An expression, and the name that is written for it.
#[tactic(auto, unfolding(grammar_sql::specs::Queries::select_value))]
#[cycle(parser)]
fn select_value(alloc: Global, input: &mut Input<'_>, room: u32) -> Result<SelectItem, ParseError>
    ensures { Reads (reading rules room queries.select_value input.old.rest.now) result
        input.new.rest.now }
{
    let value = expr(alloc, input, room)?;
    let (value, name) = paired(value, if_alias(input, room))?;
    Ok(SelectItem::Value(value, name))
}

// ---- FROM

/// FROM with its items, by the rule `from_clause`. On Ok the input stands after them, else at the
/// token that does not go on.
#[tactic(auto, unfolding(grammar_sql::specs::Queries::from_clause))]
#[cycle(parser)]
pub fn from_clause(
    alloc: Global,
    input: &mut Input<'_>,
    room: u32,
) -> Result<Items<FromItem>, ParseError>
    ensures { Reads (reading rules room queries.from_clause input.old.rest.now) result
        input.new.rest.now }
{
    input.expect(TokenKind::Word(Word::From))?;
    from_items(alloc, input, room)
}

#[tactic(auto, unfolding(grammar_sql::specs::Queries::from_items, grammar_sql::specs::Queries::first_item, grammar_sql::specs::Queries::more_from_items))]
#[cycle(parser)]
fn from_items(
    alloc: Global,
    input: &mut Input<'_>,
    room: u32,
) -> Result<Items<FromItem>, ParseError>
    ensures { Reads (reading rules room queries.from_items input.old.rest.now) result
        input.new.rest.now }
{
    let table = table_ref(alloc, input, room)?;
    let mut found = only(alloc, FromItem::Comma(table))?;
    'more: while begins_from_item(input) {
        found = put(found, from_item(alloc, input, room))?;
    }
    Ok(found)
}

// An item of FROM after another one.
#[tactic(auto, unfolding(grammar_sql::specs::Queries::from_item, grammar_sql::specs::Queries::comma_item, grammar_sql::specs::Queries::cross_join, grammar_sql::specs::Queries::left_join, grammar_sql::specs::Queries::inner_join))]
#[cycle(parser)]
fn from_item(alloc: Global, input: &mut Input<'_>, room: u32) -> Result<FromItem, ParseError>
    ensures { Reads (reading rules room queries.from_item input.old.rest.now) result
        input.new.rest.now }
{
    if input.eat(TokenKind::Sign(Sign::Comma)) {
        return Ok(FromItem::Comma(table_ref(alloc, input, room)?));
    }
    if input.eat(TokenKind::Word(Word::Cross)) {
        input.expect(TokenKind::Word(Word::Join))?;
        return Ok(FromItem::Cross(table_ref(alloc, input, room)?));
    }
    if input.eat(TokenKind::Word(Word::Left)) {
        return Ok(left_joined(joined_after(alloc, input, room, Word::Outer)?));
    }
    Ok(inner_joined(joined_after(alloc, input, room, Word::Inner)?))
}

// JOIN with its table and its condition, perhaps after a word that changes nothing.
#[tactic(auto, unfolding(grammar_sql::specs::Queries::joined_on, grammar_sql::specs::Queries::on_condition))]
#[cycle(parser)]
fn joined_after(
    alloc: Global,
    input: &mut Input<'_>,
    room: u32,
    word: Word,
) -> Result<(TableRef, Expr), ParseError>
    ensures { Reads (reading rules room (optional (token (kinds.Word word)) ~> queries.joined_on)
        input.old.rest.now) result input.new.rest.now }
{
    input.eat(TokenKind::Word(word));
    input.expect(TokenKind::Word(Word::Join))?;
    let table = table_ref(alloc, input, room)?;
    paired(table, after(alloc, input, room, TokenKind::Word(Word::On)))
}

// A table by its name, or a derived table.
#[tactic(auto, unfolding(grammar_sql::specs::Queries::table_ref, grammar_sql::specs::Queries::named_table, grammar_sql::specs::Trees::ident))]
#[cycle(parser)]
fn table_ref(alloc: Global, input: &mut Input<'_>, room: u32) -> Result<TableRef, ParseError>
    ensures { Reads (reading rules room queries.table_ref input.old.rest.now) result
        input.new.rest.now }
{
    if input.sees(TokenKind::Name) {
        return named_table(input, room);
    }
    derived_table(alloc, input, room)
}

// A query in brackets, with its name and the names of its columns.
#[tactic(auto, unfolding(grammar_sql::specs::Queries::derived_table))]
#[cycle(parser)]
fn derived_table(alloc: Global, input: &mut Input<'_>, room: u32) -> Result<TableRef, ParseError>
    ensures { Reads (reading rules room queries.derived_table input.old.rest.now) result
        input.new.rest.now }
{
    let query = bracketed_query(alloc, input, room)?;
    let (query, naming) = paired(query, naming(alloc, input, room))?;
    Ok(derived(alloc, query, naming)?)
}

#[tactic(auto, unfolding(grammar_sql::specs::Trees::bracketed))]
#[cycle(parser)]
fn bracketed_query(alloc: Global, input: &mut Input<'_>, room: u32) -> Result<Query, ParseError>
    ensures { Reads (reading rules room (trees.bracketed trees.Subquery) input.old.rest.now) result
        input.new.rest.now }
{
    let left = input.open(room, TokenKind::Sign(Sign::LeftParen))?;
    let inner = query(alloc, input, left);
    closed(input, TokenKind::Sign(Sign::RightParen), inner)
}

// ---- VALUES

#[tactic(auto, unfolding(grammar_sql::specs::Queries::values))]
#[cycle(parser)]
fn values(alloc: Global, input: &mut Input<'_>, room: u32) -> Result<Query, ParseError>
    ensures { Reads (reading rules room (query_of.Values => queries.values) input.old.rest.now)
        result input.new.rest.now }
{
    let anchor = values_word(input, room)?;
    let rows = rows(alloc, input, room)?;
    Ok(Query::Values(Values { anchor, rows }))
}

#[tactic(auto, unfolding(grammar_sql::specs::Queries::rows, grammar_sql::specs::Queries::more_rows))]
#[cycle(parser)]
fn rows(alloc: Global, input: &mut Input<'_>, room: u32) -> Result<Items<ValueRow>, ParseError>
    ensures { Reads (reading rules room queries.rows input.old.rest.now) result input.new.rest.now }
{
    let mut found = begun_read(alloc, row(alloc, input, room))?;
    'more: while input.eat(TokenKind::Sign(Sign::Comma)) {
        match put(found, row(alloc, input, room)) {
            Ok(more) => found = more,
            Err(error) => return Err(error),
        }
    }
    Ok(found)
}

#[tactic(auto, unfolding(grammar_sql::specs::Queries::row, grammar_sql::specs::Trees::bracketed))]
#[cycle(parser)]
fn row(alloc: Global, input: &mut Input<'_>, room: u32) -> Result<ValueRow, ParseError>
    ensures { Reads (reading rules room queries.row input.old.rest.now) result input.new.rest.now }
{
    let left = input.open(room, TokenKind::Sign(Sign::LeftParen))?;
    let inner = exprs(alloc, input, left);
    let values = closed(input, TokenKind::Sign(Sign::RightParen), inner)?;
    Ok(ValueRow::Row(values))
}
