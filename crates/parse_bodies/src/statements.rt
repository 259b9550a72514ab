//! Statements, and what holds them: `room` is the number of constructs that may still be opened.
//! One function reads what each word that may have a label begins, one a body after any token, and
//! one a branch after any token.

ghost use Rattle.std.specs.Prelude.{◌≡◌, IfOk};
ghost use Rattle.sql_lex.specs.declared.token.TokenKind.TheVariants as kinds;
ghost use Rattle.sql_lex.specs.declared.word.Word.TheVariants as words;
ghost use Rattle.statement_trees.specs.declared.statement.Declaration.TheVariants as declared;
ghost use Rattle.grammar_algebra.specs.Notation.{◌~◌};
ghost use Rattle.grammar_algebra.specs.Reading.{reading};
ghost use Rattle.grammar_algebra.specs.Reads.{Reads};
ghost use Rattle.grammar_sql.specs.Declarations as declarations;
ghost use Rattle.grammar_sql.specs.Statements as statements;
ghost use Rattle.grammar_sql.specs.Sql.{rules};

use crate::begins::{
    begins_branch, begins_declaration, begins_labelled, begins_stmt, structure_word, word_of,
};
use grammar_algebra::{Input, ParseError, Stage};
use grammar_sql::StructureWord;
use parse_answers::semicolon_after;
use parse_changes::{for_query, named_cursor, named_declaration, simple_statement};
use parse_expressions::{anchor, ident};
use parse_nodes::{case_of, if_of, next_stage, with_first};
use parse_queries::{after, expr, if_expr};
use parse_reads::{closed, paired, put};
use parse_simple::{atomic, end_label, handled, handler_type, if_label};
use sql_lex::{TokenKind, Word};
use sqlite_items::{Boxed, Items};
use statement_trees::{
    Block, Branch, Case, ConditionValue, Declaration, Handler, HandlerType, If, Labelled, Stmt,
    Structure,
};
use std::alloc::{AllocError, Global};
use syntax_trees::{Anchor, Expr, Ident, OrderedQuery};

/// A statement of a routine (ISO/IEC 9075-4, 14.1), by the rule `stmt`. On Ok the input stands
/// after it, else at the token that does not go on.
#[tactic(auto, unfolding(grammar_sql::specs::Statements::stmt, grammar_sql::specs::Statements::if_statement, grammar_sql::specs::Statements::if_construct, grammar_sql::specs::Statements::case_statement, grammar_sql::specs::Statements::case_construct))]
#[cycle(statement)]
pub fn stmt(alloc: Global, input: &mut Input<'_>, room: u32) -> Result<Stmt, ParseError>
    ensures { Reads (reading rules room statements.stmt input.old.rest.now) result
        input.new.rest.now }
{
    if begins_labelled(input) {
        return Ok(Stmt::Labelled(labelled(alloc, input, room)?));
    }
    if input.sees(TokenKind::Word(Word::If)) {
        return Ok(Stmt::If(if_statement(alloc, input, room)?));
    }
    if input.sees(TokenKind::Word(Word::Case)) {
        return Ok(Stmt::Case(case_statement(alloc, input, room)?));
    }
    simple_statement(alloc, input, room)
}

// ---- with labels

#[tactic(auto, unfolding(grammar_sql::specs::Statements::labelled))]
#[cycle(statement)]
fn labelled(alloc: Global, input: &mut Input<'_>, room: u32) -> Result<Labelled, ParseError>
    ensures { Reads (reading rules room statements.labelled input.old.rest.now) result
        input.new.rest.now }
{
    let label = if_label(input, room)?;
    let word = structure_word(input);
    let (label, parts) = paired(label, structure(alloc, input, room, word))?;
    Ok(labelled_of(label, parts))
}

/// A label, if there is one, and what it labels.
pub fn labelled_of(label: Option<Ident>, parts: ((Anchor, Structure), Option<Ident>)) -> Labelled
    ensures { result ≡ statements.labelled_of (label, parts) }
{
    let ((anchor, structure), end_label) = parts;
    Labelled {
        label,
        anchor,
        structure,
        end_label,
    }
}

/// What a word begins, with what stands after its END, by the rule `structure`. On Ok the input
/// stands after it, else at the token that does not go on.
#[tactic(auto, unfolding(grammar_sql::specs::Statements::structure))]
#[cycle(statement)]
pub fn structure(
    alloc: Global,
    input: &mut Input<'_>,
    room: u32,
    word: StructureWord,
) -> Result<((Anchor, Structure), Option<Ident>), ParseError>
    ensures { Reads (reading rules room (statements.structure word) input.old.rest.now) result
        input.new.rest.now }
{
    let found = construct(alloc, input, room, word)?;
    paired(found, end_label(input, room, word))
}

#[tactic(auto, unfolding(grammar_sql::specs::Statements::construct))]
#[cycle(statement)]
fn construct(
    alloc: Global,
    input: &mut Input<'_>,
    room: u32,
    word: StructureWord,
) -> Result<(Anchor, Structure), ParseError>
    ensures { Reads (reading rules room (statements.construct word) input.old.rest.now) result
        input.new.rest.now }
{
    let anchor = anchor(input);
    let left = input.open(room, TokenKind::Word(word_of(word)))?;
    let inner = structure_body(alloc, input, left, word);
    let body = closed(input, TokenKind::Word(Word::End), inner)?;
    Ok((anchor, body))
}

// What stands between a word and its END.
#[tactic(auto, unfolding(grammar_sql::specs::Declarations::structure_body))]
#[cycle(statement)]
fn structure_body(
    alloc: Global,
    input: &mut Input<'_>,
    room: u32,
    word: StructureWord,
) -> Result<Structure, ParseError>
    ensures { Reads (reading rules room (declarations.structure_body word) input.old.rest.now)
        result input.new.rest.now }
{
    match word {
        StructureWord::Begin => block_body(alloc, input, room),
        StructureWord::Loop => Ok(Structure::Loop(body(alloc, input, room)?)),
        StructureWord::While => while_body(alloc, input, room),
        StructureWord::Repeat => repeat_body(alloc, input, room),
        StructureWord::For => for_body(alloc, input, room),
    }
}

// e DO body
#[tactic(auto, unfolding(grammar_sql::specs::Statements::while_body))]
#[cycle(statement)]
fn while_body(alloc: Global, input: &mut Input<'_>, room: u32) -> Result<Structure, ParseError>
    ensures { Reads (reading rules room statements.while_body input.old.rest.now) result
        input.new.rest.now }
{
    let test = expr(alloc, input, room)?;
    let body = body_after(alloc, input, room, TokenKind::Word(Word::Do));
    let (test, body) = paired(test, body)?;
    Ok(Structure::While(test, body))
}

// body UNTIL e
#[tactic(auto, unfolding(grammar_sql::specs::Statements::repeat_body))]
#[cycle(statement)]
fn repeat_body(alloc: Global, input: &mut Input<'_>, room: u32) -> Result<Structure, ParseError>
    ensures { Reads (reading rules room statements.repeat_body input.old.rest.now) result
        input.new.rest.now }
{
    let body = body(alloc, input, room)?;
    let test = after(alloc, input, room, TokenKind::Word(Word::Until));
    let (body, test) = paired(body, test)?;
    Ok(Structure::Repeat(body, test))
}

// name AS query [order] DO body
#[tactic(auto, unfolding(grammar_sql::specs::Statements::for_body))]
#[cycle(statement)]
fn for_body(alloc: Global, input: &mut Input<'_>, room: u32) -> Result<Structure, ParseError>
    ensures { Reads (reading rules room statements.for_body input.old.rest.now) result
        input.new.rest.now }
{
    let name = ident(input, room)?;
    let (name, (query, body)) = paired(name, for_rows(alloc, input, room))?;
    Ok(Structure::For(name, query, body))
}

// AS query [order] DO body
#[cycle(statement)]
fn for_rows(
    alloc: Global,
    input: &mut Input<'_>,
    room: u32,
) -> Result<(OrderedQuery, Items<Stmt>), ParseError>
    ensures { Reads (reading rules room (statements.for_query ~ statements.body_after
        (kinds.Word words.Do)) input.old.rest.now) result input.new.rest.now }
{
    let query = for_query(alloc, input, room)?;
    let body = body_after(alloc, input, room, TokenKind::Word(Word::Do));
    paired(query, body)
}

// ---- compound statements

#[tactic(auto, unfolding(grammar_sql::specs::Declarations::block_body))]
#[cycle(statement)]
fn block_body(alloc: Global, input: &mut Input<'_>, room: u32) -> Result<Structure, ParseError>
    ensures { Reads (reading rules room declarations.block_body input.old.rest.now) result
        input.new.rest.now }
{
    let atomic = atomic(input, room)?;
    let (declarations, statements) = declared_statements(alloc, input, room)?;
    Ok(Structure::Block(Block {
        atomic,
        declarations,
        statements,
    }))
}

// The declarations and the statements of a compound statement.
#[cycle(statement)]
fn declared_statements(
    alloc: Global,
    input: &mut Input<'_>,
    room: u32,
) -> Result<(Items<Declaration>, Items<Stmt>), ParseError>
    ensures { Reads (reading rules room (declarations.declarations ~ statements.statements)
        input.old.rest.now) result input.new.rest.now }
{
    let declarations = declarations(alloc, input, room)?;
    paired(declarations, statements(alloc, input, room))
}

#[tactic(auto, unfolding(grammar_sql::specs::Declarations::declarations))]
#[cycle(statement)]
fn declarations(
    alloc: Global,
    input: &mut Input<'_>,
    room: u32,
) -> Result<Items<Declaration>, ParseError>
    ensures { Reads (reading rules room declarations.declarations input.old.rest.now) result
        input.new.rest.now }
{
    let mut found = Items::new(alloc);
    let mut stage = Stage::First;
    'more: while begins_declaration(input, stage) {
        match declaration(alloc, input, room, stage) {
            Ok(next) => {
                stage = next_stage(stage, &next);
                found.push(next)?;
            }
            Err(error) => return Err(error),
        }
    }
    Ok(found)
}

// DECLARE, and what may be declared at a stage.
#[tactic(auto, unfolding(grammar_sql::specs::Declarations::declaration))]
#[cycle(statement)]
fn declaration(
    alloc: Global,
    input: &mut Input<'_>,
    room: u32,
    stage: Stage,
) -> Result<Declaration, ParseError>
    ensures { Reads (reading rules room (declarations.declaration stage) input.old.rest.now) result
        input.new.rest.now }
{
    input.expect(TokenKind::Word(Word::Declare))?;
    let tree = declared_at(alloc, input, room, stage)?;
    semicolon_after(input, tree)
}

#[tactic(auto, unfolding(grammar_sql::specs::Declarations::named_declaration, grammar_sql::specs::Declarations::named_cursor, grammar_sql::specs::Trees::ident))]
#[cycle(statement)]
fn declared_at(
    alloc: Global,
    input: &mut Input<'_>,
    room: u32,
    stage: Stage,
) -> Result<Declaration, ParseError>
    ensures { Reads (reading rules room (declarations.declared_at stage) input.old.rest.now) result
        input.new.rest.now }
{
    match stage {
        Stage::First => {
            if input.sees(TokenKind::Name) {
                named_declaration(alloc, input, room)
            } else {
                handler(alloc, input, room)
            }
        }
        Stage::Second => {
            if input.sees(TokenKind::Name) {
                named_cursor(alloc, input, room)
            } else {
                handler(alloc, input, room)
            }
        }
        Stage::Third => handler(alloc, input, room),
    }
}

#[tactic(auto, unfolding(grammar_sql::specs::Declarations::handler))]
#[cycle(statement)]
fn handler(alloc: Global, input: &mut Input<'_>, room: u32) -> Result<Declaration, ParseError>
    ensures { Reads (reading rules room declarations.handler input.old.rest.now) result
        input.new.rest.now }
{
    let word = handler_type(input, room)?;
    let (values, action) = handled_action(alloc, input, room)?;
    Ok(handler_of(alloc, word, values, action)?)
}

// What a handler waits for, and its action.
#[cycle(statement)]
fn handled_action(
    alloc: Global,
    input: &mut Input<'_>,
    room: u32,
) -> Result<(Items<ConditionValue>, Stmt), ParseError>
    ensures { Reads (reading rules room (declarations.handled ~ statements.stmt)
        input.old.rest.now) result input.new.rest.now }
{
    let values = handled(alloc, input, room)?;
    paired(values, stmt(alloc, input, room))
}

// A handler with its type, what it waits for, and its action.
fn handler_of(
    alloc: Global,
    word: (HandlerType, Anchor),
    values: Items<ConditionValue>,
    action: Stmt,
) -> Result<Declaration, AllocError>
    ensures { IfOk result (λ d. d ≡ declared.Handler
        (declarations.handler_of (word, (values, action)))) }
{
    let action = Boxed::new(alloc, action)?;
    Ok(Declaration::Handler(Handler {
        anchor: word.1,
        handler_type: word.0,
        values,
        action,
    }))
}

// ---- bodies

#[tactic(auto, unfolding(grammar_sql::specs::Statements::ended))]
#[cycle(statement)]
fn ended(alloc: Global, input: &mut Input<'_>, room: u32) -> Result<Stmt, ParseError>
    ensures { Reads (reading rules room statements.ended input.old.rest.now) result
        input.new.rest.now }
{
    let tree = stmt(alloc, input, room)?;
    semicolon_after(input, tree)
}

// Statements with their semicolons, or none.
#[tactic(auto, unfolding(grammar_sql::specs::Statements::statements))]
#[cycle(statement)]
fn statements(alloc: Global, input: &mut Input<'_>, room: u32) -> Result<Items<Stmt>, ParseError>
    ensures { Reads (reading rules room statements.statements input.old.rest.now) result
        input.new.rest.now }
{
    let mut found = Items::new(alloc);
    'more: while begins_stmt(input) {
        found = put(found, ended(alloc, input, room))?;
    }
    Ok(found)
}

// The same, one or more.
#[tactic(auto, unfolding(grammar_sql::specs::Statements::body))]
#[cycle(statement)]
fn body(alloc: Global, input: &mut Input<'_>, room: u32) -> Result<Items<Stmt>, ParseError>
    ensures { Reads (reading rules room statements.body input.old.rest.now) result
        input.new.rest.now }
{
    let first = ended(alloc, input, room)?;
    let (first, more) = paired(first, statements(alloc, input, room))?;
    Ok(with_first(alloc, first, more)?)
}

// A body after a token of the kind.
#[tactic(auto, unfolding(grammar_sql::specs::Statements::body_after))]
#[cycle(statement)]
fn body_after(
    alloc: Global,
    input: &mut Input<'_>,
    room: u32,
    kind: TokenKind,
) -> Result<Items<Stmt>, ParseError>
    ensures { Reads (reading rules room (statements.body_after kind) input.old.rest.now) result
        input.new.rest.now }
{
    input.expect(kind)?;
    body(alloc, input, room)
}

// ---- choices

// e THEN body
#[tactic(auto, unfolding(grammar_sql::specs::Statements::branch))]
#[cycle(statement)]
fn branch(alloc: Global, input: &mut Input<'_>, room: u32) -> Result<Branch, ParseError>
    ensures { Reads (reading rules room statements.branch input.old.rest.now) result
        input.new.rest.now }
{
    let test = expr(alloc, input, room)?;
    let body = body_after(alloc, input, room, TokenKind::Word(Word::Then));
    let (test, body) = paired(test, body)?;
    Ok(Branch { test, body })
}

// A branch after a token of the kind.
#[tactic(auto, unfolding(grammar_sql::specs::Statements::branch_after))]
#[cycle(statement)]
fn branch_after(
    alloc: Global,
    input: &mut Input<'_>,
    room: u32,
    kind: TokenKind,
) -> Result<Branch, ParseError>
    ensures { Reads (reading rules room (statements.branch_after kind) input.old.rest.now) result
        input.new.rest.now }
{
    input.expect(kind)?;
    branch(alloc, input, room)
}

#[tactic(auto, unfolding(grammar_sql::specs::Statements::more_branches))]
#[cycle(statement)]
fn more_branches(
    alloc: Global,
    input: &mut Input<'_>,
    room: u32,
    kind: TokenKind,
) -> Result<Items<Branch>, ParseError>
    ensures { Reads (reading rules room (statements.more_branches kind) input.old.rest.now) result
        input.new.rest.now }
{
    let mut found = Items::new(alloc);
    'more: while begins_branch(input, kind) {
        found = put(found, branch_after(alloc, input, room, kind))?;
    }
    Ok(found)
}

// e THEN body {ELSEIF e THEN body}
#[tactic(auto, unfolding(grammar_sql::specs::Statements::branches))]
#[cycle(statement)]
fn branches(alloc: Global, input: &mut Input<'_>, room: u32) -> Result<Items<Branch>, ParseError>
    ensures { Reads (reading rules room statements.branches input.old.rest.now) result
        input.new.rest.now }
{
    let first = branch(alloc, input, room)?;
    let more = more_branches(alloc, input, room, TokenKind::Word(Word::Elseif));
    let (first, more) = paired(first, more)?;
    Ok(with_first(alloc, first, more)?)
}

// WHEN e THEN body {WHEN e THEN body}
#[tactic(auto, unfolding(grammar_sql::specs::Statements::when_branches))]
#[cycle(statement)]
fn when_branches(
    alloc: Global,
    input: &mut Input<'_>,
    room: u32,
) -> Result<Items<Branch>, ParseError>
    ensures { Reads (reading rules room statements.when_branches input.old.rest.now) result
        input.new.rest.now }
{
    let first = branch_after(alloc, input, room, TokenKind::Word(Word::When))?;
    let more = more_branches(alloc, input, room, TokenKind::Word(Word::When));
    let (first, more) = paired(first, more)?;
    Ok(with_first(alloc, first, more)?)
}

// The statements of ELSE, or none.
#[tactic(auto, unfolding(grammar_sql::specs::Statements::otherwise, grammar_sql::specs::Statements::body_after))]
#[cycle(statement)]
fn otherwise(alloc: Global, input: &mut Input<'_>, room: u32) -> Result<Items<Stmt>, ParseError>
    ensures { Reads (reading rules room statements.otherwise input.old.rest.now) result
        input.new.rest.now }
{
    if input.sees(TokenKind::Word(Word::Else)) {
        body_after(alloc, input, room, TokenKind::Word(Word::Else))
    } else {
        Ok(Items::new(alloc))
    }
}

// What stands between IF and its END.
#[tactic(auto, unfolding(grammar_sql::specs::Statements::if_body))]
#[cycle(statement)]
fn if_body(
    alloc: Global,
    input: &mut Input<'_>,
    room: u32,
) -> Result<(Items<Branch>, Items<Stmt>), ParseError>
    ensures { Reads (reading rules room statements.if_body input.old.rest.now) result
        input.new.rest.now }
{
    let branches = branches(alloc, input, room)?;
    paired(branches, otherwise(alloc, input, room))
}

#[tactic(auto, unfolding(grammar_sql::specs::Statements::if_construct))]
#[cycle(statement)]
fn if_construct(
    alloc: Global,
    input: &mut Input<'_>,
    room: u32,
) -> Result<(Anchor, (Items<Branch>, Items<Stmt>)), ParseError>
    ensures { Reads (reading rules room statements.if_construct input.old.rest.now) result
        input.new.rest.now }
{
    let anchor = anchor(input);
    let left = input.open(room, TokenKind::Word(Word::If))?;
    let inner = if_body(alloc, input, left);
    let body = closed(input, TokenKind::Word(Word::End), inner)?;
    Ok((anchor, body))
}

#[tactic(auto, unfolding(grammar_sql::specs::Statements::if_statement))]
#[cycle(statement)]
fn if_statement(alloc: Global, input: &mut Input<'_>, room: u32) -> Result<If, ParseError>
    ensures { Reads (reading rules room statements.if_statement input.old.rest.now) result
        input.new.rest.now }
{
    let found = if_construct(alloc, input, room);
    Ok(if_of(closed(input, TokenKind::Word(Word::If), found)?))
}

// WHEN e THEN body {WHEN e THEN body} [ELSE body]
#[cycle(statement)]
fn case_branches(
    alloc: Global,
    input: &mut Input<'_>,
    room: u32,
) -> Result<(Items<Branch>, Items<Stmt>), ParseError>
    ensures { Reads (reading rules room (statements.when_branches ~ statements.otherwise)
        input.old.rest.now) result input.new.rest.now }
{
    let branches = when_branches(alloc, input, room)?;
    paired(branches, otherwise(alloc, input, room))
}

// What stands between CASE and its END.
#[tactic(auto, unfolding(grammar_sql::specs::Statements::case_body))]
#[cycle(statement)]
fn case_body(
    alloc: Global,
    input: &mut Input<'_>,
    room: u32,
) -> Result<(Option<Expr>, (Items<Branch>, Items<Stmt>)), ParseError>
    ensures { Reads (reading rules room statements.case_body input.old.rest.now) result
        input.new.rest.now }
{
    let operand = if_expr(alloc, input, room)?;
    paired(operand, case_branches(alloc, input, room))
}

#[tactic(auto, unfolding(grammar_sql::specs::Statements::case_construct))]
#[cycle(statement)]
fn case_construct(
    alloc: Global,
    input: &mut Input<'_>,
    room: u32,
) -> Result<(Anchor, (Option<Expr>, (Items<Branch>, Items<Stmt>))), ParseError>
    ensures { Reads (reading rules room statements.case_construct input.old.rest.now) result
        input.new.rest.now }
{
    let anchor = anchor(input);
    let left = input.open(room, TokenKind::Word(Word::Case))?;
    let inner = case_body(alloc, input, left);
    let body = closed(input, TokenKind::Word(Word::End), inner)?;
    Ok((anchor, body))
}

#[tactic(auto, unfolding(grammar_sql::specs::Statements::case_statement))]
#[cycle(statement)]
fn case_statement(alloc: Global, input: &mut Input<'_>, room: u32) -> Result<Case, ParseError>
    ensures { Reads (reading rules room statements.case_statement input.old.rest.now) result
        input.new.rest.now }
{
    let found = case_construct(alloc, input, room);
    Ok(case_of(closed(input, TokenKind::Word(Word::Case), found)?))
}
