//! Statements, and what holds statements: compound statements with their handlers, IF, CASE, loops
//! and routines.

use crate::{
    Assignment, Call, Characteristic, ConditionDeclaration, ConditionValue, CreateTable,
    CursorDeclaration, Delete, DropObject, Fetch, GetDiagnostics, HandlerType, Insert, Parameter,
    Resignal, SelectInto, Signal, Update, VariableDeclaration,
};
use sqlite_items::{Boxed, Items};
use syntax_trees::{Anchor, DataType, Expr, Ident, OrderedQuery};

/// A statement, of a script or of a routine. Its anchor is its first token after a label.
#[cycle(statement)]
#[derive(Drop)]
pub enum Stmt {
    CreateTable(CreateTable),
    CreateFunction(CreateFunction),
    CreateProcedure(CreateProcedure),
    Drop(DropObject),
    Insert(Insert),
    Update(Update),
    Delete(Delete),
    Query(OrderedQuery),
    /// EXPLAIN with its query.
    Explain(Anchor, OrderedQuery),
    Call(Call),
    Labelled(Labelled),
    If(If),
    Case(Case),
    /// SET (ISO/IEC 9075-4, 14.5).
    Set(Anchor, Assignment),
    SelectInto(SelectInto),
    /// OPEN (ISO/IEC 9075-2, 14.4).
    Open(Anchor, Ident),
    /// CLOSE (14.6).
    Close(Anchor, Ident),
    Fetch(Fetch),
    Signal(Signal),
    Resignal(Resignal),
    GetDiagnostics(GetDiagnostics),
    /// LEAVE (ISO/IEC 9075-4, 14.9).
    Leave(Anchor, Ident),
    /// ITERATE (14.8).
    Iterate(Anchor, Ident),
    /// RETURN (ISO/IEC 9075-2, 15.2).
    Return(Anchor, Expr),
}

/// A statement that may have a label, with the names before and after it.
#[cycle(statement)]
#[derive(Drop)]
pub struct Labelled {
    pub label: Option<Ident>,
    /// The first token after the label.
    pub anchor: Anchor,
    pub structure: Structure,
    pub end_label: Option<Ident>,
}

/// What may have a label: a compound statement (ISO/IEC 9075-4, 14.1) or a loop (14.10 to 14.13).
#[cycle(statement)]
#[derive(Drop)]
pub enum Structure {
    Block(Block),
    Loop(Items<Stmt>),
    While(Expr, Items<Stmt>),
    Repeat(Items<Stmt>, Expr),
    For(Ident, OrderedQuery, Items<Stmt>),
}

/// A compound statement (ISO/IEC 9075-4, 14.1).
#[cycle(statement)]
#[derive(Drop)]
pub struct Block {
    pub atomic: bool,
    pub declarations: Items<Declaration>,
    pub statements: Items<Stmt>,
}

/// A declaration, without its word DECLARE.
#[cycle(statement)]
#[derive(Drop)]
pub enum Declaration {
    Variables(VariableDeclaration),
    Condition(ConditionDeclaration),
    Cursor(CursorDeclaration),
    Handler(Handler),
}

/// A handler (ISO/IEC 9075-4, 14.2).
#[cycle(statement)]
#[derive(Drop)]
pub struct Handler {
    /// The word of its type.
    pub anchor: Anchor,
    pub handler_type: HandlerType,
    /// What it waits for, of which there is at least one.
    pub values: Items<ConditionValue>,
    pub action: Boxed<Stmt>,
}

/// A test, and the statements that it chooses.
#[cycle(statement)]
#[derive(Drop)]
pub struct Branch {
    pub test: Expr,
    pub body: Items<Stmt>,
}

/// IF (ISO/IEC 9075-4, 14.7).
#[cycle(statement)]
#[derive(Drop)]
pub struct If {
    /// The word IF.
    pub anchor: Anchor,
    pub branches: Items<Branch>,
    /// The statements of ELSE, of which there are none where it is left out.
    pub otherwise: Items<Stmt>,
}

/// CASE (ISO/IEC 9075-4, 14.6): simple with an operand, else searched.
#[cycle(statement)]
#[derive(Drop)]
pub struct Case {
    /// The word CASE.
    pub anchor: Anchor,
    pub operand: Option<Expr>,
    pub branches: Items<Branch>,
    /// The statements of ELSE, of which there are none where it is left out.
    pub otherwise: Items<Stmt>,
}

/// `CREATE FUNCTION name (parameters) RETURNS returns characteristics body` (ISO/IEC 9075-2,
/// 11.60).
#[cycle(statement)]
#[derive(Drop)]
pub struct CreateFunction {
    /// The word CREATE.
    pub anchor: Anchor,
    pub name: Ident,
    pub parameters: Items<Parameter>,
    pub returns: DataType,
    pub characteristics: Items<Characteristic>,
    pub body: Boxed<Stmt>,
}

/// `CREATE PROCEDURE name (parameters) characteristics body` (ISO/IEC 9075-2, 11.60).
#[cycle(statement)]
#[derive(Drop)]
pub struct CreateProcedure {
    /// The word CREATE.
    pub anchor: Anchor,
    pub name: Ident,
    pub parameters: Items<Parameter>,
    pub characteristics: Items<Characteristic>,
    pub body: Boxed<Stmt>,
}
