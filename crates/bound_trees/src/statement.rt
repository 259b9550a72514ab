//! Bound statements of routines and blocks. A variable and a column of FOR stand by their slots in
//! the frame of the routine, a cursor by its own, and a label by how many compound statements and
//! loops outwards it stands.

use crate::{
    BoundConditionValue, BoundDelete, BoundDiagnostics, BoundExpr, BoundHandlerType, BoundInsert,
    BoundQuery, BoundResignal, BoundSignal, BoundUpdate,
};
use sql_values::{Name, SqlType};
use sqlite_items::{Boxed, Items};

/// A variable or parameter into which a value is stored: its slot, and its type.
#[derive(Clone, Copy, Debug)]
pub struct BoundTarget {
    pub slot: usize,
    pub data_type: SqlType,
}

/// An argument of CALL (ISO/IEC 9075-2, 15.1).
#[derive(Drop)]
pub enum BoundArgument {
    /// The value of an IN parameter, or of an INOUT one that is given back to the script.
    Value(BoundExpr),
    /// A variable from which an INOUT value is taken, and into which an OUT or INOUT one is stored.
    Variable(BoundTarget),
    /// An OUT value that is given back to the script.
    Given,
}

/// CALL (ISO/IEC 9075-2, 15.1): the procedure's name, and its arguments.
#[derive(Drop)]
pub struct BoundCall {
    pub procedure: Name,
    pub arguments: Items<BoundArgument>,
}

/// Variables of one declaration (ISO/IEC 9075-4, 14.4): the slot of the first, how many there are,
/// their type, and the default.
#[derive(Drop)]
pub struct BoundVariables {
    pub first: usize,
    pub count: usize,
    pub data_type: SqlType,
    pub default: Option<BoundExpr>,
}

/// A statement of a routine or a block.
#[cycle(bound_statement)]
#[derive(Drop)]
pub enum BoundStmt {
    /// INSERT, with the places of the listed columns, where some are listed.
    Insert(BoundInsert, Option<Items<usize>>),
    Update(BoundUpdate),
    Delete(BoundDelete),
    Call(BoundCall),
    /// A compound statement (ISO/IEC 9075-4, 14.1).
    Block(BoundBlock),
    /// IF (14.7): the branches, and the statements of ELSE, of which there are none where it is
    /// left out.
    If(Items<BoundBranch>, Items<BoundStmt>),
    /// CASE (14.6), simple with an operand, else searched.
    Case(Option<BoundExpr>, Items<BoundBranch>, Items<BoundStmt>),
    /// SET (14.5).
    Set(BoundTarget, BoundExpr),
    /// SELECT INTO (ISO/IEC 9075-2, 14.7).
    SelectInto(BoundQuery, Items<BoundTarget>),
    /// LOOP (ISO/IEC 9075-4, 14.10).
    Loop(Items<BoundStmt>),
    /// WHILE (14.11).
    While(BoundExpr, Items<BoundStmt>),
    /// REPEAT (14.12).
    Repeat(Items<BoundStmt>, BoundExpr),
    /// FOR (14.13): the query, the slot of its first column, and the statements.
    For(BoundQuery, usize, Items<BoundStmt>),
    /// OPEN (ISO/IEC 9075-2, 14.4).
    Open(usize),
    /// CLOSE (14.6).
    Close(usize),
    /// FETCH (14.5).
    Fetch(usize, Items<BoundTarget>),
    Signal(BoundSignal),
    Resignal(BoundResignal),
    GetDiagnostics(BoundDiagnostics),
    /// LEAVE (ISO/IEC 9075-4, 14.9).
    Leave(usize),
    /// ITERATE (14.8).
    Iterate(usize),
    /// RETURN (ISO/IEC 9075-2, 15.2).
    Return(BoundExpr),
}

/// A compound statement (ISO/IEC 9075-4, 14.1): its variables in the order of their declarations,
/// the slot of its first cursor and the queries of its cursors, its handlers and its statements.
#[cycle(bound_statement)]
#[derive(Drop)]
pub struct BoundBlock {
    pub atomic: bool,
    pub variables: Items<BoundVariables>,
    pub first_cursor: usize,
    pub cursors: Items<BoundQuery>,
    pub handlers: Items<BoundHandler>,
    pub statements: Items<BoundStmt>,
}

/// A handler (14.2). Its action stands inside its compound statement, which counts as one outwards.
#[cycle(bound_statement)]
#[derive(Drop)]
pub struct BoundHandler {
    pub handler_type: BoundHandlerType,
    pub values: Items<BoundConditionValue>,
    pub action: Boxed<BoundStmt>,
}

/// A test, or what the operand of a simple CASE is compared with, and the statements that it
/// chooses.
#[cycle(bound_statement)]
#[derive(Drop)]
pub struct BoundBranch {
    pub test: BoundExpr,
    pub body: Items<BoundStmt>,
}
