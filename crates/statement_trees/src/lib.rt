//! Statements as they are written, over the trees of expressions and queries. Each has its anchor.
#![tactic(auto)]

mod condition;
mod declaration;
mod definition;
mod statement;
mod writing;

pub use condition::{
    ConditionItem, ConditionItemName, ConditionNumber, ConditionValue, DiagnosticsArea,
    DiagnosticsInformation, GetDiagnostics, Resignal, Signal, SignalValue, SqlstateValue,
    StatementItem, StatementItemName,
};
pub use declaration::{ConditionDeclaration, CursorDeclaration, HandlerType, VariableDeclaration};
pub use definition::{
    Characteristic, CharacteristicKind, Column, Constraint, CreateTable, DropObject, ObjectSort,
    Parameter, ParameterMode, TableElement,
};
pub use statement::{
    Block, Branch, Case, CreateFunction, CreateProcedure, Declaration, Handler, If, Labelled, Stmt,
    Structure,
};
pub use writing::{Argument, Assignment, Call, Delete, Fetch, Insert, SelectInto, Update};
