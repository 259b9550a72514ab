//! Bound trees: statements whose names are resolved. A column, a variable and a cursor stand by
//! their places, a table and a routine by their names.
#![tactic(auto)]

mod change;
mod condition;
mod expr;
mod query;
mod statement;

pub use change::{BoundDelete, BoundInsert, BoundUpdate};
pub use condition::{
    BoundArea, BoundConditionItem, BoundConditionRead, BoundConditionValue, BoundDiagnostics,
    BoundHandlerType, BoundInformation, BoundResignal, BoundSignal, BoundStatementItem,
    BoundStatementRead,
};
pub use expr::{BoundExpr, BoundLink, BoundOperation};
pub use query::{BoundFromItem, BoundGrouping, BoundQuery, BoundRow, BoundSelect, BoundSource};
pub use statement::{
    BoundArgument, BoundBlock, BoundBranch, BoundCall, BoundHandler, BoundStmt, BoundTarget,
    BoundVariables,
};
