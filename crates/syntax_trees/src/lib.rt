//! Expressions and queries as they are written. Brackets leave no node, a chain of operators is a
//! list, and each node has its anchor.
#![tactic(auto)]

mod anchor;
mod data_type;
mod expr;
mod query;

pub use anchor::{Anchor, ColumnName, Ident};
pub use data_type::{DataType, TypeName};
pub use expr::{ChainOperator, Expr, Link, Literal, Operation, TruthTest};
pub use query::{
    FromItem, OrderedQuery, Query, Select, SelectItem, SortSpecification, TableRef, ValueRow,
    Values,
};
