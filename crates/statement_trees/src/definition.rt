//! Definitions of tables, and the parts of those of routines that hold no statement.

use sqlite_items::Items;
use syntax_trees::{Anchor, DataType, Ident};

/// `CREATE TABLE name (elements)` (ISO/IEC 9075-2, 11.3).
#[derive(Drop)]
pub struct CreateTable {
    /// The word CREATE.
    pub anchor: Anchor,
    pub name: Ident,
    /// Its columns and its key, of which there is at least one.
    pub elements: Items<TableElement>,
}

/// An element of a table (11.3).
#[derive(Drop)]
pub enum TableElement {
    Column(Column),
    /// `PRIMARY KEY (columns)` (11.7): its first word, and the names of its columns, of which there
    /// is at least one.
    PrimaryKey(Anchor, Items<Ident>),
}

/// A column of a table, with its constraints in their order (11.4).
#[derive(Drop)]
pub struct Column {
    pub name: Ident,
    pub data_type: DataType,
    pub constraints: Items<Constraint>,
}

/// A constraint of a column (11.4).
#[derive(Clone, Copy, Debug, PartialEq, Eq)]
pub enum Constraint {
    NotNull,
    /// With its first word.
    PrimaryKey(Anchor),
}

/// Which way the value of a parameter goes (ISO/IEC 9075-2, 11.60).
#[derive(Clone, Copy, Debug, PartialEq, Eq)]
pub enum ParameterMode {
    In,
    Out,
    Inout,
}

/// A parameter of a routine. One without a mode is IN.
#[derive(Drop)]
pub struct Parameter {
    pub mode: ParameterMode,
    pub name: Ident,
    pub data_type: DataType,
}

/// What a characteristic says of a routine (11.60).
#[derive(Clone, Copy, Debug, PartialEq, Eq)]
pub enum CharacteristicKind {
    LanguageSql,
    Deterministic,
    NotDeterministic,
    ContainsSql,
    ReadsSqlData,
    ModifiesSqlData,
    ReturnsNullOnNullInput,
    CalledOnNullInput,
}

/// A characteristic of a routine (11.60), with its first word.
#[derive(Clone, Copy, Debug, PartialEq, Eq)]
pub struct Characteristic {
    pub anchor: Anchor,
    pub kind: CharacteristicKind,
}

/// What a name may stand for.
#[derive(Clone, Copy, Debug, PartialEq, Eq)]
pub enum ObjectSort {
    Table,
    Function,
    Procedure,
}

/// `DROP TABLE name`, `DROP FUNCTION name` or `DROP PROCEDURE name`, where RESTRICT may follow
/// (ISO/IEC 9075-2, 11.31 and 11.62).
#[derive(Debug, Drop)]
pub struct DropObject {
    /// The word DROP.
    pub anchor: Anchor,
    pub sort: ObjectSort,
    pub name: Ident,
}
