//! Types as they are written.

use crate::Anchor;

/// A data type (ISO/IEC 9075-2, 6.1). Its anchor is its name.
#[derive(Clone, Copy, Debug, PartialEq, Eq)]
pub struct DataType {
    pub anchor: Anchor,
    pub name: TypeName,
}

/// The name of a data type.
#[derive(Clone, Copy, Debug, PartialEq, Eq)]
pub enum TypeName {
    Integer,
    /// VARCHAR, with its number as it is written, and the number's token.
    Varchar(Anchor, i64),
    Boolean,
}
