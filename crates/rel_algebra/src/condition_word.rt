//! Words over cells that may be conditions: what handlers, SIGNAL, RESIGNAL and GET DIAGNOSTICS do,
//! as words of plans.

use sql_conditions::SqlState;

/// What a handler waits for (ISO/IEC 9075-4, 14.2).
#[derive(Clone, Copy, Debug)]
pub enum ConditionValue {
    /// An SQLSTATE.
    State(SqlState),
    /// Every class but success, warning and no data.
    SqlException,
    /// Class 01.
    SqlWarning,
    /// Class 02.
    NotFound,
}

/// An item of a condition (ISO/IEC 9075-2, 23.1).
#[derive(Clone, Copy, Debug, PartialEq, Eq)]
pub enum ItemWord {
    /// RETURNED_SQLSTATE.
    State,
    /// MESSAGE_TEXT.
    Text,
}

/// A word over cells that may be conditions. A condition in such a cell isn't raised by reading it.
#[derive(Clone, Copy, Debug)]
pub enum ConditionWord {
    /// The cell as it is: what was raised is held.
    Catch,
    /// Whether the newest condition is one that a handler waits for (ISO/IEC 9075-4, 14.2).
    Matches(ConditionValue),
    /// Whether the newest condition is of a class, which is the first two characters of its
    /// SQLSTATE (ISO/IEC 9075-2, 24.1).
    Class([u8; 2]),
    /// How many conditions there are (23.1).
    Number,
    /// An item of the condition of a number: the number, and the cell (23.1).
    Item(ItemWord),
    /// A condition of this SQLSTATE before those of a cell: its text, and the cell (ISO/IEC 9075-4,
    /// 17.2 and 17.3).
    Push(SqlState),
    /// Another text for the newest condition: the text, and the cell (17.3).
    Retext,
    /// The cell as it is: what was held is raised.
    Raise,
}
