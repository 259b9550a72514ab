//! Conditions: their states and their messages, and those that the engine itself raises.

ghost use Rattle.std.specs.Prelude.{◌≡◌, IfOk};
ghost use Rattle.sql_conditions.specs.Conditions.{own, completion};
ghost use Rattle.sql_conditions.specs.Texts as spec;

use crate::{Message, SqlState};
use sql_texts::NoMemory;
use std::mem::size_of;

/// A condition that the engine itself raises.
#[derive(Clone, Copy, Debug, Default, PartialEq, Eq)]
pub enum EngineCondition {
    /// An exact result is outside its type.
    #[default]
    NumberOutOfRange,
    /// A divisor is zero.
    DivisionByZero,
    /// A value is NULL where none may be, or a key stands twice.
    ConstraintViolated,
    /// A routine that calls itself is active too often.
    RecursionTooDeep,
    /// A query that is to give one row gives several.
    SeveralRows,
    /// A text is longer than its type, or than a text may be.
    StringTooLong,
    /// The length of a substring is below zero.
    SubstringError,
    /// A text doesn't spell a value of the type that it is cast to.
    InvalidTextForCast,
    /// No row is met, found or left.
    NoData,
    /// No test of CASE is true, and it has no ELSE.
    CaseNotFound,
    /// The text of SIGNAL or RESIGNAL is NULL.
    NullNotAllowed,
    /// An open cursor is opened, or one that is closed is read or closed.
    InvalidCursorState,
    /// A function ends without RETURN.
    EndedWithoutReturn,
    /// RESIGNAL stands in no handler's action.
    HandlerNotActive,
    /// GET STACKED DIAGNOSTICS stands in no handler's action.
    StackedWithoutHandler,
    /// An area has no condition of a number.
    InvalidConditionNumber,
}

// The conditions that the engine raises.
const ENGINE_CONDITIONS: [EngineCondition; 16] = [
    EngineCondition::NumberOutOfRange,
    EngineCondition::DivisionByZero,
    EngineCondition::ConstraintViolated,
    EngineCondition::RecursionTooDeep,
    EngineCondition::SeveralRows,
    EngineCondition::StringTooLong,
    EngineCondition::SubstringError,
    EngineCondition::InvalidTextForCast,
    EngineCondition::NoData,
    EngineCondition::CaseNotFound,
    EngineCondition::NullNotAllowed,
    EngineCondition::InvalidCursorState,
    EngineCondition::EndedWithoutReturn,
    EngineCondition::HandlerNotActive,
    EngineCondition::StackedWithoutHandler,
    EngineCondition::InvalidConditionNumber,
];

impl EngineCondition {
    /// Its SQLSTATE.
    pub fn state(self) -> SqlState
        ensures { result ≡ spec.state_of self }
    {
        match self {
            EngineCondition::NumberOutOfRange => SqlState::known(*b"22003"),
            EngineCondition::DivisionByZero => SqlState::known(*b"22012"),
            EngineCondition::ConstraintViolated => SqlState::known(*b"23000"),
            EngineCondition::RecursionTooDeep => SqlState::known(*b"PS002"),
            EngineCondition::SeveralRows => SqlState::known(*b"21000"),
            EngineCondition::StringTooLong => SqlState::known(*b"22001"),
            EngineCondition::SubstringError => SqlState::known(*b"22011"),
            EngineCondition::InvalidTextForCast => SqlState::known(*b"22018"),
            EngineCondition::NoData => SqlState::known(*b"02000"),
            EngineCondition::CaseNotFound => SqlState::known(*b"20000"),
            EngineCondition::NullNotAllowed => SqlState::known(*b"22004"),
            EngineCondition::InvalidCursorState => SqlState::known(*b"24000"),
            EngineCondition::EndedWithoutReturn => SqlState::known(*b"2F005"),
            EngineCondition::HandlerNotActive => SqlState::known(*b"0K000"),
            EngineCondition::StackedWithoutHandler => SqlState::known(*b"0Z002"),
            EngineCondition::InvalidConditionNumber => SqlState::known(*b"35000"),
        }
    }

    /// Its message text.
    pub fn text(self) -> &'static str
        ensures { result.now ≡ spec.message_of self }
    {
        match self {
            EngineCondition::NumberOutOfRange => "number out of range",
            EngineCondition::DivisionByZero => "division by zero",
            EngineCondition::ConstraintViolated => "constraint violated",
            EngineCondition::RecursionTooDeep => "recursion too deep",
            EngineCondition::SeveralRows => "more than one row",
            EngineCondition::StringTooLong => "string too long",
            EngineCondition::SubstringError => "substring error",
            EngineCondition::InvalidTextForCast => "invalid text for cast",
            EngineCondition::NoData => "no data",
            EngineCondition::CaseNotFound => "case not found",
            EngineCondition::NullNotAllowed => "null value not allowed",
            EngineCondition::InvalidCursorState => "invalid cursor state",
            EngineCondition::EndedWithoutReturn => "function ended without RETURN",
            EngineCondition::HandlerNotActive => "resignal when handler not active",
            EngineCondition::StackedWithoutHandler => "stacked diagnostics without handler",
            EngineCondition::InvalidConditionNumber => "invalid condition number",
        }
    }
}

// The text of a state among these conditions.
fn text_among(conditions: &[EngineCondition], state: &SqlState) -> &'static str
    ensures { result.now ≡ spec.text_among conditions.now state.now }
{
    for condition in conditions {
        if condition.state().is(state) {
            return condition.text();
        }
    }
    ""
}

/// The text of a state in this engine's conditions and replies; a state without one has no
/// character.
pub fn text_of(state: &SqlState) -> &'static str
    ensures { result.now ≡ spec.text_of state.now }
{
    if state.is(&SqlState::known(*b"PS001")) {
        return "budget exhausted";
    }
    text_among(&ENGINE_CONDITIONS, state)
}

/// A condition (ISO/IEC 9075-2, 4.32): an SQLSTATE and a message text.
#[derive(Debug, Drop)]
pub struct Condition {
    /// What was raised.
    pub state: SqlState,
    /// What is told of it.
    pub message: Message,
}

const _: () = prove!(size_of::<Condition>() <= 24);

impl Condition {
    /// The condition of what raises nothing. It takes no memory.
    pub fn success() -> Condition
        ensures { result ≡ completion }
    {
        Condition {
            state: SqlState::known(*b"00000"),
            message: Message::empty(),
        }
    }

    /// A condition that the engine raises. It takes no memory.
    pub fn of(engine: EngineCondition) -> Condition
        ensures { result ≡ own engine }
    {
        Condition {
            state: engine.state(),
            message: Message::of_engine(engine),
        }
    }

    /// The same condition once more. It takes no memory.
    pub fn copied(&self) -> Result<Condition, NoMemory>
        ensures { IfOk result (λ c. c ≡ self.now) }
    {
        Ok(Condition {
            state: self.state,
            message: self.message.copied()?,
        })
    }
}

/// What fills the places of an area that hold no condition yet.
impl Default for Condition {
    fn default() -> Condition {
        Condition::success()
    }
}
