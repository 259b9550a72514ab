//! Laws of states and their texts. The function does nothing; its contract is the law.

ghost use Rattle.std.specs.Prelude.{◌≡◌, ◌↔◌, true, List, ℕ};
ghost use Rattle.std.specs.Str.{encode_utf8_all};
ghost use Rattle.sql_conditions.specs.declared.condition.EngineCondition.{EngineCondition};
ghost use Rattle.sql_conditions.specs.declared.state.Class.TheVariants.{Exception};
ghost use Rattle.sql_conditions.specs.States.{is_state, is_exception, class_of};
ghost use Rattle.sql_conditions.specs.Texts.{state_of, message_of, text_of};

/// Each condition of the engine has an SQLSTATE, whose text is its message; what is an exception is
/// so by its class; and a text that spells a state is stored as its characters.
pub fn states_are_known()
    ensures states { (c : EngineCondition) → is_state (state_of c) ≡ true }
    ensures texts { (c : EngineCondition) → text_of (state_of c) ≡ message_of c }
    ensures exceptions { (s : List ℕ) → (is_exception s ≡ true) ↔ (class_of s ≡ Exception) }
    ensures spelled { (t : List ℕ) → is_state (encode_utf8_all t) ≡ true → encode_utf8_all t ≡ t }
{}
