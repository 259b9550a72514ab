//! Which word a test and a negated IN stand for, and which words are parted into conjuncts (ISO/IEC
//! 9075-2, 6.39, 7.12 and 8.4).

ghost use Rattle.std.specs.Prelude.{◌≡◌};
ghost use Rattle.bind_kinds.specs.Conjuncts.{is_and as parts};
ghost use Rattle.bind_kinds.specs.Words as spec;

use bound_trees::BoundOperation;
use syntax_trees::TruthTest;

/// The word of a test after IS. IS UNKNOWN asks for NULL.
pub fn word_of_test(test: TruthTest) -> BoundOperation
    ensures { result ≡ spec.word_of_test test }
{
    match test {
        TruthTest::Null | TruthTest::Unknown => BoundOperation::NullTest,
        TruthTest::True => BoundOperation::TrueTest,
        TruthTest::False => BoundOperation::FalseTest,
    }
}

/// Whether the operands of a word are conjuncts by themselves.
pub fn is_and(word: BoundOperation) -> bool
    ensures { result ≡ parts word }
{
    match word {
        BoundOperation::And => true,
        BoundOperation::Negation | BoundOperation::Opposite | BoundOperation::Comparing(_) => false,
        BoundOperation::NullTest | BoundOperation::TrueTest | BoundOperation::FalseTest => false,
        BoundOperation::AnyOf | BoundOperation::Modulo | BoundOperation::CharLength => false,
        BoundOperation::Substring | BoundOperation::Cast(_) | BoundOperation::Or => false,
        BoundOperation::Coalesce | BoundOperation::Case | BoundOperation::CaseOf => false,
    }
}

/// The word that stands over IN: NOT IN is the opposite of IN.
pub fn over_in(negated: bool) -> Option<BoundOperation>
    ensures { result ≡ spec.over_in negated }
{
    if negated {
        Some(BoundOperation::Opposite)
    } else {
        None
    }
}
