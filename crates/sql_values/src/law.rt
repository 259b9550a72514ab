//! Laws of values. Each function does nothing; its contract is the law.

ghost use Rattle.std.specs.Prelude.{◌≡◌, ◌↔◌, List, ℕ, ℤ, Some};
ghost use Rattle.sql_values.specs.declared.fold.FoldKind.{FoldKind};
ghost use Rattle.sql_values.specs.declared.value.Value.{Value};
ghost use Rattle.sql_values.specs.Folds.{finished, folded, taken};
ghost use Rattle.sql_values.specs.Spellings.{SpellsInteger, SpellsTruth, TruthWord, integer_in};
ghost use Rattle.sql_values.specs.Spellings.{trimmed, truth_in};

/// What CAST reads from a text is what the text spells, and it reads all that texts spell (ISO/IEC
/// 9075-2, 6.13).
pub fn reads_what_is_spelled()
    ensures integers { (s : List ℕ) (z : ℤ) →
        (integer_in (trimmed s) ≡ Some z) ↔ SpellsInteger s z }
    ensures truths { (s : List ℕ) (w : TruthWord) →
        (truth_in (trimmed s) ≡ Some w) ↔ SpellsTruth s w }
{}

/// What is kept of values that are taken one by one finishes as the aggregate of their list
/// (ISO/IEC 9075-2, 10.9).
pub fn folds_are_of_lists()
    ensures { (kind : FoldKind) (values : List Value) →
        finished (taken kind values) ≡ folded kind values }
{}
