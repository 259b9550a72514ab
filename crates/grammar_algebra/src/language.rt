//! Languages: grammars that one token ahead decides, and what reading says of each.

ghost use Rattle.std.specs.Prelude.{◌≡◌, ◌↔◌, ℕ, ◌≤◌, List, [], length, drop, true};
ghost use Rattle.sql_lex.specs.declared.token.Token.{Token};
ghost use Rattle.grammar_algebra.specs.declared.stage.Stage.{Stage};
ghost use Rattle.grammar_algebra.specs.declared.stage.Stage.TheVariants as stages;
ghost use Rattle.grammar_algebra.specs.Grammar.{Grammar, Spells, Cut, inside, begun, staged};
ghost use Rattle.grammar_algebra.specs.Stages.{OfParts, in_turn};
ghost use Rattle.grammar_algebra.specs.Reading.{decides, goes_on, reading};
ghost use Rattle.grammar_algebra.specs.Statement.{Answers, IsOne, PartAnswers, at_places};

/// A grammar with the rules that it names, which one token ahead decides. No code has a value of
/// such a type: it stands for what contracts speak of.
pub trait Part {
    /// What names a rule whose text stands in a construct.
    ghost Rule: { Type 0 };

    /// The trees of each rule.
    ghost Tree: { Rule → Type 0 };

    /// What stands in each construct.
    ghost rules: { (r : Rule) → Grammar Rule Tree (Tree r) };

    /// One token ahead decides each rule.
    ghost rules_decide: { (r : Rule) → decides rules (rules r) ≡ true };

    /// The trees of the part.
    ghost Whole: { Type 0 };

    /// How the part is written.
    ghost part: { Grammar Rule Tree Whole };

    /// One token ahead decides it.
    ghost part_decides: { decides rules part ≡ true };
}

/// A part with an end of its own, as a statement with its `;`.
pub trait Ending: Part {
    /// No token goes on with a whole spelling.
    ghost ends: { goes_on Self.part ≡ [] };
}

/// Reading a part from place i on, with room for n constructs: the place where the longest
/// beginning ends, and the one tree that is spelled up to it, where there is one.
pub fn reads_part<P: Part>()
    ensures { (n : ℕ) (tokens : List Token) (i : ℕ) → i ≤ length tokens →
        PartAnswers P.rules n P.part tokens i
        (at_places tokens (reading P.rules n P.part (drop i tokens))) }
{}

/// Reading a part with an end from place i on, with room for n constructs: the one tree that is
/// spelled there, and the place after it; else the place where the longest beginning ends, and
/// whether one more construct would go on.
pub fn reads_whole<E: Ending>()
    ensures answers { (n : ℕ) (tokens : List Token) (i : ℕ) → i ≤ length tokens →
        Answers E.rules n E.part tokens i (at_places tokens
        (reading E.rules n E.part (drop i tokens))) }
    ensures one { (n : ℕ) (tokens : List Token) (i : ℕ) → i ≤ length tokens →
        IsOne E.rules n E.part tokens i }
{}

/// A repetition by stages, and the parts whose repetitions stand in it one after another.
pub trait Staged {
    /// What names a rule whose text stands in a construct.
    ghost Rule: { Type 0 };

    /// The trees of each rule.
    ghost Tree: { Rule → Type 0 };

    /// What stands in each construct.
    ghost rules: { (r : Rule) → Grammar Rule Tree (Tree r) };

    /// The trees of an item.
    ghost Item: { Type 0 };

    /// The part of each stage, as it is printed.
    ghost part: { Stage → Grammar Rule Tree Item };

    /// How an item is read at each stage.
    ghost item: { Stage → Grammar Rule Tree Item };

    /// The stage after an item.
    ghost next: { Stage → Item → Stage };

    /// At each stage an item is what that stage's part or a later one's spells.
    ghost of_parts: { (n : ℕ) → OfParts (inside rules n) (begun rules n) part item next };
}

/// What a repetition by stages spells and how it is cut: as the repetitions of its parts one after
/// another.
pub fn stands_in_turn<S: Staged>()
    ensures whole { (n : ℕ) (items : List S.Item) (tokens rest : List Token) →
        (Spells (inside S.rules n) (staged S.item S.next stages.First) items tokens rest ↔ Spells
        (inside S.rules n) (in_turn S.part) items tokens rest) }
    ensures cut { (n : ℕ) (tokens end : List Token) →
        (Cut (inside S.rules n) (begun S.rules n) (staged S.item S.next stages.First) tokens end ↔
        Cut (inside S.rules n) (begun S.rules n) (in_turn S.part) tokens end) }
{}
