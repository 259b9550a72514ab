//! A small language, for which the laws are spoken out. `specs/SmallLanguage.antt` has its grammar.

ghost use Rattle.std.specs.Prelude.{◌≡◌, ◌↔◌, ℕ, ◌≤◌, List, Option, length, drop};
ghost use Rattle.sql_lex.specs.declared.token.Token.{Token};
ghost use Rattle.grammar_algebra.specs.SmallLanguage as language;
ghost use Rattle.grammar_algebra.specs.Grammar.{Spells, Cut, inside, begun};
ghost use Rattle.grammar_algebra.specs.Printed.{printed, declarations_of_parts};
ghost use Rattle.grammar_algebra.specs.Reading.{reading};
ghost use Rattle.grammar_algebra.specs.Stages.{in_turn};
ghost use Rattle.grammar_algebra.specs.Statement.{Answers, at_places, most_open};

use crate::language::{Ending, Part, Staged, reads_whole, stands_in_turn};

/// The statements of the language.
struct Statements;

impl Part for Statements {
    ghost Rule = { language.Rule };

    ghost Tree = { language.Tree };

    ghost rules = { language.rules };

    ghost rules_decide = { language.rules_decide };

    ghost Whole = { Option (List language.Declaration) × language.Sum };

    ghost part = { language.statement };

    ghost part_decides = { language.statement_decides };
}

impl Ending for Statements {
    ghost ends = { language.statement_ends };
}

/// What the reader says of the statements of the language.
pub fn reads_example()
    ensures { (tokens : List Token) (i : ℕ) → i ≤ length tokens →
        Answers language.rules most_open language.statement tokens i
        (at_places tokens (reading language.rules most_open language.statement (drop i tokens))) }
{
    reads_whole::<Statements>()
}

/// The declarations of a block.
struct Declarations;

impl Staged for Declarations {
    ghost Rule = { language.Rule };

    ghost Tree = { language.Tree };

    ghost rules = { language.rules };

    ghost Item = { language.Declaration };

    ghost part = { printed };

    ghost item = { language.declaration };

    ghost next = { language.next_stage };

    ghost of_parts = { λ n. declarations_of_parts (inside language.rules n) (begun language.rules n) };
}

/// The declarations of a block are its variables, then its cursors, then its handlers.
pub fn reads_declarations()
    ensures whole { (n : ℕ) (items : List language.Declaration) (tokens rest : List Token) →
        (Spells (inside language.rules n) (language.rules language.Block) items tokens rest ↔ Spells
        (inside language.rules n) (in_turn printed) items tokens rest) }
    ensures cut { (n : ℕ) (tokens end : List Token) →
        (Cut (inside language.rules n) (begun language.rules n) (language.rules language.Block)
        tokens end ↔ Cut (inside language.rules n) (begun language.rules n) (in_turn printed) tokens
        end) }
{
    stands_in_turn::<Declarations>()
}
