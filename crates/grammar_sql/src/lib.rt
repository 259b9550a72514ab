//! The grammar of statements, as a value that one token ahead decides, and whose constructs the
//! tokens tell.
#![tactic(auto)]

mod chain_level;
mod function_word;
mod predicate_part;
mod structure_word;

pub use chain_level::ChainLevel;
pub use function_word::{Function, FunctionWord};
use grammar_algebra::{Ending, Part};
pub use predicate_part::{InValue, PredicatePart};
pub use structure_word::StructureWord;

/// The statements of a script, each with its `;`. It stands for their grammar in contracts; no code
/// has a value of it.
pub struct Statements;

impl Part for Statements {
    ghost use Rattle.grammar_sql.specs.Sql as g;
    ghost use Rattle.grammar_sql.specs.Trees as trees;
    ghost use Rattle.grammar_sql.specs.Decides.{all_decide, statement_decides};
    ghost use Rattle.statement_trees.specs.declared.statement.Stmt.{Stmt};

    ghost Rule = { trees.Rule };

    ghost Tree = { trees.Tree };

    ghost rules = { g.rules };

    ghost rules_decide = { all_decide };

    ghost Whole = { Stmt };

    ghost part = { g.statement };

    ghost part_decides = { statement_decides };
}

impl Ending for Statements {
    ghost use Rattle.grammar_sql.specs.Decides.{statement_ends};

    ghost ends = { statement_ends };
}

ghost use Rattle.grammar_sql.specs.Constructs.{TellOpen, GoBySteps, CountOpen, TellOpenButAfterEnd};
ghost use Rattle.grammar_sql.specs.Constructs.{GoByStepsButAfterEnd, CountOpenButAfterEnd};
ghost use Rattle.grammar_sql.specs.Queries.{query};
ghost use Rattle.grammar_sql.specs.Writing.{dml};
ghost use Rattle.grammar_sql.specs.Definitions.{ddl};
ghost use Rattle.grammar_sql.specs.Sql.{rules, statement};

/// At each place, the constructs that are open by the tokens alone are those that the grammar has
/// open there: for the statements of a script, and for each part that a parser reads by itself.
pub fn open_constructs()
    ensures statement { TellOpenButAfterEnd rules statement }
    ensures query { TellOpen rules query }
    ensures dml { TellOpen rules dml }
    ensures ddl { TellOpen rules ddl }
{}

/// From each place to the next one, the constructs that the grammar has open gain the token there
/// where `opens` holds of it or it is a FOR that begins a loop, lose the innermost at `)` and END,
/// and stay as they were at any other token.
pub fn steps_of_constructs()
    ensures statement { GoByStepsButAfterEnd rules statement }
    ensures query { GoBySteps rules query }
    ensures dml { GoBySteps rules dml }
    ensures ddl { GoBySteps rules ddl }
{}

/// How many constructs a beginning has open at once is told by the tokens alone.
pub fn counted_constructs()
    ensures statement { CountOpenButAfterEnd rules statement }
    ensures query { CountOpen rules query }
    ensures dml { CountOpen rules dml }
    ensures ddl { CountOpen rules ddl }
{}
