//! Functions of the form that is run (ISO/IEC 9075-4, 9.20).

ghost use Rattle.std.specs.Prelude.{◌≡◌};
ghost use Rattle.std.specs.Option.{option_copied};
ghost use Rattle.statement_trees.specs.declared.statement.CreateFunction.{out-CreateFunction};
ghost use Rattle.bind_rules.specs.Definitions.{result_of};

use statement_trees::{CreateFunction, Stmt};
use syntax_trees::Expr;

/// The result of a function of the form that is run: without characteristics, its body RETURN.
pub fn result_of(create: &CreateFunction) -> Option<&Expr>
    ensures { option_copied result ≡ result_of (out-CreateFunction create.now) }
{
    if !create.characteristics.is_empty() {
        return None;
    }
    match create.body.get() {
        Stmt::Return(_, value) => Some(value),
        _ => None,
    }
}
