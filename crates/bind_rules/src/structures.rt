//! What the form of a statement decides: whether it is a loop, and of which kind the tests of CASE
//! are (ISO/IEC 9075-4, 14.6 and 14.8).

ghost use Rattle.std.specs.Prelude.{◌≡◌};
ghost use Rattle.statement_trees.specs.declared.statement.Structure.{out-Structure};
ghost use Rattle.bind_rules.specs.Structures as spec;

use bind_kinds::Kind;
use statement_trees::Structure;

/// Whether what may have a label is a loop, by its form.
pub fn loops(structure: &Structure) -> bool
    ensures { result ≡ spec.loops (out-Structure structure.now) }
{
    match structure {
        Structure::Block(_) => false,
        Structure::Loop(_) => true,
        Structure::While(_, _) => true,
        Structure::Repeat(_, _) => true,
        Structure::For(_, _, _) => true,
    }
}

/// The kind of the tests of CASE: that of its operand, and Boolean where it has none.
pub fn kind_of_tests(operand: Option<Kind>) -> Kind
    ensures { result ≡ spec.kind_of_tests operand }
{
    match operand {
        Some(kind) => kind,
        None => Kind::Boolean,
    }
}
