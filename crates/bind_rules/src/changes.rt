//! What INSERT, UPDATE and DELETE ask: values of the kinds of their columns, a test in WHERE, and
//! no writing function inside (ISO/IEC 9075-2, 14.9 to 14.15).

ghost use Rattle.std.specs.Prelude.{◌≡◌};
ghost use Rattle.bind_faults.specs.Faults.{noted};
ghost use Rattle.bind_kinds.specs.declared.kind.Kind.TheVariants.{Boolean};
ghost use Rattle.bind_kinds.specs.Kinds.{misfit};
ghost use Rattle.bind_sight.specs.Sight.{seen_by};
ghost use Rattle.bind_sight.specs.Sight as spec;

use bind_faults::Fault;
use bind_kinds::{Kind, OperandHead, in_turn};
use bind_sight::Sight;

/// A value that is assigned is of the kind of its column.
pub fn note_assigned(kind: Kind, head: OperandHead, least: &mut Option<Fault>)
    ensures { least.new ≡ noted least.old (misfit kind head) }
{
    in_turn(&[kind], &[head], least);
}

/// WHERE is a test.
pub fn note_where(head: OperandHead, least: &mut Option<Fault>)
    ensures { least.new ≡ noted least.old (misfit Boolean head) }
{
    in_turn(&[Kind::Boolean], &[head], least);
}

/// The same names, where no writing function may be called.
pub fn inside_writing<'a>(outside: &Sight<'a>) -> Sight<'a>
    ensures { seen_by result ≡ spec.inside_writing (seen_by outside.now) }
{
    Sight {
        levels: outside.levels,
        scopes: outside.scopes,
        catalog: outside.catalog,
        own: outside.own,
        writing: true,
    }
}
