//! Values that go to places of their own kinds: arguments, and the columns of rows.

ghost use Rattle.std.specs.Prelude.{◌≡◌, map};
ghost use Rattle.bind_faults.specs.Faults.{noted};
ghost use Rattle.bind_kinds.specs.Kinds as spec;
ghost use Rattle.bind_kinds.specs.Kinds.{kind_of_type as type_kind};

use crate::kind::{Kind, OperandHead, joined, kind_of_type, misfit};
use bind_faults::Fault;
use sql_values::SqlType;
use sqlite_items::Items;

/// Values each of the kind at its place, as far as both go.
pub fn in_turn(kinds: &[Kind], heads: &[OperandHead], least: &mut Option<Fault>)
    ensures { least.new ≡ noted least.old (spec.in_turn kinds.now heads.now) }
{
    let mut kinds = kinds;
    let mut heads = heads;
    while let [kind, more @ ..] = kinds {
        match heads {
            [head, rest @ ..] => {
                misfit(*kind, *head, least);
                heads = rest;
            }
            [] => return,
        }
        kinds = more;
    }
}

/// Arguments each of the kind of its parameter's type, as far as both go.
pub fn arguments(types: &[SqlType], heads: &[OperandHead], least: &mut Option<Fault>)
    ensures { least.new ≡ noted least.old (spec.in_turn (map type_kind types.now) heads.now) }
{
    let mut types = types;
    let mut heads = heads;
    while let [data_type, more @ ..] = types {
        match heads {
            [head, rest @ ..] => {
                misfit(kind_of_type(*data_type), *head, least);
                heads = rest;
            }
            [] => return,
        }
        types = more;
    }
}

/// The kinds of columns, with one row more.
pub fn join_row(kinds: &mut Items<Kind>, heads: &[OperandHead])
    ensures { kinds.new ≡ spec.joined_row kinds.old heads.now }
{
    for (place, head) in heads.iter().enumerate() {
        if let Some(kind) = kinds.get(place) {
            let kind = joined(*kind, head.kind);
            kinds.set(place, kind);
        }
    }
}
