//! Keys of tables: what PRIMARY KEY and NOT NULL say of a column, and how many keys a table has
//! (ISO/IEC 9075-2, 11.3, 11.4 and 11.7).

ghost use Rattle.std.specs.Prelude.{◌≡◌, map};
ghost use Rattle.std.specs.List.{list_any};
ghost use Rattle.bind_faults.specs.Faults.{noted};
ghost use Rattle.bind_rules.specs.Keys as spec;

use bind_faults::{Fault, FaultKind, note_if};
use statement_trees::{Column, Constraint};
use syntax_trees::{Anchor, Ident};

fn is_not_null(constraint: Constraint) -> bool
    ensures { result ≡ spec.is_not_null constraint }
{
    match constraint {
        Constraint::NotNull => true,
        Constraint::PrimaryKey(_) => false,
    }
}

fn is_primary_key(constraint: Constraint) -> bool
    ensures { result ≡ spec.is_primary_key constraint }
{
    match constraint {
        Constraint::NotNull => false,
        Constraint::PrimaryKey(_) => true,
    }
}

/// Whether the constraints of a column say PRIMARY KEY.
pub fn is_key(column: &Column) -> bool
    ensures { result ≡ spec.is_key column.now }
{
    column
        .constraints
        .as_slice()
        .iter()
        .any(|constraint| is_primary_key(*constraint))
}

/// Whether the constraints of a column say NOT NULL.
pub fn takes_no_null(column: &Column) -> bool
    ensures { result ≡ list_any spec.is_not_null column.now.constraints }
{
    column
        .constraints
        .as_slice()
        .iter()
        .any(|constraint| is_not_null(*constraint))
}

fn note_duplicates(places: &[Anchor], least: &mut Option<Fault>)
    ensures { least.new ≡ noted least.old (map spec.duplicate places.now) }
{
    for place in places {
        note_if(true, FaultKind::DuplicateName, *place, least);
    }
}

/// A table has a primary key, and not a second one.
pub fn note_keys(ident: &Ident, places: &[Anchor], least: &mut Option<Fault>)
    ensures { least.new ≡ noted least.old (spec.key_faults ident.now places.now) }
{
    match places {
        [] => note_if(true, FaultKind::NotPermitted, ident.anchor, least),
        [_, later @ ..] => note_duplicates(later, least),
    }
}
