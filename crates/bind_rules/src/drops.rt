//! What DROP refuses (ISO/IEC 9075-2, 11.31 and 11.62).

ghost use Rattle.std.specs.Prelude.{◌≡◌};
ghost use Rattle.bind_faults.specs.Faults.{noted};
ghost use Rattle.bind_rules.specs.Drops as spec;

use bind_faults::{Fault, FaultKind, note_if};
use statement_trees::ObjectSort;
use syntax_trees::Ident;

/// DROP TABLE.
pub fn is_table(sort: ObjectSort) -> bool
    ensures { result ≡ spec.is_table sort }
{
    match sort {
        ObjectSort::Table => true,
        ObjectSort::Function | ObjectSort::Procedure => false,
    }
}

/// DROP FUNCTION.
pub fn is_function(sort: ObjectSort) -> bool
    ensures { result ≡ spec.is_function sort }
{
    match sort {
        ObjectSort::Function => true,
        ObjectSort::Table | ObjectSort::Procedure => false,
    }
}

/// DROP PROCEDURE.
pub fn is_procedure(sort: ObjectSort) -> bool
    ensures { result ≡ spec.is_procedure sort }
{
    match sort {
        ObjectSort::Procedure => true,
        ObjectSort::Table | ObjectSort::Function => false,
    }
}

/// What is dropped: no thing of the sort has the name, or other entries use it.
pub fn note_removal(ident: &Ident, stands: bool, users: usize, least: &mut Option<Fault>)
    ensures { least.new ≡ noted least.old (spec.drop_faults ident.now stands users) }
{
    if stands {
        note_if(users != 0, FaultKind::NotPermitted, ident.anchor, least);
    } else {
        note_if(true, FaultKind::UnknownName, ident.anchor, least);
    }
}
