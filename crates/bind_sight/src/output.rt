//! Columns of a row, and how often a name stands among them.

ghost use Rattle.std.specs.Prelude.{◌≡◌, IfOk};
ghost use Rattle.bind_sight.specs.Columns as spec;

use bind_kinds::Kind;
use sql_values::{Name, NoMemory};

/// A column of a table or a query, with its kind. A column of a query may have no name.
#[derive(Drop)]
pub struct Output {
    pub name: Option<Name>,
    pub kind: Kind,
}

/// How often a name stands among columns: the place and the kind of the one.
#[derive(Clone, Copy)]
pub enum Hit {
    Nowhere,
    Once(usize, Kind),
    Twice,
}

/// One column more of the name.
pub(crate) fn once_more(hit: Hit, place: usize, kind: Kind) -> Hit
    ensures { result ≡ spec.once_more hit place kind }
{
    match hit {
        Hit::Nowhere => Hit::Once(place, kind),
        Hit::Once(_, _) | Hit::Twice => Hit::Twice,
    }
}

/// What an index says of a name.
pub(crate) fn known(found: Option<Hit>) -> Hit
    ensures { result ≡ spec.known found }
{
    match found {
        Some(hit) => hit,
        None => Hit::Nowhere,
    }
}

/// A copy of a column's name.
pub fn copied(name: &Option<Name>) -> Result<Option<Name>, NoMemory>
    ensures { IfOk result (λ n. n ≡ name.now) }
{
    match name {
        Some(own) => Ok(Some(own.copied()?)),
        None => Ok(None),
    }
}
