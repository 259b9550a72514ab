//! The names in sight.

ghost use Rattle.std.specs.Prelude.{◌≡◌, ◌∷◌, IfOk, map};
ghost use Rattle.bind_sight.specs.Sight.{level_by};

use crate::item::Item;
use crate::key::GroupingKey;
use crate::scope::{EnclosingRoutine, ScopeRef};
use bind_kinds::Kind;
use catalog_store::Catalog;
use sql_values::NoMemory;
use std::alloc::Global;

/// What a query brings in sight: items of its FROM, and the place in its row at which the first of
/// them begins. In the list and in HAVING of a grouped query only its grouping columns are in
/// sight, and aggregates may stand, but not in VALUES there.
#[derive(Clone, Copy)]
pub struct Level<'a> {
    pub items: &'a [Item],
    pub base: usize,
    pub keys: &'a [GroupingKey],
    /// Whether only the grouping columns are in sight.
    pub grouped: bool,
    /// Whether aggregates may stand.
    pub aggregates: bool,
}

/// What is in sight of an expression: the queries and the scopes around it, the innermost first,
/// the catalog, and the routine in whose body it stands.
#[derive(Clone, Copy)]
pub struct Sight<'a> {
    pub levels: &'a [Level<'a>],
    pub scopes: &'a [ScopeRef<'a>],
    pub catalog: &'a Catalog,
    pub own: &'a Option<EnclosingRoutine>,
    /// Whether it stands inside INSERT, UPDATE or DELETE.
    pub writing: bool,
}

/// What a name stands for.
#[derive(Clone, Copy)]
pub enum Referent {
    /// So many queries outwards, the column of this place, of this kind. In a group it is the place
    /// among the grouping columns.
    Column(usize, usize, Kind),
    /// So many queries outwards, a column of the item of this place, which is not known.
    Guessed(usize, usize),
    /// The variable, the parameter or the column of a FOR loop of this slot, of this kind.
    Variable(usize, Kind),
    /// A column of a grouped query that is no grouping column.
    Barred,
    /// Two columns.
    Several,
    Unknown,
}

/// The levels inside a query.
pub fn entered<'a>(
    alloc: Global,
    inner: Level<'a>,
    outside: &'a [Level<'a>],
) -> Result<Vec<Level<'a>>, NoMemory>
    ensures { IfOk result (λ ls. map level_by ls.items ≡ level_by inner.entry ∷
        map level_by outside.now) }
{
    let mut levels = Vec::new(alloc);
    levels.push(inner)?;
    for outer in outside {
        levels.push(*outer)?;
    }
    Ok(levels)
}
