//! Grouping columns (ISO/IEC 9075-2, 7.13).

ghost use Rattle.std.specs.Prelude.{◌≡◌, IfOk};
ghost use Rattle.bind_sight.specs.Sight as spec;

use crate::sight::Referent;
use sql_values::{Name, NoMemory};

/// What GROUP BY names (ISO/IEC 9075-2, 7.13).
#[derive(Drop)]
pub enum GroupingKey {
    /// The column of this place in the query's row.
    Own(usize),
    /// The column of this name of an item that is not known, by the item's place among those of
    /// FROM.
    Guessed(usize, Name),
    /// No column of the query itself: one of an outer query, a variable or a parameter.
    Other,
}

/// What GROUP BY names by a name that stands for this.
pub fn key_of(found: Referent, name: &Name) -> Result<GroupingKey, NoMemory>
    ensures { IfOk result (λ k. k ≡ spec.key_of found name.now) }
{
    match found {
        Referent::Column(0, place, _) => Ok(GroupingKey::Own(place)),
        Referent::Guessed(0, item) => Ok(GroupingKey::Guessed(item, name.copied()?)),
        Referent::Column(_, _, _) | Referent::Guessed(_, _) => Ok(GroupingKey::Other),
        Referent::Variable(_, _) | Referent::Barred | Referent::Several | Referent::Unknown => Ok(
            GroupingKey::Other,
        ),
    }
}
