//! How often a name stands among the items of FROM, and which of them hide others.

ghost use Rattle.std.specs.Prelude.{◌≡◌, IfOk};
ghost use Rattle.std.specs.List.{list_any};
ghost use Rattle.bind_sight.specs.Sight as spec;

use crate::hits::{moved, or_else, place_in_row, same, together};
use bind_sight::{Hit, Item, ItemList};
use sql_values::{Name, NoMemory};
use sqlite_items::Boxed;
use syntax_trees::{ColumnName, Ident};

fn is_meant(qualifier: &Option<Boxed<Ident>>, item: &Item) -> bool
    ensures { result ≡ spec.is_meant qualifier.now item.now }
{
    match qualifier {
        Some(wanted) => same(&item.name, &wanted.get().name),
        None => true,
    }
}

// A name in one item, by its places in the row of a level that begins at a column.
fn hit_of(name: &Name, item: &Item, base: usize) -> Result<Hit, NoMemory>
    ensures { IfOk result (λ h. h ≡ spec.hit_of name.now base item.now) }
{
    moved(item.columns.find(name), place_in_row(item.first, base))
}

// Two hits of a name.
fn joined(qualified: bool, first: Hit, second: Hit) -> Hit
    ensures { result ≡ spec.joined qualified first second }
{
    if qualified {
        or_else(first, second)
    } else {
        together(first, second)
    }
}

fn one_more(wanted: &ColumnName, item: &Item, base: usize, hit: Hit) -> Result<Hit, NoMemory>
    ensures { IfOk result (λ h. h ≡ spec.one_more wanted.now base hit item.now) }
{
    if is_meant(&wanted.qualifier, item) {
        let more = hit_of(&wanted.name.name, item, base)?;
        Ok(joined(wanted.qualifier.is_some(), hit, more))
    } else {
        Ok(hit)
    }
}

/// How often a name stands among the items of a level that begins at a column. With an item's name
/// before it, it is sought in the first item of that name that has it.
pub(crate) fn among(wanted: &ColumnName, items: &[Item], base: usize) -> Result<Hit, NoMemory>
    ensures { IfOk result (λ h. h ≡ spec.among wanted.now base items.now) }
{
    let mut hit = Hit::Nowhere;
    for item in items {
        hit = one_more(wanted, item, base, hit)?;
    }
    Ok(hit)
}

fn is_unknown(qualifier: &Option<Boxed<Ident>>, item: &Item) -> bool
    ensures { result ≡ spec.is_unknown qualifier.now item.now }
{
    !item.known && is_meant(qualifier, item)
}

/// The place of the first item that may have the column because it is not known.
pub(crate) fn unknown_item(qualifier: &Option<Boxed<Ident>>, items: &[Item]) -> Option<usize>
    ensures { result ≡ spec.unknown_item qualifier.now items.now }
{
    items.iter().position(|item| is_unknown(qualifier, item))
}

fn any_unknown(qualifier: &Option<Boxed<Ident>>, items: &[Item]) -> bool
    ensures { result ≡ spec.any_unknown qualifier.now items.now }
{
    items.iter().any(|item| is_unknown(qualifier, item))
}

fn any_meant(qualifier: &Option<Boxed<Ident>>, items: &[Item]) -> bool
    ensures { result ≡ list_any (spec.is_meant qualifier.now) items.now }
{
    items.iter().any(|item| is_meant(qualifier, item))
}

/// Whether known items of the name that is written before the column hide those further outwards.
pub(crate) fn hides(qualifier: &Option<Boxed<Ident>>, items: &[Item]) -> bool
    ensures { result ≡ spec.hides qualifier.now items.now }
{
    let named = qualifier.is_some() && any_meant(qualifier, items);
    named && !any_unknown(qualifier, items)
}

/// Whether an item has a name.
pub fn any_named(name: &Name, items: &ItemList) -> bool
    ensures { result ≡ list_any (spec.is_named name.now) items.now }
{
    items.has_name(name)
}
