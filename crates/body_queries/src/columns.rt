//! How many columns the rows of FROM have.

ghost use Rattle.std.specs.Prelude.{◌≡◌};
ghost use Rattle.catalog_store.specs.Widths.{width_in};

use bound_trees::{BoundFromItem, BoundSource};
use catalog_store::{Catalog, Object};
use plan_drafts::{columns_of, source_in};
use sql_values::Name;

/// How many columns the rows of all of FROM have (ISO/IEC 9075-2, 7.5).
pub(crate) fn from_columns(items: &[BoundFromItem], catalog: &Catalog) -> usize {
    let mut columns: usize = 0;
    for item in items {
        columns = columns.saturating_add(source_columns(source_in(item), catalog));
    }
    columns
}

/// How many columns stand from the last comma on with an item (7.10), where there are so many
/// before it.
pub(crate) fn joined_columns(before: usize, item: &BoundFromItem, catalog: &Catalog) -> usize {
    let own = source_columns(source_in(item), catalog);
    match item {
        BoundFromItem::Comma(_) => own,
        BoundFromItem::Cross(_) => before.saturating_add(own),
        BoundFromItem::Inner(_, _) => before.saturating_add(own),
        BoundFromItem::Left(_, _) => before.saturating_add(own),
    }
}

// How many columns a table or a derived table has.
fn source_columns(source: &BoundSource, catalog: &Catalog) -> usize {
    match source {
        BoundSource::Table(name) => table_columns(name, catalog),
        BoundSource::Derived(query) => columns_of(query.get()),
    }
}

// How many columns the table of a name has; 0 where there is no table.
fn table_columns(name: &Name, catalog: &Catalog) -> usize
    ensures { result ≡ width_in catalog.now name.now }
{
    match catalog.get(name) {
        Some(Object::Table(row_type)) => row_type.columns.len(),
        Some(Object::Function(_)) => 0,
        Some(Object::Interpreted(_)) => 0,
        Some(Object::Procedure(_)) => 0,
        None => 0,
    }
}
