//! What stands in a query, read.

ghost use Rattle.std.specs.Prelude.{◌≡◌};
ghost use Rattle.catalog_store.specs.Catalog.{Catalog as Known};
ghost use Rattle.catalog_store.specs.View.{exprs_of, row_of, item_of, source_of, itself};

use bound_trees::{BoundExpr, BoundFromItem, BoundRow, BoundSource};

/// The values of a row of VALUES (ISO/IEC 9075-2, 7.3).
pub fn values_in(row: &BoundRow) -> &[BoundExpr]
    ensures { (known : Known) → exprs_of known result.now ≡ row_of known row.now }
{
    match row {
        BoundRow::Row(values) => values.as_slice(),
    }
}

/// Where the rows of an item of FROM (7.6) come from.
pub fn item_source(item: &BoundFromItem) -> &BoundSource
    ensures { (known : Known) → source_of known result.now ≡ itself (item_of known item.now) }
{
    match item {
        BoundFromItem::Comma(source) => source,
        BoundFromItem::Cross(source) => source,
        BoundFromItem::Inner(source, _) => source,
        BoundFromItem::Left(source, _) => source,
    }
}
