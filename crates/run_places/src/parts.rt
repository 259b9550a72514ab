//! What stands in a query, read.

ghost use Rattle.std.specs.Prelude.{◌≡◌};
ghost use Rattle.routine_views.specs.Views.{Known};
ghost use Rattle.catalog_store.specs.View.{itself};
ghost use Rattle.run_places.specs.Views.{exprs_in, row_in, item_in, source_in};

use bound_trees::{BoundExpr, BoundFromItem, BoundRow, BoundSource};

/// The values of a row of VALUES (ISO/IEC 9075-2, 7.3).
pub fn values_in(row: &BoundRow) -> &[BoundExpr]
    ensures { (known : Known) → exprs_in known result.now ≡ row_in known row.now }
{
    match row {
        BoundRow::Row(values) => values.as_slice(),
    }
}

/// Where the rows of an item of FROM (7.6) come from.
pub fn item_source(item: &BoundFromItem) -> &BoundSource
    ensures { (known : Known) → source_in known result.now ≡ itself (item_in known item.now) }
{
    match item {
        BoundFromItem::Comma(source) => source,
        BoundFromItem::Cross(source) => source,
        BoundFromItem::Inner(source, _) => source,
        BoundFromItem::Left(source, _) => source,
    }
}
