//! Nodes of queries, made of what was read.

ghost use Rattle.std.specs.Prelude.{◌≡◌, IfOk};
ghost use Rattle.syntax_trees.specs.declared.query.FromItem.TheVariants as items;
ghost use Rattle.syntax_trees.specs.declared.query.TableRef.TheVariants as tables;
ghost use Rattle.grammar_sql.specs.Queries as queries;

use sqlite_items::{Boxed, Items};
use std::alloc::{AllocError, Global};
use syntax_trees::{
    Anchor, ColumnName, Expr, FromItem, Ident, Query, Select, SelectItem, TableRef,
};

/// A derived table, with its name and the names of its columns. It reads nothing.
pub fn derived(
    alloc: Global,
    query: Query,
    naming: (Ident, Items<Ident>),
) -> Result<TableRef, AllocError>
    ensures { IfOk result (λ t. t ≡ tables.Derived query naming.0 naming.1) }
{
    let query = Boxed::new(alloc, query)?;
    Ok(TableRef::Derived(query, naming.0, naming.1))
}

/// An item of FROM that LEFT JOIN joins, with the condition of ON. It reads nothing.
pub fn left_joined(joined: (TableRef, Expr)) -> FromItem
    ensures { result ≡ items.Left joined.0 joined.1 }
{
    FromItem::Left(joined.0, joined.1)
}

/// An item of FROM that JOIN or INNER JOIN joins, with the condition of ON. It reads nothing.
pub fn inner_joined(joined: (TableRef, Expr)) -> FromItem
    ensures { result ≡ items.Inner joined.0 joined.1 }
{
    FromItem::Inner(joined.0, joined.1)
}

/// SELECT with its parts: the items of FROM, the condition of WHERE, the columns of GROUP BY, and
/// the condition of HAVING stand last. It reads nothing.
pub fn selected(
    anchor: Anchor,
    items: Items<SelectItem>,
    tables: (
        Items<FromItem>,
        (Option<Expr>, (Items<ColumnName>, Option<Expr>)),
    ),
) -> Select
    ensures { result ≡ queries.select_of (anchor, (items, tables)) }
{
    let (from, (filter, (group_by, having))) = tables;
    Select {
        anchor,
        items,
        from,
        filter,
        group_by,
        having,
    }
}
