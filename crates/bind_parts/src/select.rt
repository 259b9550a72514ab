//! A query over what FROM brings in sight (ISO/IEC 9075-2, 7.13, 7.14 and 7.16).

ghost use Rattle.std.specs.Prelude.{◌≡◌};
ghost use Rattle.bind_parts.specs.Selects as spec;

use crate::aggregates::Parts;
use crate::grouping::Grouping;
use crate::list::Outputs;
use crate::typed::TypedQuery;
use bound_trees::{BoundExpr, BoundFromItem, BoundGrouping, BoundQuery, BoundSelect};
use sqlite_items::Items;
use syntax_trees::Anchor;

/// The condition of WHERE and the grouping columns of a SELECT.
#[derive(Drop)]
pub struct RowClauses {
    pub conjuncts: Items<BoundExpr>,
    pub grouping: Grouping,
}

/// The list and HAVING of a SELECT.
#[derive(Drop)]
pub struct ListClauses {
    pub outputs: Outputs,
    pub having: Items<BoundExpr>,
}

// Of a query that is not grouped there is none.
fn grouping_bound(
    grouped: bool,
    keys: usize,
    parts: Parts,
    having: Items<BoundExpr>,
) -> Option<BoundGrouping>
    ensures { result ≡ spec.grouping_bound grouped keys parts having }
{
    if grouped {
        Some(BoundGrouping {
            keys,
            parts: parts.trees,
            aggregates: parts.aggregates,
            having,
        })
    } else {
        None
    }
}

/// A query over what FROM brings in sight, or over its groups.
pub fn select_typed(
    at: Anchor,
    from: Items<BoundFromItem>,
    conjuncts: Items<BoundExpr>,
    grouped: bool,
    keys: usize,
    list: ListClauses,
) -> TypedQuery
    ensures { result ≡ spec.select_typed at from conjuncts grouped keys list }
{
    let ListClauses { outputs, having } = list;
    let grouping = grouping_bound(grouped, keys, outputs.parts, having);
    TypedQuery {
        at,
        columns: outputs.columns,
        tree: BoundQuery::Select(BoundSelect {
            items: outputs.trees,
            from,
            conjuncts,
            grouping,
        }),
    }
}
