//! Nodes of statements, made of what was read.

ghost use Rattle.std.specs.Prelude.{◌≡◌, IfOk};
ghost use Rattle.grammar_sql.specs.Declarations as declarations;
ghost use Rattle.grammar_sql.specs.Statements as statements;
ghost use Rattle.grammar_sql.specs.Writing as writing;

use crate::lists::with_first;
use sqlite_items::Items;
use statement_trees::{
    Assignment, Branch, Case, Declaration, Fetch, If, Insert, SelectInto, Stmt, Update,
    VariableDeclaration,
};
use std::alloc::{AllocError, Global};
use syntax_trees::{Anchor, ColumnName, DataType, Expr, FromItem, Ident, Query, SelectItem};

/// INSERT with its table, the columns that are listed, and the query whose rows are put in. It
/// reads nothing.
pub fn insert_of(anchor: Anchor, insertion: (Ident, (Items<Ident>, Query))) -> Insert
    ensures { result ≡ writing.insert_of (anchor, insertion) }
{
    let (table, (columns, source)) = insertion;
    Insert {
        anchor,
        table,
        columns,
        source,
    }
}

/// UPDATE with its table, and then its assignments and the condition of WHERE if there is one. It
/// reads nothing.
pub fn update_of(anchor: Anchor, table: Ident, changes: (Items<Assignment>, Option<Expr>)) -> Update
    ensures { result ≡ writing.update_of (anchor, (table, changes)) }
{
    let (assignments, filter) = changes;
    Update {
        anchor,
        table,
        assignments,
        filter,
    }
}

/// A declaration of variables: the first name, and then the other names, the type and the default
/// if there is one. It reads nothing.
pub fn variables_of(
    alloc: Global,
    name: Ident,
    variables: (Items<Ident>, (DataType, Option<Expr>)),
) -> Result<Declaration, AllocError>
    ensures { IfOk result (λ d. d ≡ declarations.variables_of variables name) }
{
    let (more, (data_type, default)) = variables;
    let names = with_first(alloc, name, more)?;
    Ok(Declaration::Variables(VariableDeclaration {
        names,
        data_type,
        default,
    }))
}

/// FETCH with its cursor and its targets. It reads nothing.
pub fn fetch_of(anchor: Anchor, cursor: Ident, targets: Items<Ident>) -> Fetch
    ensures { result ≡ statements.fetch_of (anchor, (cursor, targets)) }
{
    Fetch {
        anchor,
        cursor,
        targets,
    }
}

/// SELECT INTO with its parts: the targets, the items of FROM, the condition of WHERE, the columns
/// of GROUP BY, and the condition of HAVING stand last. It reads nothing.
pub fn selected_into(
    anchor: Anchor,
    items: Items<SelectItem>,
    parts: (
        Items<Ident>,
        (
            Items<FromItem>,
            (Option<Expr>, (Items<ColumnName>, Option<Expr>)),
        ),
    ),
) -> SelectInto
    ensures { result ≡ statements.select_into_of (anchor, (items, parts)) }
{
    let (targets, (from, (filter, (group_by, having)))) = parts;
    SelectInto {
        anchor,
        items,
        targets,
        from,
        filter,
        group_by,
        having,
    }
}

/// CASE with its operand if there is one, its branches, and the statements of ELSE, of which there
/// are none where it is left out. It reads nothing.
pub fn case_of(parts: (Anchor, (Option<Expr>, (Items<Branch>, Items<Stmt>)))) -> Case
    ensures { result ≡ statements.case_of parts }
{
    let (anchor, (operand, (branches, otherwise))) = parts;
    Case {
        anchor,
        operand,
        branches,
        otherwise,
    }
}

/// IF with its branches, and the statements of ELSE, of which there are none where it is left out.
/// It reads nothing.
pub fn if_of(parts: (Anchor, (Items<Branch>, Items<Stmt>))) -> If
    ensures { result ≡ statements.if_of parts }
{
    let (anchor, (branches, otherwise)) = parts;
    If {
        anchor,
        branches,
        otherwise,
    }
}
