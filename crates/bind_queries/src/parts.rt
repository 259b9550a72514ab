//! Names of expressions and of their parts, and the rows of VALUES (ISO/IEC 9075-2, 6.6, 7.3 and
//! 7.16).

ghost use Rattle.std.specs.Prelude.{◌≡◌, IfOk, OnOk, map, length};
ghost use Rattle.bind_faults.specs.Faults.{noted, taken};
ghost use Rattle.bind_sight.specs.Sight.{seen_by, stands_for, inside};
ghost use Rattle.syntax_trees.specs.Columns.{anchor_of_column};
ghost use Rattle.bind_parts.specs.From.{row_level};
ghost use Rattle.bind_parts.specs.Lists.{titled, with_output};
ghost use Rattle.bind_parts.specs.Typed.{named};
ghost use Rattle.bind_parts.specs.ValueRows.{row_faults, with_row};
ghost use Rattle.bind_queries.specs.Queries.{expression, value_row};
ghost use Rattle.bind_queries.specs.Selects.{with_grouping};
ghost use Rattle.bind_queries.specs.ValueRows as spec;

use bind_faults::{Fault, Notes};
use bind_kinds::Kind;
use bind_names::stands_for;
use bind_parts::{
    Opened, Operands, Outputs, RowClauses, Typed, TypedRows, add_output, add_row, ask_row,
    bind_found, bind_row_grouping,
};
use bind_sight::Sight;
use bound_trees::BoundExpr;
use sql_values::{Name, NoMemory};
use sqlite_items::Items;
use std::alloc::Global;
use syntax_trees::{Anchor, ColumnName, Expr, Ident, ValueRow};

/// A column, a variable or a parameter.
pub(crate) fn bind_name(
    column: &ColumnName,
    sight: &Sight<'_>,
    notes: &mut Notes,
) -> Result<Typed, NoMemory>
    ensures value { IfOk result (λ t. t ≡ (named (anchor_of_column column.now)
        (stands_for column.now (seen_by sight.now))).value) }
    ensures notes { OnOk result (notes.new ≡ taken notes.old
        (named (anchor_of_column column.now) (stands_for column.now (seen_by sight.now)))) }
{
    let found = stands_for(column, sight)?;
    Ok(bind_found(column.anchor(), found, notes))
}

// The name that an expression has by itself.
fn own_name(expr: &Expr) -> Result<Option<Name>, NoMemory>
    ensures { IfOk result (λ n. n ≡ (expression expr.now).name) }
{
    match expr {
        Expr::Name(column) => Ok(Some(column.name.name.copied()?)),
        Expr::Literal(_, _) => Ok(None),
        Expr::Call(_, _) => Ok(None),
        Expr::Operation(_, _, _) => Ok(None),
        Expr::Aggregate(_, _, _) => Ok(None),
        Expr::Chain(_, _) => Ok(None),
        Expr::Subquery(_) => Ok(None),
        Expr::Exists(_, _) => Ok(None),
        Expr::InQuery(_, _, _, _) => Ok(None),
    }
}

// The name that is written, or its own.
fn title(alias: &Option<Ident>, expr: &Expr) -> Result<Option<Name>, NoMemory>
    ensures { IfOk result (λ n. n ≡ titled alias.now (expression expr.now).name) }
{
    match alias {
        Some(ident) => Ok(Some(ident.name.copied()?)),
        None => own_name(expr),
    }
}

/// One output column more, of the name that is written or of the expression's own.
pub(crate) fn add_titled(
    so: &mut Outputs,
    alias: &Option<Ident>,
    expr: &Expr,
    typed: Typed,
) -> Result<(), NoMemory>
    ensures { OnOk result (so.new ≡ with_output so.old (titled alias.now (expression expr.now).name)
        (record { value = typed; parts = so.old.parts })) }
{
    let name = title(alias, expr)?;
    add_output(so, name, typed)
}

/// The grouping columns, beside the conjuncts of WHERE, with the columns of FROM in sight.
pub fn bind_row_clauses(
    alloc: Global,
    conjuncts: Items<BoundExpr>,
    columns: &[ColumnName],
    opened: &Opened,
    outside: &Sight<'_>,
    notes: &mut Notes,
) -> Result<RowClauses, NoMemory>
    ensures value { IfOk result (λ r. r ≡ (with_grouping conjuncts columns.now
        (inside (row_level opened.now) (seen_by outside.now))).value) }
    ensures notes { OnOk result (notes.new ≡ taken notes.old (with_grouping conjuncts columns.now
        (inside (row_level opened.now) (seen_by outside.now)))) }
{
    let grouping = bind_row_grouping(alloc, columns, opened, outside, notes)?;
    Ok(RowClauses {
        conjuncts,
        grouping,
    })
}

/// A row after those above it, with what is asked of it.
pub(crate) fn put_row(
    at: Anchor,
    targets: &[Kind],
    row: Operands,
    so: &mut TypedRows,
    least: &mut Option<Fault>,
) -> Result<(), NoMemory>
    ensures value { OnOk result (so.new ≡ with_row so.old row) }
    ensures faults { OnOk result (least.new ≡ noted least.old
        (row_faults at targets.now so.old.kinds row.heads)) }
{
    ask_row(
        at,
        targets,
        so.kinds.as_slice(),
        row.heads.as_slice(),
        least,
    );
    add_row(so, row)
}

fn length_of(row: &ValueRow) -> usize
    ensures { result ≡ length (value_row row.now) }
{
    match row {
        ValueRow::Row(exprs) => exprs.len(),
    }
}

/// How many expressions the first row has.
pub(crate) fn width_of(rows: &[ValueRow]) -> usize
    ensures { result ≡ spec.width_of (map value_row rows.now) }
{
    match rows {
        [first, ..] => length_of(first),
        [] => 0,
    }
}
