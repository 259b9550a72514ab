//! The names of the functions that expressions and queries call.

use bound_trees::{
    BoundExpr, BoundFromItem, BoundGrouping, BoundLink, BoundQuery, BoundRow, BoundSelect,
    BoundSource,
};
use sql_values::{Name, NoMemory};

/// Those of an expression, after others.
#[cycle(calls)]
pub(crate) fn note_expr<'a>(
    expr: &'a BoundExpr,
    names: &mut Vec<&'a Name>,
) -> Result<(), NoMemory> {
    match expr {
        BoundExpr::Literal(_) => Ok(()),
        BoundExpr::Column(_, _) => Ok(()),
        BoundExpr::Variable(_) => Ok(()),
        BoundExpr::Operation(_, operands) => note_exprs(operands.as_slice(), names),
        BoundExpr::Chain(first, rest) => {
            note_expr(first.get(), names)?;
            note_links(rest.as_slice(), names)
        }
        BoundExpr::Call(name, arguments) => {
            names.push(name)?;
            note_exprs(arguments.as_slice(), names)
        }
        BoundExpr::Single(query) => note_query(query.get(), names),
        BoundExpr::Exists(query) => note_query(query.get(), names),
        BoundExpr::In(left, query) => {
            note_expr(left.get(), names)?;
            note_query(query.get(), names)
        }
    }
}

// Those of several expressions.
#[cycle(calls)]
fn note_exprs<'a>(exprs: &'a [BoundExpr], names: &mut Vec<&'a Name>) -> Result<(), NoMemory> {
    for expr in exprs {
        note_expr(expr, names)?;
    }
    Ok(())
}

// Those of the operands of a chain after its first.
#[cycle(calls)]
fn note_links<'a>(links: &'a [BoundLink], names: &mut Vec<&'a Name>) -> Result<(), NoMemory> {
    for link in links {
        note_expr(&link.operand, names)?;
    }
    Ok(())
}

/// Those of a query.
#[cycle(calls)]
pub(crate) fn note_query<'a>(
    query: &'a BoundQuery,
    names: &mut Vec<&'a Name>,
) -> Result<(), NoMemory> {
    match query {
        BoundQuery::Select(select) => note_select(select, names),
        BoundQuery::Values(rows) => note_rows(rows.as_slice(), names),
        BoundQuery::Ordered(query, _) => note_query(query.get(), names),
    }
}

// Those of rows of VALUES.
#[cycle(calls)]
fn note_rows<'a>(rows: &'a [BoundRow], names: &mut Vec<&'a Name>) -> Result<(), NoMemory> {
    for row in rows {
        match row {
            BoundRow::Row(values) => note_exprs(values.as_slice(), names)?,
        }
    }
    Ok(())
}

// Those of a query over FROM.
#[cycle(calls)]
fn note_select<'a>(select: &'a BoundSelect, names: &mut Vec<&'a Name>) -> Result<(), NoMemory> {
    note_from(select.from.as_slice(), names)?;
    note_exprs(select.conjuncts.as_slice(), names)?;
    match &select.grouping {
        Some(grouping) => note_grouping(grouping, names)?,
        None => {}
    }
    note_exprs(select.items.as_slice(), names)
}

// Those of groups and of HAVING.
#[cycle(calls)]
fn note_grouping<'a>(
    grouping: &'a BoundGrouping,
    names: &mut Vec<&'a Name>,
) -> Result<(), NoMemory> {
    note_exprs(grouping.parts.as_slice(), names)?;
    note_exprs(grouping.having.as_slice(), names)
}

// Those of FROM.
#[cycle(calls)]
fn note_from<'a>(items: &'a [BoundFromItem], names: &mut Vec<&'a Name>) -> Result<(), NoMemory> {
    for item in items {
        note_item(item, names)?;
    }
    Ok(())
}

// Those of an item of FROM and of its ON.
#[cycle(calls)]
fn note_item<'a>(item: &'a BoundFromItem, names: &mut Vec<&'a Name>) -> Result<(), NoMemory> {
    match item {
        BoundFromItem::Comma(source) => note_source(source, names),
        BoundFromItem::Cross(source) => note_source(source, names),
        BoundFromItem::Inner(source, on) => {
            note_source(source, names)?;
            note_exprs(on.as_slice(), names)
        }
        BoundFromItem::Left(source, on) => {
            note_source(source, names)?;
            note_exprs(on.as_slice(), names)
        }
    }
}

// Those of a derived table.
#[cycle(calls)]
fn note_source<'a>(source: &'a BoundSource, names: &mut Vec<&'a Name>) -> Result<(), NoMemory> {
    match source {
        BoundSource::Table(_) => Ok(()),
        BoundSource::Derived(query) => note_query(query.get(), names),
    }
}
