//! The names of the functions that expressions and queries call.

ghost use Rattle.std.specs.Prelude.{◌≡◌, ◌++◌, map, OnOk};
ghost use Rattle.std.specs.Option.{option_map};
ghost use Rattle.catalog_store.specs.Uses as uses;
ghost use Rattle.called_names.specs.Called.{called, held};

use bound_trees::{
    BoundExpr, BoundFromItem, BoundGrouping, BoundLink, BoundQuery, BoundRow, BoundSelect,
    BoundSource,
};
use sql_values::{Name, NoMemory};

/// Notes the names of the functions that an expression calls, after others (ISO/IEC 9075-2, 10.4):
/// in the order of the text, each as often as it is called. It can fail for want of memory alone.
#[cycle(calls)]
pub fn note_expr<'a>(expr: &'a BoundExpr, names: &mut Vec<&'a Name>) -> Result<(), NoMemory>
    ensures { OnOk result (held names.new.items ≡ held names.old.items ++
        called (uses.uses_in expr.now)) }
{
    match expr {
        BoundExpr::Literal(_) => Ok(()),
        BoundExpr::Column(_, _) => Ok(()),
        BoundExpr::Variable(_) => Ok(()),
        BoundExpr::Operation(_, operands) => note_exprs(operands.as_slice(), names),
        BoundExpr::Chain(first, rest) => {
            note_expr(first.get(), names)?;
            note_links(rest.as_slice(), names)
        }
        BoundExpr::Call(name, arguments) => {
            names.push(name)?;
            note_exprs(arguments.as_slice(), names)
        }
        BoundExpr::Single(query) => note_query(query.get(), names),
        BoundExpr::Exists(query) => note_query(query.get(), names),
        BoundExpr::In(left, query) => {
            note_expr(left.get(), names)?;
            note_query(query.get(), names)
        }
    }
}

// Those of several expressions.
#[cycle(calls)]
fn note_exprs<'a>(exprs: &'a [BoundExpr], names: &mut Vec<&'a Name>) -> Result<(), NoMemory>
    ensures { OnOk result (held names.new.items ≡ held names.old.items ++
        called (uses.joined (map uses.uses_in exprs.now))) }
{
    for expr in exprs {
        note_expr(expr, names)?;
    }
    Ok(())
}

// Those of the operands of a chain after its first.
#[cycle(calls)]
fn note_links<'a>(links: &'a [BoundLink], names: &mut Vec<&'a Name>) -> Result<(), NoMemory>
    ensures { OnOk result (held names.new.items ≡ held names.old.items ++
        called (uses.joined (map uses.uses_in_link links.now))) }
{
    for link in links {
        note_expr(&link.operand, names)?;
    }
    Ok(())
}

/// The same of a query.
#[cycle(calls)]
pub fn note_query<'a>(query: &'a BoundQuery, names: &mut Vec<&'a Name>) -> Result<(), NoMemory>
    ensures { OnOk result (held names.new.items ≡ held names.old.items ++
        called (uses.uses_in_query query.now)) }
{
    match query {
        BoundQuery::Select(select) => note_select(select, names),
        BoundQuery::Values(rows) => note_rows(rows.as_slice(), names),
        BoundQuery::Ordered(query, _) => note_query(query.get(), names),
    }
}

// Those of rows of VALUES.
#[cycle(calls)]
fn note_rows<'a>(rows: &'a [BoundRow], names: &mut Vec<&'a Name>) -> Result<(), NoMemory>
    ensures { OnOk result (held names.new.items ≡ held names.old.items ++
        called (uses.joined (map uses.uses_in_row rows.now))) }
{
    for row in rows {
        note_row(row, names)?;
    }
    Ok(())
}

// Those of a row of VALUES.
#[cycle(calls)]
fn note_row<'a>(row: &'a BoundRow, names: &mut Vec<&'a Name>) -> Result<(), NoMemory>
    ensures { OnOk result (held names.new.items ≡ held names.old.items ++
        called (uses.uses_in_row row.now)) }
{
    match row {
        BoundRow::Row(values) => note_exprs(values.as_slice(), names),
    }
}

// Those of a query over FROM.
#[cycle(calls)]
fn note_select<'a>(select: &'a BoundSelect, names: &mut Vec<&'a Name>) -> Result<(), NoMemory>
    ensures { OnOk result (held names.new.items ≡ held names.old.items ++
        called (uses.uses_in_select select.now)) }
{
    note_items(select.from.as_slice(), names)?;
    note_exprs(select.conjuncts.as_slice(), names)?;
    note_groups(&select.grouping, names)?;
    note_exprs(select.items.as_slice(), names)
}

// Those of groups and of HAVING, where there are any.
#[cycle(calls)]
fn note_groups<'a>(
    grouping: &'a Option<BoundGrouping>,
    names: &mut Vec<&'a Name>,
) -> Result<(), NoMemory>
    ensures { OnOk result (held names.new.items ≡ held names.old.items ++
        called (uses.if_grouped (option_map uses.uses_in_grouping grouping.now))) }
{
    match grouping {
        Some(grouping) => note_grouping(grouping, names),
        None => Ok(()),
    }
}

// Those of groups and of HAVING.
#[cycle(calls)]
fn note_grouping<'a>(grouping: &'a BoundGrouping, names: &mut Vec<&'a Name>) -> Result<(), NoMemory>
    ensures { OnOk result (held names.new.items ≡ held names.old.items ++
        called (uses.uses_in_grouping grouping.now)) }
{
    note_exprs(grouping.parts.as_slice(), names)?;
    note_exprs(grouping.having.as_slice(), names)
}

// Those of FROM.
#[cycle(calls)]
fn note_items<'a>(items: &'a [BoundFromItem], names: &mut Vec<&'a Name>) -> Result<(), NoMemory>
    ensures { OnOk result (held names.new.items ≡ held names.old.items ++
        called (uses.joined (map uses.uses_in_item items.now))) }
{
    for item in items {
        note_item(item, names)?;
    }
    Ok(())
}

// Those of an item of FROM and of its ON.
#[cycle(calls)]
fn note_item<'a>(item: &'a BoundFromItem, names: &mut Vec<&'a Name>) -> Result<(), NoMemory>
    ensures { OnOk result (held names.new.items ≡ held names.old.items ++
        called (uses.uses_in_item item.now)) }
{
    match item {
        BoundFromItem::Comma(source) => note_source(source, names),
        BoundFromItem::Cross(source) => note_source(source, names),
        BoundFromItem::Inner(source, on) => {
            note_source(source, names)?;
            note_exprs(on.as_slice(), names)
        }
        BoundFromItem::Left(source, on) => {
            note_source(source, names)?;
            note_exprs(on.as_slice(), names)
        }
    }
}

// Those of a derived table.
#[cycle(calls)]
fn note_source<'a>(source: &'a BoundSource, names: &mut Vec<&'a Name>) -> Result<(), NoMemory>
    ensures { OnOk result (held names.new.items ≡ held names.old.items ++
        called (uses.uses_in_source source.now)) }
{
    match source {
        BoundSource::Table(_) => Ok(()),
        BoundSource::Derived(query) => note_query(query.get(), names),
    }
}
