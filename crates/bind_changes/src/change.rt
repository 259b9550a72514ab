//! UPDATE and DELETE (ISO/IEC 9075-2, 14.9, 14.14 and 14.15): each is bound to a query of the rows
//! that it meets.

ghost use Rattle.std.specs.Prelude.{◌≡◌, ◌++◌, [], map, IfOk, OnOk};
ghost use Rattle.bind_faults.specs.Faults.{noted, taken};
ghost use Rattle.bind_sight.specs.Sight.{seen_by};
ghost use Rattle.bind_queries.specs.Lists.{judged_test};
ghost use Rattle.bind_queries.specs.Names.{inner};
ghost use Rattle.bind_rules.specs.Names.{places_in as assigned_places};
ghost use Rattle.bind_changes.specs.Writing.{update_in, update_over, judged_update, delete_over};
ghost use Rattle.bind_changes.specs.Writing.{judged_delete};
ghost use Rattle.bind_changes.specs.Writing as spec;

use crate::target::{Target, kind_named, note_columns, target_of};
use bind_faults::{Fault, Notes};
use bind_parts::{Opened, bind_table, nothing_open, put_comma, row_level, table_named};
use bind_queries::bind_expr;
use bind_rules::{copied, inside_writing, note_assigned, note_where, places_in};
use bind_sight::{Sight, entered};
use bind_words::conjuncts;
use bound_trees::{
    BoundDelete, BoundExpr, BoundFromItem, BoundQuery, BoundSelect, BoundSource, BoundUpdate,
};
use sql_values::{Name, NoMemory};
use sqlite_items::Items;
use statement_trees::{Assignment, Delete, Update};
use std::alloc::Global;
use std::mem::drop;
use syntax_trees::{Expr, Ident};

// The table in sight, under its own name.
fn opened(
    alloc: Global,
    table: &Ident,
    outside: &Sight<'_>,
    notes: &mut Notes,
) -> Result<Opened, NoMemory>
    ensures value { IfOk result (λ so. so ≡ (spec.opened table.now (seen_by outside.now)).value) }
    ensures notes { OnOk result (notes.new ≡ taken notes.old
        (spec.opened table.now (seen_by outside.now))) }
{
    let sourced = bind_table(alloc, table, &None, outside, notes)?;
    let mut so = nothing_open(alloc);
    put_comma(&mut so, sourced, notes)?;
    Ok(so)
}

// The conjuncts of a test.
fn bind_test(
    alloc: Global,
    condition: &Expr,
    sight: &Sight<'_>,
    notes: &mut Notes,
) -> Result<Items<BoundExpr>, NoMemory>
    ensures value { IfOk result (λ es. es ≡ (judged_test (inner condition.now) (seen_by sight.now)).value) }
    ensures notes { OnOk result (notes.new ≡ taken notes.old
        (judged_test (inner condition.now) (seen_by sight.now))) }
{
    let typed = bind_expr(alloc, condition, sight, notes)?;
    note_where(typed.head, &mut notes.least);
    conjuncts(alloc, typed.tree)
}

// The conjuncts of WHERE.
fn bind_where(
    alloc: Global,
    filter: &Option<Expr>,
    sight: &Sight<'_>,
    notes: &mut Notes,
) -> Result<Items<BoundExpr>, NoMemory>
    ensures value { IfOk result (λ es. es ≡ (spec.judged_where filter.now (seen_by sight.now)).value) }
    ensures notes { OnOk result (notes.new ≡ taken notes.old
        (spec.judged_where filter.now (seen_by sight.now))) }
{
    match filter {
        Some(condition) => bind_test(alloc, condition, sight, notes),
        None => Ok(Items::new(alloc)),
    }
}

// All columns of a row of so many.
fn row_columns(alloc: Global, width: usize) -> Result<Items<BoundExpr>, NoMemory>
    ensures { IfOk result (λ es. es ≡ spec.columns_from 0 width) }
{
    let mut items = Items::new(alloc);
    for place in 0..width {
        items.push(BoundExpr::Column(0, place))?;
    }
    Ok(items)
}

// A table as the only item of FROM.
fn from_table(alloc: Global, table: &Name) -> Result<Items<BoundFromItem>, NoMemory>
    ensures { IfOk result (λ from. from ≡ spec.from_table table.now) }
{
    let name = table.copied()?;
    let mut from = Items::new(alloc);
    from.push(BoundFromItem::Comma(BoundSource::Table(name)))?;
    Ok(from)
}

// Items with values after them. `drop` lets go of the items in a call.
fn joined(items: Items<BoundExpr>, values: Items<BoundExpr>) -> Result<Items<BoundExpr>, NoMemory>
    ensures { IfOk result (λ es. es ≡ items ++ values) }
{
    let mut items = items;
    match items.append(values) {
        Ok(()) => Ok(items),
        Err(_) => {
            drop(items);
            Err(NoMemory)
        }
    }
}

// All columns of a row, with values after them. `drop` lets go of the values in a call.
fn with_values(
    alloc: Global,
    width: usize,
    values: Items<BoundExpr>,
) -> Result<Items<BoundExpr>, NoMemory>
    ensures { IfOk result (λ es. es ≡ spec.columns_from 0 width ++ values) }
{
    match row_columns(alloc, width) {
        Ok(items) => joined(items, values),
        Err(NoMemory) => {
            drop(values);
            Err(NoMemory)
        }
    }
}

// The rows of a table that pass the conjuncts, by these items. `drop` lets go of both in calls.
fn met_of(
    alloc: Global,
    table: &Name,
    items: Items<BoundExpr>,
    conjuncts: Items<BoundExpr>,
) -> Result<BoundQuery, NoMemory>
    ensures { IfOk result (λ q. q ≡ spec.met_of table.now items conjuncts) }
{
    match from_table(alloc, table) {
        Ok(from) => Ok(BoundQuery::Select(BoundSelect {
            items,
            from,
            conjuncts,
            grouping: None,
        })),
        Err(NoMemory) => {
            drop(items);
            drop(conjuncts);
            Err(NoMemory)
        }
    }
}

// The rows of a table that pass the conjuncts. `drop` lets go of the conjuncts in a call.
fn met_alone(
    alloc: Global,
    table: &Name,
    width: usize,
    conjuncts: Items<BoundExpr>,
) -> Result<BoundQuery, NoMemory>
    ensures { IfOk result (λ q. q ≡ spec.met_query table.now width [] conjuncts) }
{
    match row_columns(alloc, width) {
        Ok(items) => met_of(alloc, table, items, conjuncts),
        Err(NoMemory) => {
            drop(conjuncts);
            Err(NoMemory)
        }
    }
}

// A value, of the kind of its column.
fn bind_value(
    alloc: Global,
    assignment: &Assignment,
    target: &Target,
    sight: &Sight<'_>,
    notes: &mut Notes,
) -> Result<BoundExpr, NoMemory>
    ensures value { IfOk result
        (λ e. e ≡ (spec.judged_value target.now (seen_by sight.now) assignment.now).value) }
    ensures notes { OnOk result (notes.new ≡ taken notes.old
        (spec.judged_value target.now (seen_by sight.now) assignment.now)) }
{
    let kind = kind_named(target, &assignment.target);
    let typed = bind_expr(alloc, &assignment.value, sight, notes)?;
    note_assigned(kind, typed.head, &mut notes.least);
    Ok(typed.tree)
}

// One value more.
fn add_value(
    alloc: Global,
    assignment: &Assignment,
    target: &Target,
    sight: &Sight<'_>,
    values: &mut Items<BoundExpr>,
    notes: &mut Notes,
) -> Result<(), NoMemory>
    ensures value { OnOk result (values.new ≡
        (spec.one_value target.now (seen_by sight.now) values.old assignment.now).value) }
    ensures notes { OnOk result (notes.new ≡ taken notes.old
        (spec.one_value target.now (seen_by sight.now) values.old assignment.now)) }
{
    let value = bind_value(alloc, assignment, target, sight, notes)?;
    values.push(value)?;
    Ok(())
}

// The values, in the order in which they are written.
fn bind_values(
    alloc: Global,
    assignments: &[Assignment],
    target: &Target,
    sight: &Sight<'_>,
    notes: &mut Notes,
) -> Result<Items<BoundExpr>, NoMemory>
    ensures value { IfOk result
        (λ es. es ≡ (spec.judged_values target.now (seen_by sight.now) assignments.now).value) }
    ensures notes { OnOk result (notes.new ≡ taken notes.old
        (spec.judged_values target.now (seen_by sight.now) assignments.now)) }
{
    let mut values = Items::new(alloc);
    for assignment in assignments {
        add_value(alloc, assignment, target, sight, &mut values, notes)?;
    }
    Ok(values)
}

// The columns that are assigned.
fn assigned(alloc: Global, assignments: &[Assignment]) -> Result<Items<Ident>, NoMemory>
    ensures { IfOk result (λ is. is ≡ map (λ a. a.target) assignments.now) }
{
    let mut columns = Items::new(alloc);
    for assignment in assignments {
        columns.push(copied(&assignment.target)?)?;
    }
    Ok(columns)
}

// The items of the rows that are met: their columns, and the new values after them.
fn items_to_update(
    alloc: Global,
    update: &Update,
    target: &Target,
    sight: &Sight<'_>,
    notes: &mut Notes,
) -> Result<Items<BoundExpr>, NoMemory>
    ensures value { IfOk result (λ es. es ≡ spec.items_to_update update.now target.now
        (seen_by sight.now)) }
    ensures notes { OnOk result (notes.new ≡ taken notes.old
        (spec.judged_values target.now (seen_by sight.now) update.now.assignments)) }
{
    let values = bind_values(alloc, update.assignments.as_slice(), target, sight, notes)?;
    with_values(alloc, target.kinds.len(), values)
}

// The query of the rows that are met.
fn rows_to_update(
    alloc: Global,
    update: &Update,
    target: &Target,
    sight: &Sight<'_>,
    notes: &mut Notes,
) -> Result<BoundQuery, NoMemory>
    ensures value { IfOk result
        (λ q. q ≡ (spec.rows_to_update update.now target.now (seen_by sight.now)).value) }
    ensures notes { OnOk result (notes.new ≡ taken notes.old
        (spec.rows_to_update update.now target.now (seen_by sight.now))) }
{
    let items = items_to_update(alloc, update, target, sight, notes)?;
    let conjuncts = bind_where(alloc, &update.filter, sight, notes)?;
    let rows = met_of(alloc, &update.table.name, items, conjuncts)?;
    Ok(rows)
}

// The places of the columns that are assigned, with what is asked of these.
fn places_assigned(
    alloc: Global,
    update: &Update,
    target: &Target,
    least: &mut Option<Fault>,
) -> Result<Items<usize>, NoMemory>
    ensures value { IfOk result (λ places. places ≡ assigned_places target.now.names
        (spec.assigned update.now)) }
    ensures faults { OnOk result (least.new ≡ noted least.old
        (spec.target_faults target.now (spec.assigned update.now))) }
{
    let columns = assigned(alloc, update.assignments.as_slice())?;
    note_columns(alloc, target, columns.as_slice(), least)?;
    places_in(alloc, columns.as_slice(), &target.names)
}

// An UPDATE, with the row of its table in sight.
fn update_in(
    alloc: Global,
    update: &Update,
    target: &Target,
    sight: &Sight<'_>,
    notes: &mut Notes,
) -> Result<BoundUpdate, NoMemory>
    ensures value { IfOk result (λ b. b ≡ (update_in update.now target.now (seen_by sight.now)).value) }
    ensures notes { OnOk result (notes.new ≡ taken notes.old
        (update_in update.now target.now (seen_by sight.now))) }
{
    let table = update.table.name.copied()?;
    let targets = places_assigned(alloc, update, target, &mut notes.least)?;
    let rows = rows_to_update(alloc, update, target, sight, notes)?;
    Ok(BoundUpdate {
        table,
        targets,
        rows,
    })
}

fn update_over(
    alloc: Global,
    update: &Update,
    target: &Target,
    outside: &Sight<'_>,
    notes: &mut Notes,
) -> Result<BoundUpdate, NoMemory>
    ensures value { IfOk result (λ b. b ≡ (update_over update.now target.now (seen_by outside.now)).value) }
    ensures notes { OnOk result (notes.new ≡ taken notes.old
        (update_over update.now target.now (seen_by outside.now))) }
{
    let so = opened(alloc, &update.table, outside, notes)?;
    let levels = entered(alloc, row_level(&so), outside.levels)?;
    let sight = Sight {
        levels: levels.as_slice(),
        scopes: outside.scopes,
        catalog: outside.catalog,
        own: outside.own,
        writing: outside.writing,
    };
    let bound = update_in(alloc, update, target, &sight, notes)?;
    Ok(bound)
}

/// An UPDATE with its names resolved, and what is noted on the way.
pub fn bind_update(
    alloc: Global,
    update: &Update,
    outside: &Sight<'_>,
    notes: &mut Notes,
) -> Result<BoundUpdate, NoMemory>
    ensures value { IfOk result (λ b. b ≡ (judged_update update.now (seen_by outside.now)).value) }
    ensures notes { OnOk result (notes.new ≡ taken notes.old
        (judged_update update.now (seen_by outside.now))) }
{
    let table = table_named(&update.table.name, outside.catalog);
    let target = target_of(alloc, table)?;
    let sight = inside_writing(outside);
    let bound = update_over(alloc, update, &target, &sight, notes)?;
    Ok(bound)
}

// The conjuncts of WHERE, with the row of a table in sight.
fn where_over(
    alloc: Global,
    table: &Ident,
    filter: &Option<Expr>,
    outside: &Sight<'_>,
    notes: &mut Notes,
) -> Result<Items<BoundExpr>, NoMemory>
    ensures value { IfOk result
        (λ es. es ≡ (spec.where_over table.now filter.now (seen_by outside.now)).value) }
    ensures notes { OnOk result (notes.new ≡ taken notes.old
        (spec.where_over table.now filter.now (seen_by outside.now))) }
{
    let so = opened(alloc, table, outside, notes)?;
    let levels = entered(alloc, row_level(&so), outside.levels)?;
    let sight = Sight {
        levels: levels.as_slice(),
        scopes: outside.scopes,
        catalog: outside.catalog,
        own: outside.own,
        writing: outside.writing,
    };
    let conjuncts = bind_where(alloc, filter, &sight, notes)?;
    Ok(conjuncts)
}

fn delete_over(
    alloc: Global,
    delete: &Delete,
    target: &Target,
    outside: &Sight<'_>,
    notes: &mut Notes,
) -> Result<BoundDelete, NoMemory>
    ensures value { IfOk result (λ b. b ≡ (delete_over delete.now target.now (seen_by outside.now)).value) }
    ensures notes { OnOk result (notes.new ≡ taken notes.old
        (delete_over delete.now target.now (seen_by outside.now))) }
{
    let table = delete.table.name.copied()?;
    let conjuncts = where_over(alloc, &delete.table, &delete.filter, outside, notes)?;
    let rows = met_alone(alloc, &delete.table.name, target.kinds.len(), conjuncts)?;
    Ok(BoundDelete { table, rows })
}

/// A DELETE with its names resolved, and what is noted on the way.
pub fn bind_delete(
    alloc: Global,
    delete: &Delete,
    outside: &Sight<'_>,
    notes: &mut Notes,
) -> Result<BoundDelete, NoMemory>
    ensures value { IfOk result (λ b. b ≡ (judged_delete delete.now (seen_by outside.now)).value) }
    ensures notes { OnOk result (notes.new ≡ taken notes.old
        (judged_delete delete.now (seen_by outside.now))) }
{
    let table = table_named(&delete.table.name, outside.catalog);
    let target = target_of(alloc, table)?;
    let sight = inside_writing(outside);
    let bound = delete_over(alloc, delete, &target, &sight, notes)?;
    Ok(bound)
}
