//! The parts of a SELECT that is no query, as a SELECT INTO has them (ISO/IEC 9075-2, 7.16 and
//! 14.7). They don't stand in one another, so that the recursion over queries needs none of this.

ghost use Rattle.std.specs.Prelude.{◌≡◌, map, IfOk, OnOk};
ghost use Rattle.bind_faults.specs.Faults.{taken};
ghost use Rattle.bind_sight.specs.Sight.{seen_by, level_by, inside};
ghost use Rattle.bind_parts.specs.From.{row_level};
ghost use Rattle.bind_queries.specs.Queries.{select_item, maybe};
ghost use Rattle.bind_queries.specs.Selects as selects;
ghost use Rattle.bind_selects.specs.Parts.{parts_judge};

use bind_faults::Notes;
use bind_kinds::Kind;
use bind_names::at_levels;
use bind_parts::{
    Grouping, ListClauses, Opened, Parts, RowClauses, TypedQuery, list_level, parts_of_keys,
    row_level, select_typed,
};
use bind_queries::{
    bind_filter, bind_from, bind_having, bind_list, bind_row_clauses, is_grouped_by,
};
use bind_sight::{Level, Sight, entered};
use sql_values::NoMemory;
use std::alloc::Global;
use syntax_trees::{Anchor, ColumnName, Expr, FromItem, SelectItem};

/// A list, FROM, WHERE, GROUP BY and HAVING, and the token at which they stand.
#[derive(Clone, Copy)]
pub struct SelectParts<'a> {
    pub anchor: Anchor,
    pub items: &'a [SelectItem],
    pub from: &'a [FromItem],
    pub filter: &'a Option<Expr>,
    pub group_by: &'a [ColumnName],
    pub having: &'a Option<Expr>,
}

// The condition of WHERE and the grouping columns, with the columns of FROM in sight.
fn bind_row(
    alloc: Global,
    filter: &Option<Expr>,
    group_by: &[ColumnName],
    opened: &Opened,
    outside: &Sight<'_>,
    notes: &mut Notes,
) -> Result<RowClauses, NoMemory>
    ensures value { IfOk result (λ r. r ≡ (selects.rowed (maybe filter.now) group_by.now
        (inside (row_level opened.now) (seen_by outside.now))).value) }
    ensures notes { OnOk result (notes.new ≡ taken notes.old
        (selects.rowed (maybe filter.now) group_by.now
        (inside (row_level opened.now) (seen_by outside.now)))) }
{
    let conjuncts = bind_filter(alloc, filter, row_level(opened), outside, notes)?;
    bind_row_clauses(alloc, conjuncts, group_by, opened, outside, notes)
}

// The list, and then HAVING.
fn bind_listed(
    alloc: Global,
    items: &[SelectItem],
    having: &Option<Expr>,
    targets: &[Kind],
    parts: Parts,
    sight: &Sight<'_>,
    notes: &mut Notes,
) -> Result<ListClauses, NoMemory>
    ensures value { IfOk result (λ l. l ≡ (selects.list_and_having targets.now (map select_item items.now)
        (maybe having.now) parts (seen_by sight.now)).value) }
    ensures notes { OnOk result (notes.new ≡ taken notes.old
        (selects.list_and_having targets.now (map select_item items.now) (maybe having.now) parts
        (seen_by sight.now))) }
{
    let mut outputs = bind_list(alloc, items, targets, parts, sight, notes)?;
    let having = bind_having(alloc, having, sight, &mut outputs.parts, notes)?;
    Ok(ListClauses { outputs, having })
}

// The list and HAVING, with what they see of FROM.
fn bind_level(
    alloc: Global,
    select: &SelectParts<'_>,
    level: Level<'_>,
    targets: &[Kind],
    parts: Parts,
    outside: &Sight<'_>,
    notes: &mut Notes,
) -> Result<ListClauses, NoMemory>
    ensures value { IfOk result
        (λ l. l ≡ (selects.list_and_having targets.now (map select_item select.now.items.now)
        (maybe select.now.having.now) parts (inside (level_by level.entry)
        (seen_by outside.now))).value) }
    ensures notes { OnOk result (notes.new ≡ taken notes.old
        (selects.list_and_having targets.now (map select_item select.now.items.now)
        (maybe select.now.having.now) parts (inside (level_by level.entry) (seen_by outside.now)))) }
{
    let levels = entered(alloc, level, outside.levels)?;
    let sight = at_levels(levels.as_slice(), &*outside);
    bind_listed(
        alloc,
        select.items,
        select.having,
        targets,
        parts,
        &sight,
        notes,
    )
}

// The list and HAVING over FROM's row or its groups.
fn bind_grouped(
    alloc: Global,
    select: &SelectParts<'_>,
    opened: Opened,
    row: RowClauses,
    targets: &[Kind],
    outside: &Sight<'_>,
    notes: &mut Notes,
) -> Result<TypedQuery, NoMemory>
    ensures value { IfOk result
        (λ q. q ≡ (selects.list_typed select.now.anchor (map select_item select.now.items.now)
        (maybe select.now.having.now) (selects.grouped (map select_item select.now.items.now)
        select.now.group_by.now (maybe select.now.having.now)) targets.now (seen_by outside.now)
        opened row).value) }
    ensures notes { OnOk result (notes.new ≡ taken notes.old
        (selects.list_typed select.now.anchor (map select_item select.now.items.now)
        (maybe select.now.having.now) (selects.grouped (map select_item select.now.items.now)
        select.now.group_by.now (maybe select.now.having.now)) targets.now (seen_by outside.now)
        opened row)) }
{
    let grouped = is_grouped_by(select.items, select.group_by, select.having);
    let RowClauses {
        conjuncts,
        grouping,
    } = row;
    let Grouping { keys, trees } = grouping;
    let level = list_level(&opened, keys.as_slice(), grouped);
    let parts = parts_of_keys(alloc, trees);
    let list = bind_level(alloc, select, level, targets, parts, outside, notes)?;
    let count = keys.len();
    Ok(select_typed(select.anchor, opened.from, conjuncts, grouped, count, list))
}

// These parts over what FROM brings in sight.
fn bind_opened(
    alloc: Global,
    select: &SelectParts<'_>,
    opened: Opened,
    targets: &[Kind],
    outside: &Sight<'_>,
    notes: &mut Notes,
) -> Result<TypedQuery, NoMemory>
    ensures value { IfOk result
        (λ q. q ≡ (selects.selected select.now.anchor (map select_item select.now.items.now)
        (maybe select.now.filter.now) select.now.group_by.now (maybe select.now.having.now)
        targets.now (seen_by outside.now) opened).value) }
    ensures notes { OnOk result (notes.new ≡ taken notes.old
        (selects.selected select.now.anchor (map select_item select.now.items.now)
        (maybe select.now.filter.now) select.now.group_by.now (maybe select.now.having.now)
        targets.now (seen_by outside.now) opened)) }
{
    let row = bind_row(
        alloc,
        select.filter,
        select.group_by,
        &opened,
        outside,
        notes,
    )?;
    bind_grouped(alloc, select, opened, row, targets, outside, notes)
}

/// The parts of a SELECT with their names resolved, and what is noted on the way. The columns are
/// stored into what is of these kinds.
pub fn bind_select_parts(
    alloc: Global,
    parts: SelectParts<'_>,
    targets: &[Kind],
    outside: &Sight<'_>,
    notes: &mut Notes,
) -> Result<TypedQuery, NoMemory>
    ensures value { IfOk result (λ q. q ≡ (parts_judge parts.entry targets.now (seen_by outside.now)).value) }
    ensures notes { OnOk result (notes.new ≡ taken notes.old
        (parts_judge parts.entry targets.now (seen_by outside.now))) }
{
    let opened = bind_from(alloc, parts.from, outside, notes)?;
    let query = bind_opened(alloc, &parts, opened, targets, outside, notes)?;
    Ok(query)
}
