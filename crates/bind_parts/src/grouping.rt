//! Whether a query is grouped, and its grouping columns (ISO/IEC 9075-2, 7.13 and 7.16).

ghost use Rattle.std.specs.Prelude.{◌≡◌, IfOk, OnOk};
ghost use Rattle.bind_faults.specs.Faults.{taken};
ghost use Rattle.bind_sight.specs.Sight.{seen_by, inside};
ghost use Rattle.bind_parts.specs.From.{row_level};
ghost use Rattle.bind_parts.specs.Grouping as spec;

use crate::from::Opened;
use crate::parts::bind_found;
use crate::typed::Typed;
use bind_faults::Notes;
use bind_names::stands_for;
use bind_sight::{GroupingKey, Referent, Sight, entered, key_of};
use bound_trees::BoundExpr;
use sql_values::{Name, NoMemory};
use sqlite_items::Items;
use std::alloc::Global;
use syntax_trees::ColumnName;

/// The grouping columns so far: what each is to the query, and what it is bound to.
#[derive(Drop)]
pub struct Grouping {
    pub keys: Items<GroupingKey>,
    pub trees: Items<BoundExpr>,
}

fn is_written(columns: &[ColumnName]) -> bool
    ensures { result ≡ spec.is_written columns.now }
{
    match columns {
        [_, ..] => true,
        [] => false,
    }
}

/// Whether a query is grouped: by GROUP BY, by HAVING, or by an aggregate in its list.
pub fn is_grouped(aggregates: bool, columns: &[ColumnName], having: bool) -> bool
    ensures { result ≡ spec.is_grouped aggregates columns.now having }
{
    is_written(columns) || having || aggregates
}

fn no_grouping(alloc: Global) -> Grouping
    ensures { result ≡ spec.no_grouping }
{
    Grouping {
        keys: Items::new(alloc),
        trees: Items::new(alloc),
    }
}

fn add_key(so: &mut Grouping, found: Referent, name: &Name, typed: Typed) -> Result<(), NoMemory>
    ensures { OnOk result (so.new ≡ spec.with_key so.old found name.now typed) }
{
    so.trees.push(typed.tree)?;
    so.keys.push(key_of(found, name)?)?;
    Ok(())
}

// A grouping column is sought as any name.
fn bind_key(
    column: &ColumnName,
    sight: &Sight<'_>,
    so: &mut Grouping,
    notes: &mut Notes,
) -> Result<(), NoMemory>
    ensures value { OnOk result (so.new ≡ (spec.one_key (seen_by sight.now) so.old column.now).value) }
    ensures notes { OnOk result (notes.new ≡ taken notes.old
        (spec.one_key (seen_by sight.now) so.old column.now)) }
{
    let found = stands_for(column, sight)?;
    let typed = bind_found(column.anchor(), found, notes);
    add_key(so, found, &column.name.name, typed)
}

// The grouping columns, over FROM's row.
fn bind_grouping(
    alloc: Global,
    columns: &[ColumnName],
    sight: &Sight<'_>,
    notes: &mut Notes,
) -> Result<Grouping, NoMemory>
    ensures value { IfOk result (λ g. g ≡ (spec.grouping_of columns.now (seen_by sight.now)).value) }
    ensures notes { OnOk result (notes.new ≡ taken notes.old
        (spec.grouping_of columns.now (seen_by sight.now))) }
{
    let mut so = no_grouping(alloc);
    for column in columns {
        bind_key(column, sight, &mut so, notes)?;
    }
    Ok(so)
}

/// The grouping columns, with the columns of FROM in sight.
pub fn bind_row_grouping(
    alloc: Global,
    columns: &[ColumnName],
    opened: &Opened,
    outside: &Sight<'_>,
    notes: &mut Notes,
) -> Result<Grouping, NoMemory>
    ensures value { IfOk result
        (λ g. g ≡ (spec.grouping_of columns.now
        (inside (row_level opened.now) (seen_by outside.now))).value) }
    ensures notes { OnOk result (notes.new ≡ taken notes.old
        (spec.grouping_of columns.now (inside (row_level opened.now) (seen_by outside.now)))) }
{
    let levels = entered(alloc, crate::from::row_level(opened), outside.levels)?;
    let sight = Sight {
        levels: levels.as_slice(),
        scopes: outside.scopes,
        catalog: outside.catalog,
        own: outside.own,
        writing: outside.writing,
    };
    bind_grouping(alloc, columns, &sight, notes)
}
