//! The table that INSERT, UPDATE and DELETE write: its columns by their names.

ghost use Rattle.std.specs.Prelude.{◌≡◌, true, IfOk, OnOk, map};
ghost use Rattle.std.specs.Option.{option_copied};
ghost use Rattle.bind_kinds.specs.Kinds.{kind_of_type as type_kind};
ghost use Rattle.bind_faults.specs.Faults.{noted};
ghost use Rattle.bind_changes.specs.Writing as spec;

use bind_faults::Fault;
use bind_kinds::{Kind, kind_of_type};
use bind_rules::note_list;
use bind_sight::NameList;
use row_types::{ColumnType, RowType};
use sql_values::{Name, NoMemory};
use sqlite_items::Items;
use std::alloc::Global;
use syntax_trees::Ident;

/// The names and kinds of a table's columns, and whether the table is known. One that is not has no
/// column by itself.
#[derive(Drop)]
pub(crate) struct Target {
    pub(crate) names: NameList,
    pub(crate) kinds: Items<Kind>,
    pub(crate) known: bool,
}

fn names_of(alloc: Global, columns: &[ColumnType]) -> Result<Items<Name>, NoMemory>
    ensures { IfOk result (λ names. names ≡ map (λ c. c.name) columns.now) }
{
    let mut names = Items::new(alloc);
    for column in columns {
        names.push(column.name.copied()?)?;
    }
    Ok(names)
}

fn kinds_of(alloc: Global, columns: &[ColumnType]) -> Result<Items<Kind>, NoMemory>
    ensures { IfOk result (λ kinds. kinds ≡ map (λ c. type_kind c.data_type) columns.now) }
{
    let mut kinds = Items::new(alloc);
    for column in columns {
        kinds.push(kind_of_type(column.data_type))?;
    }
    Ok(kinds)
}

fn known_target(alloc: Global, columns: &[ColumnType]) -> Result<Target, NoMemory>
    ensures names { IfOk result (λ to. to.names ≡ map (λ c. c.name) columns.now) }
    ensures kinds { IfOk result (λ to. to.kinds ≡ map (λ c. type_kind c.data_type) columns.now) }
    ensures known { IfOk result (λ to. to.known ≡ true) }
{
    let names = NameList::of(alloc, names_of(alloc, columns)?)?;
    let kinds = kinds_of(alloc, columns)?;
    Ok(Target {
        names,
        kinds,
        known: true,
    })
}

/// The columns of a table.
pub(crate) fn target_of(alloc: Global, table: Option<&RowType>) -> Result<Target, NoMemory>
    ensures { IfOk result (λ to. to ≡ spec.target_of (option_copied table.entry)) }
{
    match table {
        Some(row_type) => known_target(alloc, row_type.columns.as_slice()),
        None => Ok(Target {
            names: NameList::new(alloc),
            kinds: Items::new(alloc),
            known: false,
        }),
    }
}

fn kind_in(kinds: &[Kind], place: Option<usize>) -> Kind
    ensures { result ≡ spec.kind_in kinds.now place }
{
    match place {
        Some(place) => match kinds.get(place) {
            Some(kind) => *kind,
            None => Kind::Null,
        },
        None => Kind::Null,
    }
}

/// The kind of a column; of one that is not known it is Null.
pub(crate) fn kind_named(target: &Target, ident: &Ident) -> Kind
    ensures { result ≡ spec.kind_named target.now ident.now }
{
    kind_in(target.kinds.as_slice(), target.names.place(&ident.name))
}

/// What is asked of a list of columns: none stands there twice, and each is one of a table that is
/// known.
pub(crate) fn note_columns(
    alloc: Global,
    target: &Target,
    columns: &[Ident],
    least: &mut Option<Fault>,
) -> Result<(), NoMemory>
    ensures { OnOk result (least.new ≡ noted least.old (spec.target_faults target.now columns.now)) }
{
    note_list(alloc, target.known, columns, &target.names, least)
}
