//! INSERT, UPDATE and DELETE (ISO/IEC 9075-2, 14.9, 14.11 and 14.14).

ghost use Rattle.std.specs.Prelude.{◌≡◌, IfOk, OnOk};
ghost use Rattle.bind_faults.specs.Faults.{noted};
ghost use Rattle.bind_direct.specs.Direct as spec;

use crate::bound::{Bound, BoundStatement};
use bind_changes::{bind_delete, bind_insert, bind_update};
use bind_faults::{Fault, Notes};
use bind_selects::all_run;
use bind_sight::Sight;
use catalog_store::Catalog;
use sql_values::NoMemory;
use statement_trees::{Delete, Insert, Update};
use std::alloc::Global;

/// A direct INSERT.
pub fn bind_direct_insert(
    alloc: Global,
    insert: &Insert,
    catalog: &Catalog,
    least: &mut Option<Fault>,
) -> Result<BoundStatement, NoMemory>
    ensures value { IfOk result (λ b. b ≡ (spec.direct_insert insert.now catalog.now).value) }
    ensures faults { OnOk result (least.new ≡ noted least.old
        (spec.direct_insert insert.now catalog.now).faults) }
{
    let sight = Sight {
        levels: &[],
        scopes: &[],
        catalog,
        own: &None,
        writing: false,
    };
    let mut notes = Notes::after(alloc, *least);
    let change = bind_insert(alloc, insert, &sight, &mut notes)?;
    *least = notes.least;
    let by_plan = all_run(notes.uses.as_slice(), catalog);
    Ok(BoundStatement {
        bound: Bound::Insert(change.insert, change.listed),
        by_plan,
    })
}

/// A direct UPDATE.
pub fn bind_direct_update(
    alloc: Global,
    update: &Update,
    catalog: &Catalog,
    least: &mut Option<Fault>,
) -> Result<BoundStatement, NoMemory>
    ensures value { IfOk result (λ b. b ≡ (spec.direct_update update.now catalog.now).value) }
    ensures faults { OnOk result (least.new ≡ noted least.old
        (spec.direct_update update.now catalog.now).faults) }
{
    let sight = Sight {
        levels: &[],
        scopes: &[],
        catalog,
        own: &None,
        writing: false,
    };
    let mut notes = Notes::after(alloc, *least);
    let change = bind_update(alloc, update, &sight, &mut notes)?;
    *least = notes.least;
    let by_plan = all_run(notes.uses.as_slice(), catalog);
    Ok(BoundStatement {
        bound: Bound::Update(change),
        by_plan,
    })
}

/// A direct DELETE.
pub fn bind_direct_delete(
    alloc: Global,
    delete: &Delete,
    catalog: &Catalog,
    least: &mut Option<Fault>,
) -> Result<BoundStatement, NoMemory>
    ensures value { IfOk result (λ b. b ≡ (spec.direct_delete delete.now catalog.now).value) }
    ensures faults { OnOk result (least.new ≡ noted least.old
        (spec.direct_delete delete.now catalog.now).faults) }
{
    let sight = Sight {
        levels: &[],
        scopes: &[],
        catalog,
        own: &None,
        writing: false,
    };
    let mut notes = Notes::after(alloc, *least);
    let change = bind_delete(alloc, delete, &sight, &mut notes)?;
    *least = notes.least;
    let by_plan = all_run(notes.uses.as_slice(), catalog);
    Ok(BoundStatement {
        bound: Bound::Delete(change),
        by_plan,
    })
}
