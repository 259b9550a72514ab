//! CREATE TABLE and DROP (ISO/IEC 9075-2, 11.3, 11.31 and 11.62), and what CREATE makes as a
//! statement.

ghost use Rattle.std.specs.Prelude.{◌≡◌, IfOk, OnOk};
ghost use Rattle.statement_trees.specs.declared.statement.CreateFunction.{out-CreateFunction};
ghost use Rattle.bind_faults.specs.Faults.{noted};
ghost use Rattle.bind_direct.specs.Direct as spec;

use crate::bound::{Bound, BoundStatement};
use bind_definitions::{bind_drop, bind_table};
use bind_faults::Fault;
use bind_rules::result_of;
use catalog_store::{Catalog, Object};
use sql_values::NoMemory;
use statement_trees::{CreateFunction, CreateTable, DropObject};
use std::alloc::Global;
use syntax_trees::Ident;

fn is_planned(object: &Object) -> bool
    ensures { result ≡ spec.is_planned object.now }
{
    match object {
        Object::Table(_) => true,
        Object::Function(_) => true,
        Object::Interpreted(_) => false,
        Object::Procedure(_) => false,
    }
}

/// A new table or procedure as a statement.
pub fn created(ident: &Ident, object: Object) -> Result<BoundStatement, NoMemory>
    ensures { IfOk result (λ b. b ≡ spec.created ident.now object) }
{
    let by_plan = is_planned(&object);
    let name = ident.name.copied()?;
    Ok(BoundStatement {
        bound: Bound::Create(name, object),
        by_plan,
    })
}

/// A new function as a statement, with whether it only returns a value and has a plan.
pub fn created_function(create: &CreateFunction, object: Object) -> Result<BoundStatement, NoMemory>
    ensures { IfOk result (λ b. b ≡ spec.created_function (out-CreateFunction create.now) object) }
{
    let by_plan = result_of(create).is_some() && is_planned(&object);
    let name = create.name.name.copied()?;
    Ok(BoundStatement {
        bound: Bound::Create(name, object),
        by_plan,
    })
}

/// A direct CREATE TABLE.
pub fn bind_direct_table(
    alloc: Global,
    create: &CreateTable,
    catalog: &Catalog,
    least: &mut Option<Fault>,
) -> Result<BoundStatement, NoMemory>
    ensures value { IfOk result (λ b. b ≡ (spec.direct_table create.now catalog.now).value) }
    ensures faults { OnOk result (least.new ≡ noted least.old
        (spec.direct_table create.now catalog.now).faults) }
{
    let object = bind_table(alloc, create, catalog, least)?;
    created(&create.name, object)
}

/// A direct DROP.
pub fn bind_direct_drop(
    removal: &DropObject,
    catalog: &Catalog,
    least: &mut Option<Fault>,
) -> Result<BoundStatement, NoMemory>
    ensures value { IfOk result (λ b. b ≡ (spec.direct_drop removal.now catalog.now).value) }
    ensures faults { OnOk result (least.new ≡ noted least.old
        (spec.direct_drop removal.now catalog.now).faults) }
{
    let name = bind_drop(removal, catalog, least)?;
    Ok(BoundStatement {
        bound: Bound::Drop(name),
        by_plan: true,
    })
}
