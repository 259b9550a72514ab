//! What a plan can use of the catalog (ISO/IEC 9075-2, 10.4).

ghost use Rattle.std.specs.Prelude.{◌≡◌};
ghost use Rattle.std.specs.List.{list_all};
ghost use Rattle.catalog_store.specs.Catalog.{object_named};
ghost use Rattle.bind_queries.specs.Runs as spec;

use catalog_store::{Catalog, Object};
use sql_values::Name;

fn is_run(name: &Name, catalog: &Catalog) -> bool
    ensures { result ≡ spec.is_run (object_named name.now catalog.now) }
{
    match catalog.get(name) {
        Some(Object::Table(_)) => true,
        Some(Object::Function(_)) => true,
        Some(Object::Interpreted(_)) => false,
        Some(Object::Procedure(_)) => false,
        None => false,
    }
}

/// Whether each of these names stands for a table or for a function with a plan.
pub fn all_run(names: &[Name], catalog: &Catalog) -> bool
    ensures { result ≡ spec.all_run catalog.now names.now }
{
    names.iter().all(|name| is_run(name, catalog))
}
