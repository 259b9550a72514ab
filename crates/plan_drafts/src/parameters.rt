//! The parameters of a function that is called.

ghost use Rattle.std.specs.Prelude.{◌≡◌};
ghost use Rattle.rel_algebra.specs.Tree.{parameters_of};
ghost use Rattle.catalog_store.specs.Catalog.{routine_named};

use catalog_store::Catalog;
use sql_values::{Name, SqlType};

/// The types of the parameters of the function of a name; none where the catalog has no function.
pub fn parameter_types<'a>(name: &Name, catalog: &'a Catalog) -> &'a [SqlType]
    ensures { result.now ≡ parameters_of (routine_named name.now catalog.now) }
{
    match catalog.routine(name) {
        Some(routine) => routine.head.parameters.as_slice(),
        None => &[],
    }
}
