//! Where a statement stands: the scopes and labels in sight, and the routine around it.

ghost use Rattle.std.specs.Prelude.{◌≡◌, map};
ghost use Rattle.bind_rules.specs.Labels.{label_by};
ghost use Rattle.bind_sight.specs.Scopes.{scope_by};
ghost use Rattle.bind_sight.specs.Sight.{seen_by};
ghost use Rattle.bind_simple.specs.Places.{place_by, seen_from};
ghost use Rattle.bind_simple.specs.Places as spec;

use bind_rules::Label;
use bind_sight::{EnclosingRoutine, ScopeRef, Sight};
use catalog_store::{Catalog, ProcedureHead};
use sql_values::SqlType;

/// Where a statement of a routine or a block stands.
#[derive(Clone, Copy)]
pub struct Surroundings<'a> {
    /// The scopes in sight, the innermost first.
    pub scopes: &'a [ScopeRef<'a>],
    /// The compound statements and loops around it, the innermost first.
    pub labels: &'a [Label<'a>],
    /// The type that is returned, where a function is around it.
    pub returns: Option<SqlType>,
    /// The routine around it.
    pub own: &'a Option<EnclosingRoutine>,
    /// That routine's head, where it is a procedure.
    pub procedure: &'a Option<ProcedureHead>,
    pub catalog: &'a Catalog,
}

/// What an expression of a statement sees.
pub fn seen_from<'a>(place: &Surroundings<'a>) -> Sight<'a>
    ensures { seen_by result ≡ seen_from (place_by place.now) }
{
    Sight {
        levels: &[],
        scopes: place.scopes,
        catalog: place.catalog,
        own: place.own,
        writing: false,
    }
}

/// A place with other scopes in sight.
pub fn with_scopes<'a>(place: &Surroundings<'a>, scopes: &'a [ScopeRef<'a>]) -> Surroundings<'a>
    ensures { place_by result ≡ spec.with_scopes (map scope_by scopes.entry.now)
        (place_by place.now) }
{
    Surroundings {
        scopes,
        labels: place.labels,
        returns: place.returns,
        own: place.own,
        procedure: place.procedure,
        catalog: place.catalog,
    }
}

/// A place with other labels around it.
pub fn with_labels<'a>(place: &Surroundings<'a>, labels: &'a [Label<'a>]) -> Surroundings<'a>
    ensures { place_by result ≡ spec.with_labels (map label_by labels.entry.now)
        (place_by place.now) }
{
    Surroundings {
        scopes: place.scopes,
        labels,
        returns: place.returns,
        own: place.own,
        procedure: place.procedure,
        catalog: place.catalog,
    }
}
