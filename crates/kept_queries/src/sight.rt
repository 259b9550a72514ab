//! What is in sight where a query stands.

ghost use Rattle.std.specs.Prelude.{◌≡◌, ◌↔◌, [], ◌∷◌, IfOk, IsTrue};
ghost use Rattle.rel_algebra.specs.Theorem.{under};
ghost use Rattle.plan_expressions.specs.Scopes.{env_of};

use plan_expressions::NameSources;
use sql_values::NoMemory;
use sqlite_items::Items;
use std::alloc::Global;

/// What is in sight where a query stands (ISO/IEC 9075-2, 6.6 and 6.7): how many variables, and of
/// each row that it stands under how many values this has, the innermost first.
#[derive(Drop)]
pub struct InSight {
    pub variables: usize,
    pub rows: Items<usize>,
}

impl InSight {
    /// So many variables, and no row.
    pub fn without_rows(alloc: Global, variables: usize) -> InSight
        ensures variables { result.variables ≡ variables }
        ensures rows { result.rows ≡ [] }
    {
        InSight {
            variables,
            rows: Items::new(alloc),
        }
    }

    /// The same under one row more, of so many values.
    pub fn under_row(&self, alloc: Global, values: usize) -> Result<InSight, NoMemory>
        ensures variables { IfOk result (λ s. s.variables ≡ self.now.variables) }
        ensures rows { IfOk result (λ s. s.rows ≡ values ∷ self.now.rows) }
    {
        let mut rows = Items::new(alloc);
        rows.push(values)?;
        rows.append(Items::from_slice(alloc, self.rows.as_slice())?)?;
        Ok(InSight {
            variables: self.variables,
            rows,
        })
    }

    /// The same once more.
    pub fn copied(&self, alloc: Global) -> Result<InSight, NoMemory>
        ensures { IfOk result (λ s. s ≡ self.now) }
    {
        let rows = Items::from_slice(alloc, self.rows.as_slice())?;
        Ok(InSight {
            variables: self.variables,
            rows,
        })
    }

    /// Whether as much is in sight.
    pub fn is_same(&self, other: &InSight) -> bool
        ensures { IsTrue result ↔ (self.now ≡ other.now) }
    {
        self.variables == other.variables && same_rows(self.rows.as_slice(), other.rows.as_slice())
    }

    /// Where the names of a query are read that stands there: the variables as arguments, and the
    /// columns in the rows outside of its plan.
    pub fn sources(&self, alloc: Global) -> Result<NameSources, NoMemory>
        ensures { IfOk result (λ s. env_of s ≡ under self.now.rows self.now.variables) }
    {
        sources_under(alloc, self.rows.as_slice(), self.variables)
    }
}

// Whether rows have as many values.
fn same_rows(one: &[usize], other: &[usize]) -> bool
    ensures { IsTrue result ↔ (one.now ≡ other.now) }
{
    one == other
}

// Where names are read under rows of so many values, by so many variables.
fn sources_under(alloc: Global, rows: &[usize], variables: usize) -> Result<NameSources, NoMemory>
    ensures { IfOk result (λ s. env_of s ≡ under rows.now variables) }
{
    match rows {
        [values, outer @ ..] => {
            let around = sources_under(alloc, outer, variables)?;
            around.entered(alloc, *values)
        }
        [] => Ok(NameSources::top(alloc, variables)),
    }
}
