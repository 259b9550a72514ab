//! CASE with an operand: its tests are comparisons with the column that has the operand.

ghost use Rattle.std.specs.Prelude.{◌≡◌, IfOk};
ghost use Rattle.rel_algebra.specs.Emit.{against as against_by};
ghost use Rattle.rel_algebra.specs.Plan.{strict, word, more, none, column as place};
ghost use Rattle.rel_algebra.specs.PlanView.{scalar_of, scalars_of};
ghost use Rattle.rel_algebra.specs.Tree.{Comparing};
ghost use Rattle.sql_values.specs.declared.operators.Comparison.TheVariants.{Equals};

use crate::scalars::{compare, turned_scalars};
use rel_algebra::Scalar;
use sql_values::{Comparison, NoMemory};
use sqlite_items::Items;
use std::alloc::Global;

/// Tests and results in turn, and perhaps a last result, with each test compared with a column.
pub fn against(
    alloc: Global,
    column: usize,
    scalars: Items<Scalar>,
) -> Result<Items<Scalar>, NoMemory>
    ensures { IfOk result (λ arms. scalars_of arms ≡ against_by column (scalars_of scalars)) }
{
    let mut arms = Items::from_vec(Vec::with_capacity(alloc, scalars.len())?);
    let mut left = turned_scalars(alloc, scalars)?;
    while let Some(first) = left.pop() {
        match left.pop() {
            Some(result) => {
                arms.push(compared(alloc, column, first)?)?;
                arms.push(result)?;
            }
            None => arms.push(first)?,
        }
    }
    Ok(arms)
}

// A test compared with a column.
fn compared(alloc: Global, column: usize, test: Scalar) -> Result<Scalar, NoMemory>
    ensures { IfOk result (λ s. scalar_of s ≡ word (strict (Comparing Equals))
        (more (place 0 column) (more (scalar_of test) none))) }
{
    compare(alloc, Comparison::Equals, Scalar::Column(0, column), test)
}
