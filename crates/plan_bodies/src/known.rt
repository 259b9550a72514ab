//! Whether no argument of a function is NULL.

ghost use Rattle.std.specs.Prelude.{◌≡◌, length, IfOk};
ghost use Rattle.rel_algebra.specs.BodyChain as chain;
ghost use Rattle.rel_algebra.specs.Environments.{given, top};
ghost use Rattle.rel_algebra.specs.PlanView.{scalar_of, scalars_of};

use plan_expressions::unary;
use rel_algebra::{ListWord, Scalar, UnaryWord};
use sql_values::{NoMemory, SqlType, Value};
use sqlite_items::Items;
use std::alloc::Global;

/// Whether none of the arguments for parameters of these types is NULL (ISO/IEC 9075-2, 10.4): TRUE
/// where there is none.
pub(crate) fn all_known(alloc: Global, parameters: &[SqlType]) -> Result<Scalar, NoMemory>
    ensures { IfOk result (λ s. scalar_of s ≡ chain.all_known (top (length parameters.now))
        parameters.now) }
{
    if parameters.is_empty() {
        return Ok(Scalar::Constant(Value::Bool(true)));
    }
    let tests = known_arguments(alloc, parameters)?;
    Ok(Scalar::Listed(ListWord::And, tests))
}

// Whether each argument is not NULL.
fn known_arguments(alloc: Global, parameters: &[SqlType]) -> Result<Items<Scalar>, NoMemory>
    ensures { IfOk result (λ ss. scalars_of ss ≡ chain.knowns (top (length parameters.now)) 0
        parameters.now) }
{
    let mut tests = Items::new(alloc);
    for place in 0..parameters.len() {
        tests.push(known_argument(alloc, place)?)?;
    }
    Ok(tests)
}

// Whether an argument is not NULL.
fn known_argument(alloc: Global, place: usize) -> Result<Scalar, NoMemory>
    ensures { IfOk result (λ s. scalar_of s ≡ chain.known (given place)) }
{
    let null_test = unary(alloc, UnaryWord::NullTest, Scalar::Argument(place))?;
    unary(alloc, UnaryWord::Opposite, null_test)
}
