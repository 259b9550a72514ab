//! The top conjuncts of a test (ISO/IEC 9075-2, 7.12).

ghost use Rattle.std.specs.Prelude.{◌≡◌, ◌++◌, ◌+◌, ◌<◌, IfOk, OnOk, reverse};
ghost use Rattle.std.specs.List.{flat_map};
ghost use Rattle.bound_trees.specs.declared.expr.BoundExpr.TheVariants as bound;
ghost use Rattle.bind_kinds.specs.Conjuncts.{conjuncts_of, weight, weights};

use crate::words::turned;
use bind_kinds::is_and;
use bound_trees::{BoundExpr, BoundOperation};
use sql_values::NoMemory;
use sqlite_items::Items;
use std::alloc::Global;

// The operands of AND go to those that are left, another word to those that are found.
fn part_word(
    word: BoundOperation,
    operands: Items<BoundExpr>,
    left: &mut Items<BoundExpr>,
    found: &mut Items<BoundExpr>,
) -> Result<(), NoMemory>
    ensures conjuncts { OnOk result (flat_map conjuncts_of left.new ++ reverse found.new
        ≡ flat_map conjuncts_of left.old ++ (conjuncts_of (bound.Operation word operands) ++ reverse found.old)) }
    ensures lighter { OnOk result (weights left.new < weights left.old + weight
        (bound.Operation word operands)) }
{
    if is_and(word) {
        left.append(operands)?;
    } else {
        found.push(BoundExpr::Operation(word, operands))?;
    }
    Ok(())
}

fn part(
    test: BoundExpr,
    left: &mut Items<BoundExpr>,
    found: &mut Items<BoundExpr>,
) -> Result<(), NoMemory>
    ensures conjuncts { OnOk result (flat_map conjuncts_of left.new ++ reverse found.new
        ≡ flat_map conjuncts_of left.old ++ (conjuncts_of test ++ reverse found.old)) }
    ensures lighter { OnOk result (weights left.new < weights left.old + weight test) }
{
    match test {
        BoundExpr::Operation(word, operands) => part_word(word, operands, left, found)?,
        BoundExpr::Literal(value) => found.push(BoundExpr::Literal(value))?,
        BoundExpr::Column(level, place) => found.push(BoundExpr::Column(level, place))?,
        BoundExpr::Variable(place) => found.push(BoundExpr::Variable(place))?,
        BoundExpr::Chain(first, rest) => found.push(BoundExpr::Chain(first, rest))?,
        BoundExpr::Call(name, args) => found.push(BoundExpr::Call(name, args))?,
        BoundExpr::Single(query) => found.push(BoundExpr::Single(query))?,
        BoundExpr::Exists(query) => found.push(BoundExpr::Exists(query))?,
        BoundExpr::In(left, query) => found.push(BoundExpr::In(left, query))?,
    }
    Ok(())
}

/// The conjuncts of a test, also of those in brackets, in their order.
pub fn conjuncts(alloc: Global, test: BoundExpr) -> Result<Items<BoundExpr>, NoMemory>
    ensures { IfOk result (λ es. es ≡ conjuncts_of test) }
{
    let mut left = Items::new(alloc);
    left.push(test)?;
    let mut found = Items::new(alloc);
    while let Some(last) = left.pop() {
        part(last, &mut left, &mut found)?;
    }
    turned(alloc, found)
}
