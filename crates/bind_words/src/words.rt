//! The bound trees of literals, words and chains (ISO/IEC 9075-2, 5.3, 6.27 and 6.39).

ghost use Rattle.std.specs.Prelude.{◌≡◌, [], ◌∷◌, IfOk, map, reverse};
ghost use Rattle.bound_trees.specs.declared.expr.BoundExpr.TheVariants as bound;
ghost use Rattle.bind_kinds.specs.Words as spec;

use bind_kinds::{type_of, word_of_test};
use bound_trees::{BoundExpr, BoundLink, BoundOperation};
use sql_values::{NoMemory, Operator, Value};
use sqlite_items::{Boxed, Items};
use std::alloc::Global;
use syntax_trees::{ChainOperator, Link, Literal, Operation};

/// The value of a literal; a text is shared.
pub fn value_of(literal: &Literal) -> Result<Value, NoMemory>
    ensures { IfOk result (λ v. v ≡ spec.value_of literal.now) }
{
    match literal {
        Literal::Number(number) => Ok(Value::Int(*number)),
        Literal::Text(text) => Ok(Value::Str(text.copied()?)),
        Literal::True => Ok(Value::Bool(true)),
        Literal::False => Ok(Value::Bool(false)),
        Literal::Unknown | Literal::Null => Ok(Value::Null),
    }
}

/// What stands where nothing is known.
pub fn missing() -> BoundExpr
    ensures { result ≡ spec.missing }
{
    BoundExpr::Literal(Value::Null)
}

/// A word over one operand.
pub fn over(alloc: Global, word: BoundOperation, operand: BoundExpr) -> Result<BoundExpr, NoMemory>
    ensures { IfOk result (λ e. e ≡ bound.Operation word (operand ∷ [])) }
{
    let mut operands = Items::new(alloc);
    operands.push(operand)?;
    Ok(BoundExpr::Operation(word, operands))
}

/// NOT of a test.
pub fn opposite(alloc: Global, test: BoundExpr) -> Result<BoundExpr, NoMemory>
    ensures { IfOk result (λ e. e ≡ spec.opposite test) }
{
    over(alloc, BoundOperation::Opposite, test)
}

// The operand of the sign +.
#[tactic(auto, using(bind_kinds::proofs::Laws::plus_of_one, bind_kinds::proofs::Laws::plus_of_others))]
fn plus(operands: Items<BoundExpr>) -> BoundExpr
    ensures { result ≡ spec.plus operands }
{
    let mut operands = operands;
    if operands.len() == 1 {
        operands.remove(0)
    } else {
        BoundExpr::Operation(BoundOperation::Negation, operands)
    }
}

/// A word over its operands.
pub fn tree_of(
    alloc: Global,
    operation: &Operation,
    operands: Items<BoundExpr>,
) -> Result<BoundExpr, NoMemory>
    ensures { IfOk result (λ e. e ≡ spec.tree_of operation.now operands) }
{
    match operation {
        Operation::Plus => Ok(plus(operands)),
        Operation::Minus => Ok(BoundExpr::Operation(BoundOperation::Negation, operands)),
        Operation::Not => Ok(BoundExpr::Operation(BoundOperation::Opposite, operands)),
        Operation::Compare(comparison) => Ok(BoundExpr::Operation(
            BoundOperation::Comparing(*comparison),
            operands,
        )),
        Operation::Is(test) => Ok(BoundExpr::Operation(word_of_test(*test), operands)),
        Operation::IsNot(test) => opposite(
            alloc,
            BoundExpr::Operation(word_of_test(*test), operands),
        ),
        Operation::In => Ok(BoundExpr::Operation(BoundOperation::AnyOf, operands)),
        Operation::NotIn => opposite(alloc, BoundExpr::Operation(BoundOperation::AnyOf, operands)),
        Operation::Modulo => Ok(BoundExpr::Operation(BoundOperation::Modulo, operands)),
        Operation::CharLength => Ok(BoundExpr::Operation(BoundOperation::CharLength, operands)),
        Operation::Substring => Ok(BoundExpr::Operation(BoundOperation::Substring, operands)),
        Operation::Cast(to) => Ok(BoundExpr::Operation(
            BoundOperation::Cast(type_of(*to.get())),
            operands,
        )),
        Operation::Coalesce => Ok(BoundExpr::Operation(BoundOperation::Coalesce, operands)),
        Operation::Case => Ok(BoundExpr::Operation(BoundOperation::Case, operands)),
        Operation::CaseOf => Ok(BoundExpr::Operation(BoundOperation::CaseOf, operands)),
    }
}

fn operator_in(operator: ChainOperator) -> Operator
    ensures { result ≡ spec.operator_in operator }
{
    match operator {
        ChainOperator::Value(operator) => operator,
        ChainOperator::Or | ChainOperator::And => Operator::Add,
    }
}

/// Expressions from the last to the first.
pub(crate) fn turned(alloc: Global, exprs: Items<BoundExpr>) -> Result<Items<BoundExpr>, NoMemory>
    ensures { IfOk result (λ es. es ≡ reverse exprs) }
{
    let mut left = exprs;
    let mut found = Items::from_vec(Vec::with_capacity(alloc, left.len())?);
    while let Some(last) = left.pop() {
        found.push(last)?;
    }
    Ok(found)
}

// Operators, each with its right operand.
fn links_of(
    alloc: Global,
    links: &[Link],
    operands: Items<BoundExpr>,
) -> Result<Items<BoundLink>, NoMemory>
    ensures { IfOk result (λ ls. ls ≡ spec.links_of (map (λ l. l.operator) links.now) operands) }
{
    let mut left = turned(alloc, operands)?;
    let mut found = Items::from_vec(Vec::with_capacity(alloc, links.len())?);
    for link in links {
        if let Some(operand) = left.pop() {
            let operator = operator_in(link.operator);
            found.push(BoundLink { operator, operand })?;
        }
    }
    Ok(found)
}

// The first operand before the others.
fn in_front(
    alloc: Global,
    first: BoundExpr,
    others: Items<BoundExpr>,
) -> Result<Items<BoundExpr>, NoMemory>
    ensures { IfOk result (λ es. es ≡ first ∷ others) }
{
    let mut operands = Items::new(alloc);
    operands.push(first)?;
    operands.append(others)?;
    Ok(operands)
}

/// A chain over its first operand and the others.
pub fn chain_of(
    alloc: Global,
    first: BoundExpr,
    links: &[Link],
    others: Items<BoundExpr>,
) -> Result<BoundExpr, NoMemory>
    ensures { IfOk result (λ e. e ≡ spec.chain_of first (map (λ l. l.operator) links.now) others) }
{
    match links {
        [] => Ok(first),
        [link, ..] => match link.operator {
            ChainOperator::Or => Ok(BoundExpr::Operation(
                BoundOperation::Or,
                in_front(alloc, first, others)?,
            )),
            ChainOperator::And => Ok(BoundExpr::Operation(
                BoundOperation::And,
                in_front(alloc, first, others)?,
            )),
            ChainOperator::Value(_) => {
                let links = links_of(alloc, links, others)?;
                Ok(BoundExpr::Chain(Boxed::new(alloc, first)?, links))
            }
        },
    }
}
