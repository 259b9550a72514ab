//! Scalars, each word with its operands in brackets. A chain of operators is written as the nested
//! words that it stands for.

ghost use Rattle.std.specs.Prelude.{◌≡◌, [], ◌∷◌, ◌++◌, map, codes, OnOk};
ghost use Rattle.std.specs.List.{flat_map};
ghost use Rattle.rel_algebra.specs.Plan.{on_condition, strict};
ghost use Rattle.rel_algebra.specs.PlanView.{scalar_of, scalars_of, link_of};
ghost use Rattle.rel_algebra.specs.PlanView.{unary_operation, list_word};
ghost use Rattle.rel_algebra.specs.WordView.{condition_word};
ghost use Rattle.plan_text.specs.ScalarText.{after, bracketed, comma, comparison_text};
ghost use Rattle.plan_text.specs.ScalarText.{scalar_text, scalar_texts, separated, spaced};
ghost use Rattle.plan_text.specs.ScalarText.{word_text};
ghost use Rattle.plan_text.specs.Parts.{closing, opening, openings};

use crate::condition_words::put_condition_word;
use crate::put::{put_argument, put_column, put_mark, put_value};
use crate::words::{comparison_word, listed_word, operator_word, put_unary_word};
use rel_algebra::{ConditionWord, ListWord, Scalar, ScalarLink, UnaryWord};
use reply_text::put;
use sql_values::{Comparison, NoMemory};

/// Writes a scalar. Of a chain of operators the word of the last one is outermost.
#[cycle(scalar)]
pub(crate) fn put_scalar(scalar: &Scalar, text: &mut Vec<u8>) -> Result<(), NoMemory>
    ensures { OnOk result (text.new.items ≡ text.old.items ++ scalar_text (scalar_of scalar.now)) }
{
    match scalar {
        Scalar::Constant(value) => put_value(text, value),
        Scalar::Column(level, place) => put_column(text, *level, *place),
        Scalar::Argument(place) => put_argument(text, *place),
        Scalar::Unary(word, operand) => put_unary(operand.get(), *word, text),
        Scalar::Compare(comparison, left, right) => {
            let left = left.get();
            let right = right.get();
            put_compared(text, *comparison)?;
            put_scalar(left, text)?;
            put_further(right, text)?;
            put(text, b")")
        }
        Scalar::Chain(first, links) => {
            let first = first.get();
            let links = links.as_slice();
            put_openings(text, links)?;
            put_scalar(first, text)?;
            put_closings(links, text)
        }
        Scalar::Listed(word, operands) => put_listed(operands.as_slice(), *word, text),
        Scalar::OnCondition(word, operands) => put_on_condition(operands.as_slice(), word, text),
    }
}

// Writes the word of a comparison with its bracket.
fn put_compared(text: &mut Vec<u8>, comparison: Comparison) -> Result<(), NoMemory>
    ensures { OnOk result (text.new.items ≡ text.old.items ++ (comparison_text comparison ++
        codes "(")) }
{
    put(text, comparison_word(comparison).as_bytes())?;
    put(text, b"(")
}

// Writes an operand that is not the first.
#[cycle(scalar)]
fn put_further(operand: &Scalar, text: &mut Vec<u8>) -> Result<(), NoMemory>
    ensures { OnOk result (text.new.items ≡ text.old.items ++ after comma
        (scalar_text (scalar_of operand.now))) }
{
    put(text, b", ")?;
    put_scalar(operand, text)
}

// Writes a word with its one operand.
#[cycle(scalar)]
fn put_unary(operand: &Scalar, word: UnaryWord, text: &mut Vec<u8>) -> Result<(), NoMemory>
    ensures { OnOk result (text.new.items ≡ text.old.items ++ bracketed
        (word_text (strict (unary_operation word))) (scalar_text (scalar_of operand.now) ∷ [])) }
{
    put_unary_word(text, word)?;
    put(text, b"(")?;
    put_scalar(operand, text)?;
    put(text, b")")
}

// Writes a word with a list of operands.
#[cycle(scalar)]
fn put_listed(operands: &[Scalar], word: ListWord, text: &mut Vec<u8>) -> Result<(), NoMemory>
    ensures { OnOk result (text.new.items ≡ text.old.items ++ bracketed (word_text (list_word word))
        (scalar_texts (scalars_of operands.now))) }
{
    put(text, listed_word(word).as_bytes())?;
    put(text, b"(")?;
    put_scalars(operands, text)?;
    put(text, b")")
}

// Writes a word over cells that may be conditions, with its operands.
#[cycle(scalar)]
fn put_on_condition(
    operands: &[Scalar],
    word: &ConditionWord,
    text: &mut Vec<u8>,
) -> Result<(), NoMemory>
    ensures { OnOk result (text.new.items ≡ text.old.items ++ bracketed
        (word_text (on_condition (condition_word word.now)))
        (scalar_texts (scalars_of operands.now))) }
{
    put_condition_word(text, word)?;
    put(text, b"(")?;
    put_scalars(operands, text)?;
    put(text, b")")
}

// Writes the words of operators with their brackets, the last one first.
fn put_openings(text: &mut Vec<u8>, links: &[ScalarLink]) -> Result<(), NoMemory>
    ensures { OnOk result (text.new.items ≡ text.old.items ++ openings (map link_of links.now)) }
{
    let mut left = links.len();
    while left > 0 {
        left -= 1;
        put_opening(text, &links[left])?;
    }
    Ok(())
}

// Writes the word of an operator with its bracket.
fn put_opening(text: &mut Vec<u8>, link: &ScalarLink) -> Result<(), NoMemory>
    ensures { OnOk result (text.new.items ≡ text.old.items ++ opening (link_of link.now)) }
{
    put(text, operator_word(link.operator).as_bytes())?;
    put(text, b"(")
}

// Writes what stands right of operators, each with the bracket that ends its word.
#[cycle(scalar)]
fn put_closings(links: &[ScalarLink], text: &mut Vec<u8>) -> Result<(), NoMemory>
    ensures { OnOk result (text.new.items ≡ text.old.items ++ flat_map closing
        (map link_of links.now)) }
{
    for link in links {
        put_closing(link, text)?;
    }
    Ok(())
}

// Writes what stands right of an operator.
#[cycle(scalar)]
fn put_closing(link: &ScalarLink, text: &mut Vec<u8>) -> Result<(), NoMemory>
    ensures { OnOk result (text.new.items ≡ text.old.items ++ closing (link_of link.now)) }
{
    put_further(&link.operand, text)?;
    put(text, b")")
}

/// Writes scalars, with commas between them.
#[cycle(scalar)]
pub(crate) fn put_scalars(scalars: &[Scalar], text: &mut Vec<u8>) -> Result<(), NoMemory>
    ensures { OnOk result (text.new.items ≡ text.old.items ++ separated comma
        (scalar_texts (scalars_of scalars.now))) }
{
    let mut first = true;
    for scalar in scalars {
        put_mark(text, first)?;
        put_scalar(scalar, text)?;
        first = false;
    }
    Ok(())
}

/// Writes scalars after a space, where there are any.
pub(crate) fn put_scalar_list(text: &mut Vec<u8>, scalars: &[Scalar]) -> Result<(), NoMemory>
    ensures { OnOk result (text.new.items ≡ text.old.items ++ spaced comma
        (scalar_texts (scalars_of scalars.now))) }
{
    match scalars {
        [_, ..] => {
            put(text, b" ")?;
            put_scalars(scalars, text)
        }
        [] => Ok(()),
    }
}
