//! Parts that stand one after another: what was read with what was read before it or after it.

ghost use Rattle.std.specs.Prelude.{◌≡◌, [], ◌∷◌, ◌++◌, List, Ok};
ghost use Rattle.sql_lex.specs.declared.token.Token.{Token};
ghost use Rattle.grammar_algebra.specs.Reading.{Outcome, expect, mapped, ◌>>=◌ as ◌and_then◌};
ghost use Rattle.grammar_algebra.specs.Reads.{Reads};
ghost use Rattle.grammar_sql.specs.Trees as trees;

use grammar_algebra::{Input, ParseError};
use parse_nodes::{begun, pair};
use sql_lex::TokenKind;
use sqlite_items::Items;
use std::alloc::Global;

/// What was read, with what was read before it. It reads nothing.
pub fn paired<A: Drop, B: Drop>(first: A, read: Result<B, ParseError>) -> Result<(A, B), ParseError>
    ensures { (outcome : Outcome B) → (rest : List Token) → Reads outcome read rest →
        Reads (mapped (λ second. (first, second)) outcome) result rest }
{
    match read {
        Ok(second) => Ok((first, second)),
        Err(error) => Err(error),
    }
}

/// What was read, put to those before it. It reads nothing.
pub fn put<T: Drop>(found: Items<T>, read: Result<T, ParseError>) -> Result<Items<T>, ParseError>
    ensures { (outcome : Outcome T) → (rest : List Token) → Reads outcome read rest →
        Reads (mapped (λ next. found ++ next ∷ []) outcome) result rest }
{
    match read {
        Ok(next) => {
            let mut found = found;
            found.push(next)?;
            Ok(found)
        }
        Err(error) => Err(error),
    }
}

/// What was read, with a token of the kind after it, as it closes a construct. On Ok the input
/// stands after that token. NoStatement: another token stands here, or none.
pub fn closed<T: Drop>(
    input: &mut Input<'_>,
    kind: TokenKind,
    read: Result<T, ParseError>,
) -> Result<T, ParseError>
    ensures { (outcome : Outcome T) → Reads outcome read input.old.rest.now →
        Reads (outcome and_then λ p. expect kind p.1 and_then λ q. Ok (p.0, q.1)) result
        input.new.rest.now }
{
    input.close(kind, read?)
}

// ---- lists

/// A list of what was read first, as a repetition begins, with room for a second. It reads nothing.
pub fn begun_read<T: Drop>(
    alloc: Global,
    read: Result<T, ParseError>,
) -> Result<Items<T>, ParseError>
    ensures { (outcome : Outcome T) → (rest : List Token) → Reads outcome read rest →
        Reads (mapped (λ first. trees.only first) outcome) result rest }
{
    Ok(begun(alloc, read?)?)
}

/// A list of two that were read. It reads nothing.
pub fn pair_read<T: Drop>(
    alloc: Global,
    read: Result<(T, T), ParseError>,
) -> Result<Items<T>, ParseError>
    ensures { (outcome : Outcome (T × T)) → (rest : List Token) → Reads outcome read rest →
        Reads (mapped (λ p. p.0 ∷ trees.only p.1) outcome) result rest }
{
    let (first, second) = read?;
    Ok(pair(alloc, first, second)?)
}

/// What was read, put to those before it. It reads nothing.
pub fn appended<T: Drop>(
    found: Items<T>,
    read: Result<Items<T>, ParseError>,
) -> Result<Items<T>, ParseError>
    ensures { (outcome : Outcome (List T)) → (rest : List Token) → Reads outcome read rest →
        Reads (mapped (λ next. found ++ next) outcome) result rest }
{
    match read {
        Ok(next) => {
            let mut found = found;
            found.append(next)?;
            Ok(found)
        }
        Err(error) => Err(error),
    }
}
