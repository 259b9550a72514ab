//! Short lists of what was read.

ghost use Rattle.std.specs.Prelude.{◌≡◌, ◌∷◌, ◌++◌, IfOk};
ghost use Rattle.grammar_sql.specs.Trees as trees;

use sqlite_items::Items;
use std::alloc::{AllocError, Global};

/// A list with one more in front. It reads nothing.
pub fn with_first<T: Drop>(alloc: Global, first: T, more: Items<T>) -> Result<Items<T>, AllocError>
    ensures { IfOk result (λ all. all ≡ first ∷ more) }
{
    let mut all = Items::from_vec(Vec::with_capacity(alloc, more.len().saturating_add(1))?);
    all.push(first)?;
    all.append(more)?;
    Ok(all)
}

/// A list of one. It reads nothing, and has no room for a second.
pub fn only<T: Drop>(alloc: Global, item: T) -> Result<Items<T>, AllocError>
    ensures { IfOk result (λ all. all ≡ trees.only item) }
{
    let mut all = Items::from_vec(Vec::with_capacity(alloc, 1)?);
    all.push(item)?;
    Ok(all)
}

/// A list of one, as a repetition begins, with room for a second. It reads nothing.
pub fn begun<T: Drop>(alloc: Global, item: T) -> Result<Items<T>, AllocError>
    ensures { IfOk result (λ all. all ≡ trees.only item) }
{
    let mut all = Items::from_vec(Vec::with_capacity(alloc, 2)?);
    all.push(item)?;
    Ok(all)
}

/// A list of two. It reads nothing.
pub fn pair<T: Drop>(alloc: Global, first: T, second: T) -> Result<Items<T>, AllocError>
    ensures { IfOk result (λ all. all ≡ first ∷ trees.only second) }
{
    let mut all = Items::from_vec(Vec::with_capacity(alloc, 2)?);
    all.push(first)?;
    all.push(second)?;
    Ok(all)
}

/// A list of one where there is one, else of none. It reads nothing.
pub fn if_one<T: Drop>(alloc: Global, item: Option<T>) -> Result<Items<T>, AllocError>
    ensures { IfOk result (λ all. all ≡ trees.if_one item) }
{
    match item {
        None => Ok(Items::new(alloc)),
        Some(item) => only(alloc, item),
    }
}

/// A list, and one more after it where there is one. It reads nothing.
pub fn ended_by<T: Drop>(
    alloc: Global,
    first: Items<T>,
    last: Option<T>,
) -> Result<Items<T>, AllocError>
    ensures { IfOk result (λ all. all ≡ first ++ trees.if_one last) }
{
    let mut all = first;
    all.append(if_one(alloc, last)?)?;
    Ok(all)
}
