//! Which cells that a Keep keeps are those that stood there before.

ghost use Rattle.std.specs.Prelude.{◌≡◌, ◌<◌, ℕ, true, length, get_or};
ghost use Rattle.rel_algebra.specs.Plan.{Sight, cell_at, cells_of, cells_row};
ghost use Rattle.rel_algebra.specs.PlanView.{scalars_of};
ghost use Rattle.region_steps.specs.Idle.{IsGuarded, IsKept, IsNotAt};

use crate::guards::guarded;
use rel_algebra::Scalar;

/// Whether the cells at all these places, of a row of so many cells with those of scalars after its
/// own, are those that stand in the row where the first cell is another number.
pub(crate) fn are_kept(scalars: &[Scalar], code: i64, width: usize, places: &[usize]) -> bool
    ensures { result ≡ true → (k : ℕ) → k < length places.now →
        IsKept scalars.now code width (get_or places.now k 0) k }
{
    for at in 0..places.len() {
        if !is_kept(scalars, code, width, places[at], at) {
            return false;
        }
    }
    true
}

// The same of one place.
fn is_kept(scalars: &[Scalar], code: i64, width: usize, place: usize, at: usize) -> bool
    ensures { result ≡ true → IsKept scalars.now code width place at }
{
    if place < width {
        return place == at;
    }
    let after = place - width;
    if at < width {
        return is_guarded_at(scalars, code, after, at);
    }
    false
}

// Whether the scalar of an index is the cell at a place where the first cell is another number.
fn is_guarded_at(scalars: &[Scalar], code: i64, index: usize, at: usize) -> bool
    ensures { result ≡ true → (s : Sight) → IsNotAt code (cells_row s.rows 0) →
        cell_at (cells_of (scalars_of scalars.now) s) index ≡ cell_at (cells_row s.rows 0) at }
{
    if index < scalars.len() {
        return is_guarded(&scalars[index], code, at);
    }
    false
}

// Whether a scalar is the cell at a place where the first cell is another number.
fn is_guarded(scalar: &Scalar, code: i64, at: usize) -> bool
    ensures { result ≡ true → IsGuarded scalar.now code at }
{
    match guarded(scalar) {
        Some((number, place)) => number == code && place == at,
        None => false,
    }
}
