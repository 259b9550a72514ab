//! Heights of routines: how far calls may go down (ISO/IEC 9075-4, 9.20).

ghost use Rattle.std.specs.Prelude.{◌≡◌};
ghost use Rattle.bind_faults.specs.Faults.{noted};
ghost use Rattle.bind_rules.specs.Heights as spec;

use bind_faults::{Fault, FaultKind, note_if};
use syntax_trees::Ident;

/// The greatest height that a routine may have.
pub const MOST_HEIGHT: u32 = 8;

/// Above what it calls, within the limit of heights.
pub fn height_above(called: u32) -> u32
    ensures { result ≡ spec.height_above called }
{
    if called < MOST_HEIGHT {
        called + 1
    } else {
        MOST_HEIGHT
    }
}

/// A routine that is too high.
pub fn note_height(ident: &Ident, called: u32, least: &mut Option<Fault>)
    ensures { least.new ≡ noted least.old (spec.too_high ident.now called) }
{
    let too_high = called >= MOST_HEIGHT;
    note_if(too_high, FaultKind::TooHigh, ident.anchor, least);
}
