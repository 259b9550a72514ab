//! That such functions are planned.

ghost use Rattle.block_forms.specs.Forms.{FormsArePlanned};

use block_places::seen_in_place;
use regions::form_is_planned;

/// A function that may have a plan is planned, as the catalog's routines see it, and its body is
/// the same statement where its calls run what has a plan (ISO/IEC 9075-2, 10.4).
pub fn forms_are_planned()
    ensures { FormsArePlanned }
{
    form_is_planned();
    seen_in_place();
}
