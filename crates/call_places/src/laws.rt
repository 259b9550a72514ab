//! Worked rows.

ghost use Rattle.call_places.specs.Examples.{PlacesAreCounted};

/// Which places are counted, and how often.
pub fn places_are_counted()
    ensures { PlacesAreCounted }
{}
