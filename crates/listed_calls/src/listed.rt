//! What is made lists what it calls, and catalogs keep this.

ghost use Rattle.listed_calls.specs.Kept.{CallsKept};
ghost use Rattle.listed_calls.specs.Listed.{CallsNoted, NewRoutinesList};

/// A statement without faults notes what it calls (ISO/IEC 9075-2, 10.4 and 15.1).
pub fn calls_noted()
    ensures { CallsNoted }
{}

/// What a statement without faults makes lists in its head what its body calls (11.60).
pub fn new_routines_list()
    ensures { NewRoutinesList }
{}

/// Calls stand before what calls them as entries are made and dropped (11.60 and 11.62).
pub fn calls_kept()
    ensures { CallsKept }
{}
