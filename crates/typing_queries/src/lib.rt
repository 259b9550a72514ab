//! That expressions and queries without faults, and all parts of them, are bound to well typed
//! trees.
#![tactic(auto)]
