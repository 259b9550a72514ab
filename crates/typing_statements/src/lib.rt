//! That statements without faults are bound to well typed trees.
#![tactic(auto)]
