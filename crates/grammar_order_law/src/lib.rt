//! That declarations of statements that the grammar spells stand in their order.
#![tactic(auto)]
