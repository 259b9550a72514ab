//! In which order the declarations of compound statements stand.
#![tactic(auto)]
