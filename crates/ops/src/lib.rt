// Operations and deltas by value.
#![tactic(auto)]

pub mod delta;
