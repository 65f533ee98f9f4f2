// The runs of a sheet, one after the other.
#![tactic(auto)]

pub mod run; // a run by value
pub mod walk; // the runs from a place in the list on
