// Runs: what a reader of a sheet sees, cut where a mark or an embed ends a text.
#![tactic(auto)]

pub mod calls; // how many runs, and one of them by number
pub mod fill; // all of them into a lent slice
