// An event's operations are assembled by value, item by item.
#![tactic(auto)]

pub mod runs; // the run that grows
pub mod marks; // what a mark changes
pub mod assembler; // what an item does to all of it
