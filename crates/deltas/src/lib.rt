// A delta: its operations one after the other, all or nothing.
#![tactic(auto)]

mod checks; // what is read off it first
mod faults; // what is wrong with its operations
mod append; // the texts it brings
pub mod apply; // the call
