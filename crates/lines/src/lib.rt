// The program's lines: what a line asks for.
#![tactic(auto)]

pub mod fields; // the units and attributes of a line
pub mod calls; // the call of a line
pub mod deltas; // the operations of a delta
pub mod asks; // what is asked of the table
