// The operations of a delta carried out one after the other, in a working copy.
#![tactic(auto)]

pub mod turns; // one operation, and all of them
pub mod frame; // from the sheet into the working copy, and back
