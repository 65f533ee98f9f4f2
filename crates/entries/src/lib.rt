// Entries in lent bytes: their kinds, the slots that they lie in, and when slots are in order. What `table` is built from.
#![tactic(auto)]

pub mod kinds;
pub mod slots;
pub mod soundness;
