// The edits that put something, carried out in a working copy from a place.
#![tactic(auto)]

pub mod insert; // new text and embeds
pub mod format; // a range formatted
