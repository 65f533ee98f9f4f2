// An edit by index, all or nothing: carried out in a working copy, and copied back where it fits.
#![tactic(auto)]

pub mod change; // what an edit does at its place
pub mod frame; // into the working copy, and back
pub mod append; // new units
