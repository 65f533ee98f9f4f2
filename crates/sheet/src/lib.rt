// A sheet's calls: every refusal, and all or nothing.
#![tactic(auto)]

pub mod insert; // text and embeds
pub mod range; // a range formatted or removed
