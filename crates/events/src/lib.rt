// The event: what the current transaction did, as operations over the text that stood before it.
#![tactic(auto)]

pub mod telling; // operations told one after the other into lent numbers
pub mod walk; // the walks over the items
pub mod fill; // the units that are inserted
pub mod event; // the call
