// How a sheet lies in its owner's buffers.
#![tactic(auto)]

pub mod word; // an item as one packed word
pub mod head; // what is carried by value
pub mod force; // what is in force behind an item
pub mod list; // the items in the order of the links
