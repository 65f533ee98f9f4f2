// The words of a line: told apart, read as numbers, and written; and lines of input that comes in parts.
#![tactic(auto)]

pub mod words; // runs of bytes of one class; the next word
pub mod numbers; // what a word says: a number, a unit, an attribute
pub mod show; // numbers, units and attributes, written
pub mod input; // lines of input that comes in parts
