// The calls for programs in other languages: numbers, and slices as pointer and length. Each answers a refusal number, 0 for none.
// What else it answers comes back through lent numbers, which are always written: 0 where the call is refused. Lent slices stay as
// they were then.
#![tactic(auto)]

mod heads; // what is carried by value, in lent numbers
mod changing; // the calls that change a sheet
mod reading; // what is read of a sheet
mod listing; // all runs of a sheet
mod telling; // a delta in operation numbers
mod naming; // the table
