// Reads one call a line from standard input, and writes `refused N` for each refused one; at the end the length and the joined runs.
#![tactic(auto)]

mod say; // parts of lines, written
mod letters; // text as a person reads it
mod answer; // the length, runs, items and the event of a sheet
mod state; // what is kept from line to line
mod delta; // a line with a delta
mod names; // a line for the table
mod edit; // one line's call
mod input; // lines from standard input

use printing::Printer;
use state::State;
use std::io;

fn main(rt: HostRuntime) -> io::Result<()> {
    let mut buf = [0; input::ROOM];
    let mut state = State::fresh();
    let out = Printer::new(rt.stdout());
    input::all_lines(&out, rt.stdin(), &mut buf, &mut state)?;
    answer::last(&out, &state.sheet)
}
