// Runs the calls of `items` at their limits. A line for each sheet: what it is, then 1 where it is sound and 0 where it is broken.
#![tactic(auto)]

use printing::Printer;
use std::io;

mod sheets;
mod tests;

fn main(rt: HostRuntime) -> io::Result<()> {
    let rt = Printer::new(rt.stdout());
    tests::sizes(&rt)?;
    tests::links(&rt)?;
    tests::pieces(&rt)?;
    tests::pairs(&rt)?;
    tests::words(&rt)?;
    tests::flags(&rt)?;
    tests::full(&rt)?;
    tests::calls(&rt)
}
