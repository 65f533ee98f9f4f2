// Runs the calls of `runs` at their limits. A line for each run, by its number: what it is, its start and length in visible units,
// its embed number, how many keys are in force, and the value of key 0.
#![tactic(auto)]

use printing::Printer;
use std::io;

mod sheets;
mod tests;

fn main(rt: HostRuntime) -> io::Result<()> {
    let rt = Printer::new(rt.stdout());
    tests::empty(&rt)?;
    tests::one(&rt)?;
    tests::formatted(&rt)?;
    tests::removed(&rt)?;
    tests::embeds(&rt)?;
    tests::broken(&rt)?;
    tests::full(&rt)?;
    tests::texts(&rt)
}
