// Runs the event call at its limits. A line for each call: what the sheet is, the refusal, how many operations and units; then a line
// for each operation's numbers, and one for the units. The first number and unit behind what is written is shown too: 9, as lent.
#![tactic(auto)]

mod sheets;

use layout::head::Head;
use printing::Printer;
use sheets::{Sheet, crossed, deleted, formatted, fresh, passing, tried, turned, unset};
use std::io;

fn main(rt: HostRuntime) -> io::Result<()> {
    let rt = Printer::new(rt.stdout());
    tried(&rt, "fresh, no room", fresh(), 0, 0)?;
    let b13 = formatted();
    tried(&rt, "format, just room", b13, 16, 0)?;
    tried(&rt, "format, a number short", b13, 15, 0)?;
    tried(&rt, "added and deleted, no room", passing(), 0, 0)?;
    let all = crossed();
    tried(&rt, "text, embed and deletion, just room", all, 32, 2)?;
    tried(&rt, "text, embed and deletion, a number short", all, 31, 2)?;
    tried(&rt, "text, embed and deletion, a unit short", all, 32, 1)?;
    tried(&rt, "text, embed and deletion, room to spare", all, 64, 8)?;
    tried(&rt, "deletion, the rest stays", deleted(), 8, 0)?;
    tried(&rt, "a mark deleted", unset(), 8, 0)?;
    tried(&rt, "a mark over a mark", turned(), 8, 0)?;
    let broken = Sheet {
        head: Head {
            units: 3,
            ..all.head
        },
        ..all
    };
    tried(&rt, "broken", broken, 64, 8)?;
    tried(&rt, "broken, no room", broken, 0, 0)
}
