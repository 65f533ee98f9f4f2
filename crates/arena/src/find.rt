// The place at an index.
ghost use Rattle.std.specs.Prelude.{◌<◌};
ghost use Rattle.arena.specs.Places.{SIZE, Arena, Carried, start_of, placing};

use crate::writes::split;
use crate::{At, Place, forward};
use layout::head::Head;
use layout::word::{shown_len, unpack};

// The place at an index, from the first item on. A text that the index ends in is split there.
pub fn find_position(h: Head, items: &mut [u64], index: u32) -> At
    requires { Arena h items.old × (h.items < SIZE) }
    ensures { Carried (placing index) h items.old (start_of h) result.head items.new result.place }
{
    let mut p = Place::start(h);
    let mut rest = index;
    // The count is the place's own, which callers read: a `for` would count beside it, no plainer.
    while p.todo > 0 {
        if rest == 0 {
            break;
        }
        let it = unpack(items[p.right as usize]);
        let w = shown_len(it);
        if rest < w {
            let cut = split(h, items, p, rest);
            let place = forward(items, cut.place);
            return At {
                head: cut.head,
                place,
            };
        }
        rest -= w;
        p.pass(it);
    }
    At { head: h, place: p }
}
