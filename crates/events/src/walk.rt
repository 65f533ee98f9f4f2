// The walk of an event over the items, by the links.
ghost use Rattle.std.specs.Prelude.{◌*◌, ◌≤◌, length};
ghost use Rattle.layout.specs.Memory.{list_of};
ghost use Rattle.events.specs.Walks.{Walkable, Walked};

use crate::event::Written;
use crate::telling::{Count, tell};
use assembling::assembler::{Assembler, add_op, pass};
use assembling::runs::{inserted, seen_by};
use layout::head::Head;
use layout::word::unpack;

// Measures the event, and writes its operations while fewer than `limit` are: none with 0, and with the measured number just those
// that are not dropped.
pub(crate) fn walk(h: Head, items: &[u64], back: bool, limit: u32, ops: &mut [u32]) -> Written
    requires walkable { Walkable h items.now }
    requires limit_in_bounds { limit * 8 ≤ length ops.old }
    ensures { Walked back limit (list_of h items.now) result ops.old ops.new }
{
    let mut a = Assembler::fresh();
    let mut n = Count { told: 0, kept: 0 };
    let mut at = h.first;
    for _ in 0..h.items {
        let it = unpack(items[at as usize]);
        let p = pass(a, seen_by(it, back), it.content);
        n = tell(ops, n, limit, p.first);
        n = tell(ops, n, limit, p.second);
        a = p.asm;
        at = it.next;
    }
    n = tell(ops, n, limit, add_op(a));
    Written {
        ops: n.kept,
        units: a.units + inserted(a.run),
    }
}
