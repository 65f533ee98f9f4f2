// Whether an index into the visible text falls inside a surrogate pair. Pieces hold no half pairs, so one piece decides.
#![tactic(auto)]

ghost use Rattle.std.specs.Prelude.{◌≡◌, length};
ghost use Rattle.units.specs.Surrogates.{splits_pair};
ghost use Rattle.rules.specs.Calls.{visible_units};
ghost use Rattle.layout.specs.Word.{what_of};
ghost use Rattle.layout.specs.Memory.{list_of};
ghost use Rattle.cuts.specs.Cuts.{cuts_piece, Lies, Readable};

use layout::head::Head;
use layout::list::Items;
use layout::word::{Content, shown_len};

fn cuts_piece(c: Content, used: &[u16], index: u32) -> bool
    requires { Lies (length used.now) (what_of c) }
    ensures { result ≡ cuts_piece used.now (what_of c) index }
{
    match c {
        Content::Text { start, len } => {
            let start = start as usize;
            units::splits_pair(&used[start..start + len as usize], index)
        }
        _ => false,
    }
}

fn falls_in_pair(h: Head, items: &[u64], used: &[u16], index: u64) -> bool
    requires { Readable h items.now used.now }
    ensures { result ≡ splits_pair (visible_units used.now (list_of h items.now)) index }
{
    let mut rest = index;
    for (_, it) in Items::new(h, items) {
        let w = shown_len(it) as u64;
        if rest < w {
            return cuts_piece(it.content, used, rest as u32);
        }
        rest -= w;
    }
    false
}

// `used` are the units in use; where none of them is half of a pair, no item has to be passed. The index is of 64 bits, so that an index
// and a length add up exactly.
pub fn cuts_pair(h: Head, items: &[u64], used: &[u16], index: u64) -> bool
    requires { Readable h items.now used.now }
    ensures { result ≡ splits_pair (visible_units used.now (list_of h items.now)) index }
{
    !units::is_plain(used) && falls_in_pair(h, items, used, index)
}
