// The units that an event inserts, one text after the other.
ghost use Rattle.std.specs.Prelude.{◌≡◌, ◌≤◌, length};
ghost use Rattle.std.proofs.lemmas.List.Edits.{sets};
ghost use Rattle.rules.specs.Sound.{Fits};
ghost use Rattle.layout.specs.Word.{what_of};
ghost use Rattle.layout.specs.Memory.{list_of};
ghost use Rattle.events.specs.Told.{units_for};
ghost use Rattle.events.specs.Walks.{Walkable, new_glyphs, given_by};

use assembling::runs::{Sight, seen_by};
use copying::copy;
use layout::head::Head;
use layout::word::{Content, unpack};

// The text that an item gives anew, if it gives one.
#[tactic(auto, using(crate::proofs::Texts::part_units))]
fn new_text(units: &[u16], s: Sight, c: Content) -> &[u16]
    requires { Fits (length units.now) (what_of c) }
    ensures { result.now ≡ units_for units.now (new_glyphs s.was s.is (what_of c)) }
{
    match c {
        Content::Text { start, len } if !s.was && s.is => {
            let start = start as usize;
            &units[start..start + len as usize]
        }
        _ => &[],
    }
}

pub(crate) fn fill(h: Head, items: &[u64], units: &[u16], back: bool, out: &mut [u16])
    requires walkable { Walkable h items.now }
    requires units_in_bounds { h.units ≤ length units.now }
    requires in_bounds { length (units_for units.now (given_by back (list_of h items.now))) ≤ length out.old }
    ensures { out.new ≡ sets out.old 0 (units_for units.now (given_by back (list_of h items.now))) }
{
    let mut n = 0;
    let mut at = h.first;
    for _ in 0..h.items {
        let it = unpack(items[at as usize]);
        let text = new_text(units, seen_by(it, back), it.content);
        copy(&mut out[n..n + text.len()], text);
        n += text.len();
        at = it.next;
    }
}
