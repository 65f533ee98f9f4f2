// The visible units of a range, copied out: so a run's text can be had by its start and length.
#![tactic(auto)]

ghost use Rattle.std.specs.Prelude.{◌≡◌, ◌<◌, length};
ghost use Rattle.std.specs.Iterator.{YieldsFirst, item_count};
ghost use Rattle.layout.specs.Word.{what_of};
ghost use Rattle.rules.specs.Sheet.{width as width_of};
ghost use Rattle.runs.specs.Answers.{told};
ghost use Rattle.ranges.specs.Texts.{unit_in, left, text_answer, Reads, LiesIn, Shows, Copied};

use layout::head::Head;
use layout::word::{Content, shown_len, unpack};
use refusal::Refusal;
use refusals::range_fault;

// The visible units from a place on, an embed as a unit 0: an item's content, unpacked once for all its units, how many of them are
// visible, and how many visible units from its first on are passed over; then the next item, and how many are left with it.
#[derive(Drop)]
struct Seen<'a> {
    items: &'a [u64],
    units: &'a [u16],
    content: Content,
    width: u64,
    off: u64,
    at: u32,
    todo: u32,
}

impl<'a> Iterator for Seen<'a> {
    type Item = u16;

    ghost can_next = { λ s. Reads s.items.now s.units.now s.at s.todo × Shows (length s.units.now) (what_of s.content) s.width };

    ghost next_gives = { YieldsFirst left };

    ghost remaining = { item_count left };

    // The count of the items that are left is the iterator's own, for the call after this one.
    fn next(&mut self) -> Option<u16> {
        while self.off >= self.width {
            if self.todo == 0 {
                return None;
            }
            let it = unpack(self.items[self.at as usize]);
            self.off -= self.width;
            self.content = it.content;
            self.width = u64::from(shown_len(it));
            self.at = it.next;
            self.todo -= 1;
        }
        let unit = unit_in(self.units, self.content, self.off);
        self.off += 1;
        Some(unit)
    }
}

#[tactic(auto, unfolding(crate::specs::Texts::unit_in))]
fn unit_in(units: &[u16], c: Content, k: u64) -> u16
    requires lies_in { LiesIn (length units.now) (what_of c) }
    requires k_bound { k < width_of (what_of c) }
    ensures { result ≡ unit_in units.now (what_of c) k }
{
    match c {
        Content::Text { start, .. } => units[start as usize + k as usize],
        Content::Embed(_) | Content::Mark { .. } => 0,
    }
}

// How many units are answered where there is room for so many.
fn plan(
    h: Head,
    items: &[u64],
    units: &[u16],
    index: u32,
    len: u32,
    room: usize,
) -> Result<usize, Refusal>
    ensures { told result ≡ text_answer h items.now units.now index len room }
{
    let all = items::len(h, items, units)?;
    range_fault(h, items, units, index, len)?;
    let count = len.min(all.saturating_sub(index)) as usize;
    if count > room {
        return Err(Refusal::Out);
    }
    Ok(count)
}

// An embed is written as a unit 0. A range that reaches past the visible text ends with it.
pub fn text_of_range(
    h: Head,
    items: &[u64],
    units: &[u16],
    index: u32,
    len: u32,
    out: &mut [u16],
) -> Result<usize, Refusal>
    ensures { Copied h items.now units.now index len out.old out.new (told result) }
{
    let count = plan(h, items, units, index, len, out.len())?;
    let seen = Seen {
        items,
        units,
        content: Content::Mark { key: 0, value: 0 },
        width: 0,
        off: u64::from(index),
        at: h.first,
        todo: h.items,
    };
    for (i, unit) in seen.take(count).enumerate() {
        out[i] = unit;
    }
    Ok(count)
}
