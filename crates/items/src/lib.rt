// The calls that change no place in the list: begin, the length, and the text of one item.
#![tactic(auto)]

ghost use Rattle.std.specs.Prelude.{◌≡◌, ◌≤◌, length};
ghost use Rattle.rules.specs.Calls.{begin_now};
ghost use Rattle.layout.specs.Memory.{leaving, carry};
ghost use Rattle.items.specs.Calls.{rest_word, sweep_to, told, length_of, text_of};

use layout::head::Head;
use layout::word::{Content, Item, pack, unpack};
use refusal::Refusal;
use soundness::{measure, sound};

// By number, since the order does not matter here.
fn drop_flags(items: &mut [u64], n: usize)
    requires { n ≤ length items.old }
    ensures { items.new ≡ sweep_to rest_word n items.old }
{
    for w in &mut items[..n] {
        *w = pack(Item {
            added: false,
            gone: false,
            ..unpack(*w)
        });
    }
}

// A transaction begins: no item is added or deleted in it yet.
pub fn begin(h: Head, items: &mut [u64], units: &[u16]) -> Result<Head, Refusal>
    ensures { leaving h result items.new units.now ≡ carry begin_now h items.old units.now }
{
    if !sound(h, items, units) {
        return Err(Refusal::Broken);
    }
    drop_flags(items, h.items as usize);
    Ok(h)
}

pub fn len(h: Head, items: &[u64], units: &[u16]) -> Result<u32, Refusal>
    ensures { told result ≡ length_of h items.now units.now }
{
    measure(h, items, units).ok_or(Refusal::Broken)
}

// The text of item n where it lies in the lent units, deleted or not; nothing where there is no such text.
pub fn text_of<'a>(h: Head, items: &[u64], units: &'a [u16], n: u32) -> &'a [u16]
    ensures { result.now ≡ text_of h items.now units.now n }
{
    if !sound(h, items, units) || n >= h.items {
        return &[];
    }
    match unpack(items[n as usize]).content {
        Content::Text { start, len } => &units[start as usize..(start + len) as usize],
        _ => &[],
    }
}
