// What is written into a working copy: an item put in, a text split, an item deleted.
ghost use Rattle.std.specs.Prelude.{◌≡◌, ◌<◌, length, get_or};
ghost use Rattle.rules.specs.Edits.{put_new};
ghost use Rattle.layout.specs.Word.{what_of, unpack_of};
ghost use Rattle.arena.specs.Places.{SIZE, Linkable, Carried, Puttable, Cuttable, halving};
ghost use Rattle.arena.specs.Writes.{put_mem, put_head, kill_mem, left_text, right_text, Within, cut_mem, cut_head};

use crate::{At, Place, passed};
use layout::head::Head;
use layout::word::{Content, Item, pack, relink, unpack};

// A new item between two neighbours, or before the first.
#[tactic(auto, unfolding(crate::specs::Writes::front_mem, crate::specs::Writes::after_mem))]
fn put_after(h: Head, items: &mut [u64], left: u32, right: u32, content: Content) -> Head
    requires { (h.items < SIZE) × (length items.old ≡ SIZE) × Linkable left }
    ensures { (result ≡ put_head h left) × (items.new ≡ put_mem items.old h.items left right content) }
{
    let n = h.items;
    let w = pack(Item {
        next: right,
        content,
        dead: false,
        added: true,
        gone: false,
    });
    if left == Head::END {
        items[n as usize] = w;
        return h.grown(n, n + 1, h.units);
    }
    let l = left as usize;
    let v = relink(items[l], n);
    items[n as usize] = w;
    items[l] = v;
    h.grown(h.first, n + 1, h.units)
}

// A new item at the place, which is then right of it.
pub fn put(h: Head, items: &mut [u64], p: Place, content: Content) -> At
    requires { Puttable h items.old p content }
    ensures { Carried (put_new (what_of content)) h items.old p result.head items.new result.place }
{
    let head = put_after(h, items, p.left, p.right, content);
    let force = passed(p.force, content);
    At {
        head,
        place: Place {
            left: h.items,
            force,
            ..p
        },
    }
}

// An item is dead, and gone in this transaction.
pub fn delete(items: &mut [u64], n: u32)
    requires { n < length items.old }
    ensures { items.new ≡ kill_mem items.old n }
{
    let i = n as usize;
    let it = unpack(items[i]);
    items[i] = pack(Item {
        dead: true,
        gone: true,
        ..it
    });
}

// A text in two after n units. What is no text stays whole.
fn halves(c: Content, n: u32) -> (Content, Content)
    requires { Within n c }
    ensures { (result.0 ≡ left_text n c) × (result.1 ≡ right_text n c) }
{
    match c {
        Content::Text { start, len } => (
            Content::Text { start, len: n },
            Content::Text {
                start: start + n,
                len: len - n,
            },
        ),
        Content::Embed(_) | Content::Mark { .. } => (c, c),
    }
}

// The text of item x cut in two after n units. The right half takes the next number.
#[tactic(auto, unfolding(crate::specs::Writes::cut_mem))]
fn cut(h: Head, items: &mut [u64], x: u32, n: u32) -> Head
    requires { (h.items < SIZE) × (length items.old ≡ SIZE) × (x < SIZE) × Within n (unpack_of (get_or items.old x 0)).content }
    ensures { (result ≡ cut_head h) × (items.new ≡ cut_mem items.old h.items x n) }
{
    let new = h.items;
    let i = x as usize;
    let it = unpack(items[i]);
    let (left, right) = halves(it.content, n);
    items[new as usize] = pack(Item {
        content: right,
        ..it
    });
    items[i] = pack(Item {
        next: new,
        content: left,
        ..it
    });
    h.grown(h.first, new + 1, h.units)
}

// The text right of the place split after n units; the place stays.
pub fn split(h: Head, items: &mut [u64], p: Place, n: u32) -> At
    requires { Cuttable h items.old p n }
    ensures { Carried (halving n) h items.old p result.head items.new result.place }
{
    let head = cut(h, items, p.right, n);
    At {
        head,
        place: Place {
            todo: p.todo + 1,
            ..p
        },
    }
}
