// Formatting a range from a place on.
ghost use Rattle.std.specs.Prelude.{◌≡◌, ◌+◌, ◌<◌, ◌≤◌};
ghost use Rattle.attrs.specs.Packed.{says};
ghost use Rattle.rules.specs.Edits.{key_in, remember, closing, walking, format};
ghost use Rattle.layout.specs.Word.{what_of, unpack_of};
ghost use Rattle.arena.specs.Places.{SIZE, Neat, Standing, Carried, Going};
ghost use Rattle.edits.specs.Formats.{walks_over, turn_of};

use arena::writes::{delete, split};
use arena::{At, Place, forward};
use attrs::Attrs;
use layout::head::Head;
use layout::word::{Content, Item, is_mark, unpack, width};
use marks::{Opened, insert_attributes, insert_negated_attributes, minimize_attr_changes};

// What the walk does with the item right of it. A closure for each would be no plainer: each needs all that the walk has.
#[derive(Clone, Copy)]
enum Turn {
    // The walk ends before it.
    Stop,
    // A deleted item is passed.
    Pass,
    // A mark of a key that the set has is deleted.
    Mark,
    // What fits is gone through.
    Through,
    // A longer text is cut.
    Cut,
}

// While length is left, or while something is remembered and only marks and deleted items follow.
fn walks_on(it: Item, left: u32, remembered: Attrs) -> bool
    ensures { result ≡ walks_over left (says remembered) it.dead (what_of it.content) }
{
    left > 0 || !remembered.is_empty() && (it.dead || is_mark(it.content))
}

// A mark of a key that the set has.
fn has_key_of(attrs: Attrs, c: Content) -> bool
    ensures { result ≡ key_in (says attrs) (what_of c) }
{
    matches!(c, Content::Mark { key, .. } if attrs.has(key))
}

#[tactic(auto, unfolding(crate::specs::Formats::turn_of, crate::specs::Formats::live_turn))]
fn turn_of(w: u64, left: u32, attrs: Attrs, remembered: Attrs) -> Turn
    ensures { result ≡ turn_of (says attrs) left (says remembered) (unpack_of w).dead (what_of (unpack_of w).content) }
{
    let it = unpack(w);
    if !walks_on(it, left, remembered) {
        return Turn::Stop;
    }
    if it.dead {
        return Turn::Pass;
    }
    if has_key_of(attrs, it.content) {
        return Turn::Mark;
    }
    if width(it.content) <= left {
        return Turn::Through;
    }
    Turn::Cut
}

// A deleted mark of the set's own value is forgotten; one of another value is what to restore.
fn remembered_after(w: u64, attrs: Attrs, remembered: Attrs) -> Attrs
    requires { Neat w }
    ensures { says result ≡ remember (says attrs) (what_of (unpack_of w).content) (says remembered) }
{
    match unpack(w).content {
        Content::Text { .. } | Content::Embed(_) => remembered,
        Content::Mark { key, value } => {
            if attrs.agrees(key, value) {
                return remembered.without(key);
            }
            remembered.with(key, value).unwrap_or(remembered)
        }
    }
}

// Where the walk ended, and what is still to be put in force again there.
fn walk(h: Head, items: &mut [u64], p: Place, len: u32, attrs: Attrs, remembered: Attrs) -> Opened
    requires { Standing h items.old p × (h.items < SIZE) }
    ensures going { Going (walking (says attrs) len (says remembered)) h items.old p (closing (says result.remembered)) result.at.head items.new result.at.place }
    ensures room { result.at.head.items ≤ h.items + 1 }
{
    let mut at = p;
    let mut left = len;
    let mut rest = remembered;
    // The count is the place's own, which callers read: a `for` would count beside it, no plainer.
    while at.todo > 0 {
        let w = items[at.right as usize];
        match turn_of(w, left, attrs, rest) {
            Turn::Stop => break,
            Turn::Pass => {}
            Turn::Mark => {
                delete(items, at.right);
                rest = remembered_after(w, attrs, rest);
            }
            Turn::Through => left -= width(unpack(w).content),
            Turn::Cut => {
                let cut = split(h, items, at, left);
                let place = forward(items, cut.place);
                return Opened {
                    at: At {
                        head: cut.head,
                        place,
                    },
                    remembered: rest,
                };
            }
        }
        at = forward(items, at);
    }
    Opened {
        at: At { head: h, place: at },
        remembered: rest,
    }
}

pub fn insert_format(h: Head, items: &mut [u64], p: Place, len: u32, attrs: Attrs) -> At
    requires { Standing h items.old p × (h.items + 33 ≤ SIZE) }
    ensures { Carried (format (says attrs) len) h items.old p result.head items.new result.place }
{
    let from = minimize_attr_changes(h, items, p, attrs);
    let opened = insert_attributes(h, items, from, attrs);
    let walked = walk(
        opened.at.head,
        items,
        opened.at.place,
        len,
        attrs,
        opened.remembered,
    );
    insert_negated_attributes(walked.at.head, items, walked.at.place, walked.remembered)
}
