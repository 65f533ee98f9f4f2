// Marks around a place: which are passed, which are put.
#![tactic(auto)]

ghost use Rattle.std.specs.Prelude.{◌≡◌, ◌+◌, ◌/◌, ◌≤◌};
ghost use Rattle.attrs.specs.Packed.{says};
ghost use Rattle.layout.specs.Chain.{item_from};
ghost use Rattle.rules.specs.Edits.{closing};
ghost use Rattle.arena.specs.Places.{SIZE, Standing, Carried, Going};
ghost use Rattle.marks.specs.Moves.{settling, passable, putting, dropping};
ghost use Rattle.marks.specs.Opens.{Opens};

use arena::writes::put;
use arena::{At, Place, forward};
use attrs::Attrs;
use layout::head::Head;
use layout::word::{Content, unpack};
use sets::KeyWalk;

// A deleted item, or a mark that the set agrees with.
fn passes(w: u64, attrs: Attrs) -> bool
    ensures { result ≡ passable (says attrs) (item_from 0 (w / 4096)) }
{
    let it = unpack(w);
    it.dead || matches!(it.content, Content::Mark { key, value } if attrs.agrees(key, value))
}

pub fn minimize_attr_changes(h: Head, items: &[u64], p: Place, attrs: Attrs) -> Place
    requires { Standing h items.now p }
    ensures { Carried (settling (says attrs)) h items.now p h items.now result }
{
    let mut at = p;
    // The count is the place's own, which callers read: a `for` would count beside it, no plainer.
    while at.todo > 0 && passes(items[at.right as usize], attrs) {
        at = forward(items, at);
    }
    at
}

// A mark for each key of the set, ascending.
pub fn put_marks(h: Head, items: &mut [u64], p: Place, set: Attrs) -> At
    requires { Standing h items.old p × (h.items + 16 ≤ SIZE) }
    ensures { Carried (putting (says set)) h items.old p result.head items.new result.place }
{
    let mut at = At { head: h, place: p };
    for key in KeyWalk::over(set.mask) {
        let value = set.get(key);
        at = put(at.head, items, at.place, Content::Mark { key, value });
    }
    at
}

// A place, its head, and the values that are still to be put in force again there.
#[derive(Clone, Copy)]
pub struct Opened {
    pub at: At,
    pub remembered: Attrs,
}

pub fn insert_attributes(h: Head, items: &mut [u64], p: Place, attrs: Attrs) -> Opened
    requires { Standing h items.old p × (h.items + 16 ≤ SIZE) }
    ensures { Opens (says attrs) h items.old p result.at.head items.new result.at.place result.remembered }
{
    let differing = attrs.differing(p.force);
    let remembered = attrs.remembered(p.force);
    Opened {
        at: put_marks(h, items, p, differing),
        remembered,
    }
}

// What is still remembered behind an item that was passed.
fn dropped(w: u64, remembered: Attrs) -> Attrs
    ensures { says result ≡ dropping (says remembered) (item_from 0 (w / 4096)) }
{
    let it = unpack(w);
    if it.dead {
        return remembered;
    }
    match it.content {
        Content::Text { .. } | Content::Embed(_) => remembered,
        Content::Mark { key, .. } => remembered.without(key),
    }
}

// Past deleted items and marks that restore a remembered value.
fn drop_restored(h: Head, items: &[u64], p: Place, remembered: Attrs) -> Opened
    requires { Standing h items.now p }
    ensures head { result.at.head ≡ h }
    ensures going { Going (closing (says remembered)) h items.now p (putting (says result.remembered)) h items.now result.at.place }
{
    let mut at = p;
    let mut left = remembered;
    // The count is the place's own, which callers read: a `for` would count beside it, no plainer.
    while at.todo > 0 && passes(items[at.right as usize], left) {
        left = dropped(items[at.right as usize], left);
        at = forward(items, at);
    }
    Opened {
        at: At { head: h, place: at },
        remembered: left,
    }
}

pub fn insert_negated_attributes(h: Head, items: &mut [u64], p: Place, remembered: Attrs) -> At
    requires { Standing h items.old p × (h.items + 16 ≤ SIZE) }
    ensures { Carried (closing (says remembered)) h items.old p result.head items.new result.place }
{
    let stop = drop_restored(h, items, p, remembered);
    put_marks(h, items, stop.at.place, stop.remembered)
}
