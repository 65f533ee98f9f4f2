// Removing: units deleted from a place on, and marks that then do nothing.
#![tactic(auto)]

ghost use Rattle.std.specs.Prelude.{◌≡◌, cond, ◌/◌, ◌-◌, ◌<◌, ◌≤◌, length};
ghost use Rattle.attrs.specs.Packed.{env_of};
ghost use Rattle.rules.specs.Sheet.{mark, is_mark};
ghost use Rattle.rules.specs.Edits.{idle, remove_here, delete_here};
ghost use Rattle.layout.specs.Word.{what_of};
ghost use Rattle.layout.specs.Chain.{item_from};
ghost use Rattle.arena.specs.Places.{SIZE, Standing, Carried};
ghost use Rattle.arena.specs.Writes.{kill_mem};
ghost use Rattle.removal.specs.Tidies.{idle_item, deleting, ending, tidy_first, tidying, delete_tidy};

use arena::writes::{delete, split};
use arena::{At, Place, forward};
use attrs::Attrs;
use layout::head::Head;
use layout::word::{Content, is_mark, shown_len, unpack};

// The next `len` live units are deleted; a text that they end in is split. The place is where that ends.
fn delete_units(h: Head, items: &mut [u64], p: Place, len: u32) -> At
    requires { Standing h items.old p × (h.items < SIZE) }
    ensures { Carried (deleting len) h items.old p result.head items.new result.place }
{
    let mut at = p;
    let mut rest = len;
    // The count is the place's own, which callers read: a `for` would count beside it, no plainer.
    while at.todo > 0 {
        if rest == 0 {
            break;
        }
        let w = shown_len(unpack(items[at.right as usize]));
        if rest < w {
            let cut = split(h, items, at, rest);
            delete(items, cut.place.right);
            let place = forward(items, cut.place);
            return At {
                head: cut.head,
                place,
            };
        }
        if w > 0 {
            delete(items, at.right);
        }
        rest -= w;
        at = forward(items, at);
    }
    At { head: h, place: at }
}

// A mark, live or deleted: what is right of it is in the same gap.
fn stays_in_gap(w: u64) -> bool
    ensures { result ≡ is_mark (item_from 0 (w / 4096)).what }
{
    is_mark(unpack(w).content)
}

// The place before the next text or embed, live or deleted, or the list's end.
fn gap_end(h: Head, items: &[u64], p: Place) -> Place
    requires { Standing h items.now p }
    ensures { Carried ending h items.now p h items.now result }
{
    let mut at = p;
    // The count is the place's own, which callers read: a `for` would count beside it, no plainer.
    while at.todo > 0 && stays_in_gap(items[at.right as usize]) {
        at = forward(items, at);
    }
    at
}

// A mark does nothing in a gap if its value is not the one at the gap's end, or is the one at its start.
fn does_nothing(key: u32, value: u32, start: Attrs, end: Attrs) -> bool
    ensures { result ≡ idle (env_of start) (env_of end) (mark key value) }
{
    value != end.get(key) || value == start.get(key)
}

fn is_idle(w: u64, start: Attrs, end: Attrs) -> bool
    ensures { result ≡ idle_item (env_of start) (env_of end) (item_from 0 (w / 4096)) }
{
    let it = unpack(w);
    !it.dead
        && matches!(it.content, Content::Mark { key, value } if does_nothing(key, value, start, end))
}

// Live marks that do nothing are deleted, up to the place that has `stop` items to its right.
fn tidy_until(h: Head, items: &mut [u64], p: Place, stop: u32, start: Attrs, end: Attrs) -> Place
    requires { Standing h items.old p }
    ensures { Carried (tidy_first (p.todo - stop) (env_of start) (env_of end)) h items.old p h items.new result }
{
    let mut at = p;
    // The count is the place's own, which callers read: a `for` would count beside it, no plainer.
    while at.todo > stop {
        if is_idle(items[at.right as usize], start, end) {
            delete(items, at.right);
        }
        at = forward(items, at);
    }
    at
}

// Rule Tidy, from the place where a deletion began, `start`, and the one where it stopped. The answer is the latter, with
// what is in force there now.
fn clean_format_gap(h: Head, items: &mut [u64], start: Place, stop: Place) -> Place
    requires { Standing h items.old start × Standing h items.old stop × (stop.todo ≤ start.todo) }
    ensures { Carried (tidying (start.todo - stop.todo)) h items.old start h items.new result }
{
    let end = gap_end(h, items, stop);
    let tidied = tidy_until(h, items, start, stop.todo, start.force, end.force);
    let _ = tidy_until(h, items, tidied, end.todo, start.force, end.force);
    tidied
}

fn delete_and_tidy(h: Head, items: &mut [u64], p: Place, len: u32) -> At
    requires { Standing h items.old p × (h.items < SIZE) }
    ensures { Carried (delete_tidy len) h items.old p result.head items.new result.place }
{
    let done = delete_units(h, items, p, len);
    let start = p.kept(h, done.head);
    let place = clean_format_gap(done.head, items, start, done.place);
    At {
        head: done.head,
        place,
    }
}

// Rule Remove, from its place: it tidies only where something is in force.
pub fn remove_here(h: Head, items: &mut [u64], p: Place, len: u32) -> At
    requires { Standing h items.old p × (h.items < SIZE) }
    ensures { Carried (remove_here len) h items.old p result.head items.new result.place }
{
    if p.force.is_empty() {
        return delete_units(h, items, p, len);
    }
    delete_and_tidy(h, items, p, len)
}

// Rule Deleted, of a delta: it always tidies, and a length of 0 does nothing.
pub fn delete_here(h: Head, items: &mut [u64], p: Place, len: u32) -> At
    requires { Standing h items.old p × (h.items < SIZE) }
    ensures { Carried (delete_here len) h items.old p result.head items.new result.place }
{
    if len == 0 {
        return At { head: h, place: p };
    }
    delete_and_tidy(h, items, p, len)
}
