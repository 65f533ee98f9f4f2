// What an edit does at the place that its index gives.
ghost use Rattle.std.specs.Prelude.{◌+◌, ◌≤◌};
ghost use Rattle.rules.specs.Edits.{by_index};
ghost use Rattle.layout.specs.Memory.{list_of};
ghost use Rattle.arena.specs.Places.{SIZE, Arena, Standing, Carried};
ghost use Rattle.changes.specs.Changes.{move_of, Ready};
ghost use Rattle.changes.specs.Frame.{Worked};

use arena::find::find_position;
use arena::writes::put;
use arena::{At, Place};
use attrs::Attrs;
use edits::format::insert_format;
use edits::insert::{insert, insert_plain};
use layout::head::Head;
use layout::word::Content;
use removal::remove_here;

// The definition `move_of` gives the rule of each case, and the edits of this crate's must-fail turn one: so a case, and no closure.
#[derive(Clone, Copy)]
pub enum Change {
    PlainText { start: u32, len: u32 },
    PlainEmbed(u32),
    With { content: Content, attrs: Attrs },
    Format { len: u32, attrs: Attrs },
    Remove(u32),
}

#[tactic(auto, unfolding(crate::specs::Changes::move_of))]
pub fn change_at(h: Head, work: &mut [u64], p: Place, change: Change) -> At
    requires { Standing h work.old p × (h.items + 33 ≤ SIZE) × Ready change }
    ensures { Carried (move_of change) h work.old p result.head work.new result.place }
{
    match change {
        Change::PlainText { start, len } => insert_plain(h, work, p, Content::Text { start, len }),
        Change::PlainEmbed(number) => put(h, work, p, Content::Embed(number)),
        Change::With { content, attrs } => insert(h, work, p, content, attrs),
        Change::Format { len, attrs } => insert_format(h, work, p, len, attrs),
        Change::Remove(len) => remove_here(h, work, p, len),
    }
}

pub fn change_by_index(h: Head, work: &mut [u64], index: u32, change: Change) -> Head
    requires { Arena h work.old × (h.items + 34 ≤ SIZE) × Ready change }
    ensures { Worked (by_index index (move_of change) (list_of h work.old) h.items) result work.new }
{
    let at = find_position(h, work, index);
    change_at(at.head, work, at.place, change).head
}
