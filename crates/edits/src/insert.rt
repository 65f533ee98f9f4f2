// New text and embeds at a place.
ghost use Rattle.std.specs.Prelude.{◌+◌, ◌≤◌};
ghost use Rattle.attrs.specs.Packed.{says};
ghost use Rattle.rules.specs.Edits.{plain_text, insert_with};
ghost use Rattle.layout.specs.Word.{what_of};
ghost use Rattle.arena.specs.Places.{SIZE, InRange, Standing, Carried};

use arena::writes::put;
use arena::{At, Place};
use attrs::Attrs;
use layout::head::Head;
use layout::word::Content;
use marks::{insert_attributes, insert_negated_attributes, minimize_attr_changes};

// Text or an embed that carries exactly these attributes.
pub fn insert(h: Head, items: &mut [u64], p: Place, content: Content, attrs: Attrs) -> At
    requires { Standing h items.old p × (h.items + 33 ≤ SIZE) × InRange content }
    ensures { Carried (insert_with (what_of content) (says attrs)) h items.old p result.head items.new result.place }
{
    let all = attrs.unset_missing(p.force);
    let from = minimize_attr_changes(h, items, p, all);
    let opened = insert_attributes(h, items, from, all);
    let new = put(opened.at.head, items, opened.at.place, content);
    insert_negated_attributes(new.head, items, new.place, opened.remembered)
}

// Plain text: behind deleted items, with what is in force there. A plain embed is just put.
pub fn insert_plain(h: Head, items: &mut [u64], p: Place, content: Content) -> At
    requires { Standing h items.old p × (h.items + 1 ≤ SIZE) × InRange content }
    ensures { Carried (plain_text (what_of content)) h items.old p result.head items.new result.place }
{
    let from = minimize_attr_changes(h, items, p, Attrs::empty());
    put(h, items, from, content)
}
