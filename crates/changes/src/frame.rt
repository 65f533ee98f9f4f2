// A step in a working copy, and back.
ghost use Rattle.std.specs.Prelude.{◌≡◌};
ghost use Rattle.std.specs.Fn.{FnOnceTakesAtMut, FnOnceReturnsAtMut};
ghost use Rattle.rules.specs.Places.{At};
ghost use Rattle.rules.specs.Edits.{by_index};
ghost use Rattle.layout.specs.Memory.{list_of};
ghost use Rattle.changes.specs.Changes.{move_of, Ready};
ghost use Rattle.changes.specs.Frame.{left, granted, Loadable, AtEach, Leads};

use crate::change::{Change, change_by_index};
use arena::copies::copy;
use layout::head::Head;
use refusal::Refusal;

// The working copy has room for whatever one step makes, so that 4 is decided by what it made and the sheet is still untouched.
// `used` is how many units the sheet has in use afterwards. What is granted is the place of the rules that `step` leads to, whichever it is.
pub fn in_working_copy<F: FnOnce(&mut [u64]) -> Head>(
    h: Head,
    items: &mut [u64],
    used: u32,
    step: F,
) -> Result<Head, Refusal>
    requires sheet { Loadable h items.old }
    requires callable { AtEach h items.old (FnOnceTakesAtMut F.FnOnce step) }
    ensures { (p : At) → Leads h items.old (FnOnceReturnsAtMut F.FnOnce step) p → left h result items.new ≡ granted p used h items.old }
{
    let mut work = [0u64; 2088];
    copy(h.items, items, &mut work);
    let new = step(&mut work);
    if new.items > Head::ITEMS {
        return Err(Refusal::Room);
    }
    copy(new.items, &work, items);
    Ok(h.grown(new.first, new.items, used))
}

pub fn edit(
    h: Head,
    items: &mut [u64],
    index: u32,
    change: Change,
    used: u32,
) -> Result<Head, Refusal>
    requires { Loadable h items.old × Ready change }
    ensures { left h result items.new ≡ granted (by_index index (move_of change) (list_of h items.old) h.items) used h items.old }
{
    in_working_copy(
        h,
        items,
        used,
        |work| change_by_index(h, work, index, change),
    )
}
