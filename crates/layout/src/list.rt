// The items of a list, in the order of the links.
ghost use Rattle.std.specs.Prelude.{◌≡◌};
ghost use Rattle.std.specs.Iterator.{YieldsFirst, item_count};
ghost use Rattle.layout.specs.Steps.{rest};

use crate::head::Head;
use crate::word::{Item, unpack};

// The items from a place on, each with its number. It ends where a link leads out of the buffer, so that any buffer can be walked.
#[derive(Drop)]
pub struct Items<'a> {
    items: &'a [u64],
    at: u32,
    todo: u32,
}

impl<'a> Items<'a> {
    // All items of a list.
    pub fn new(h: Head, items: &'a [u64]) -> Items<'a>
        ensures items { result.items.now ≡ items.now }
        ensures at { result.at ≡ h.first }
        ensures todo { result.todo ≡ h.items }
    {
        Items {
            items,
            at: h.first,
            todo: h.items,
        }
    }
}

impl<'a> Iterator for Items<'a> {
    type Item = (u32, Item);

    ghost next_gives = { YieldsFirst rest };

    ghost remaining = { item_count rest };

    fn next(&mut self) -> Option<(u32, Item)> {
        if self.todo == 0 {
            return None;
        }
        let number = self.at;
        let word = self.items.get(number as usize)?;
        let it = unpack(*word);
        self.at = it.next;
        self.todo -= 1;
        Some((number, it))
    }
}
