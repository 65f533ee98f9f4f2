// A working copy of a sheet's items, with room to spare, and the places in it.
#![tactic(auto)]

ghost use Rattle.std.specs.Prelude.{◌≡◌, false, ◌-◌, ◌<◌, ◌≤◌, length};
ghost use Rattle.arena.specs.Places.{start_of, behind, forward_of, kept_place};

use attrs::Attrs;
use layout::force::passed;
use layout::head::Head;
use layout::word::{Item, is_live_mark, unpack};

pub mod writes; // what is written into it
pub mod copies; // from a sheet into it, and back
pub mod find; // the place at an index

// A place between two items: their numbers, as nothing is allocated (the end link where there is none), how many items stand right of it,
// and what is in force there.
#[derive(Clone, Copy)]
pub struct Place {
    pub left: u32,
    pub right: u32,
    pub todo: u32,
    pub force: Attrs,
}

impl Place {
    // Before the first item.
    pub fn start(h: Head) -> Place
        ensures { result ≡ start_of h }
    {
        Place {
            left: Head::END,
            right: h.first,
            todo: h.items,
            force: Attrs::empty(),
        }
    }

    // The same place once items were put in right of it: as many stand left of it as before.
    pub fn kept(self, before: Head, after: Head) -> Place
        requires { (self.todo ≤ before.items) × (before.items - self.todo ≤ after.items) }
        ensures { result ≡ kept_place self before after }
    {
        Place {
            todo: after.items - (before.items - self.todo),
            ..self
        }
    }

    // Behind the item right of the place, which is this one. Its set is touched at a live mark alone: the walk to an index, which
    // may pass every item, takes more than twice as long where it hands whole places from turn to turn.
    #[tactic(auto, unfolding(crate::specs::Places::passed_force, layout::specs::Force::mark_on))]
    fn pass(&mut self, it: Item)
        requires { 0 < self.old.todo }
        ensures { self.new ≡ behind self.old it }
    {
        self.left = self.right;
        self.right = it.next;
        self.todo -= 1;
        if is_live_mark(it) {
            self.force = passed(self.force, it.content);
        }
    }
}

// A place reached, and the head that goes with it.
// That a place stands in a buffer under a head (`Standing`) is said where it is used: the buffer is lent to be written, and no type
// can hold a fact about it meanwhile.
#[derive(Clone, Copy)]
pub struct At {
    pub head: Head,
    pub place: Place,
}

// The place behind the item right of a place.
pub fn forward(items: &[u64], p: Place) -> Place
    requires { (0 < p.todo) × (p.right < length items.now) }
    ensures { result ≡ forward_of items.now p }
{
    let mut q = p;
    q.pass(unpack(items[p.right as usize]));
    q
}
