// The runs of a list, one after the other: each goes on where the run before ended.
ghost use Rattle.std.specs.Prelude.{◌≡◌, ◌+◌, ◌<◌};
ghost use Rattle.std.specs.Iterator.{YieldsFirst, MakesProgress};
ghost use Rattle.layout.specs.Word.{what_of, shown_len};
ghost use Rattle.cursors.specs.Cursors.{passes_of, ends_by, past_of, text_record, start_of, left, items_ahead, Ready, Stays, Stands, Skipped, Gathered};

use crate::run::Run;
use attrs::Attrs;
use layout::force::passed;
use layout::head::Head;
use layout::word::{Content, Item, is_mark, shown_len, unpack};

// A place in the list: the next item and how many are left with it, the visible units to its left, and what is in force there.
// (A place of `arena` has the item to its left in place of the units: links are put in there, and no units are counted.)
#[derive(Clone, Copy)]
pub struct Spot {
    pub at: u32,
    pub todo: u32,
    pub passed: u32,
    pub force: Attrs,
}

impl Spot {
    // In front of the first item.
    pub fn start(h: Head) -> Spot
        ensures { result ≡ start_of h }
    {
        Spot {
            at: h.first,
            todo: h.items,
            passed: 0,
            force: Attrs::empty(),
        }
    }
}

// The runs from a place on. `joined` merges neighbouring texts on which the same is in force. Whoever keeps `spot` can read on
// there later.
#[derive(Clone, Copy)]
pub struct Runs<'a> {
    pub items: &'a [u64],
    pub joined: bool,
    pub spot: Spot,
}

impl<'a> Runs<'a> {
    // All runs of a list.
    pub fn new(h: Head, items: &'a [u64], joined: bool) -> Runs<'a>
        ensures items { result.items.now ≡ items.now }
        ensures joined { result.joined ≡ joined }
        ensures spot { result.spot ≡ start_of h }
    {
        Runs {
            items,
            joined,
            spot: Spot::start(h),
        }
    }
}

impl<'a> Iterator for Runs<'a> {
    type Item = Run;

    ghost can_next = { Ready };

    ghost next_gives = { YieldsFirst left };

    ghost remaining = { items_ahead };

    fn next(&mut self) -> Option<Run>
        requires { Ready self.old }
        ensures steps { YieldsFirst left self.old result self.new }
        ensures goes { MakesProgress Ready items_ahead self.old result self.new }
        ensures stays { Stays self.old self.new }
    {
        let from = skip(self.items, self.spot);
        if from.todo == 0 {
            self.spot = from;
            return None;
        }
        let it = unpack(self.items[from.at as usize]);
        if let Content::Embed(number) = it.content {
            self.spot = Spot {
                at: it.next,
                todo: from.todo - 1,
                passed: from.passed + 1,
                force: from.force,
            };
            return Some(Run {
                embed: true,
                number,
                ..text_run(from.passed, 1, from.force)
            });
        }
        let end = gather(self.items, self.joined, past(from, it));
        self.spot = end;
        Some(text_run(from.passed, end.passed - from.passed, from.force))
    }
}

fn text_run(start: u32, len: u32, attrs: Attrs) -> Run
    ensures { result ≡ text_record start len attrs }
{
    Run {
        embed: false,
        start,
        len,
        number: 0,
        count: attrs.count(),
        attrs,
    }
}

// To the next text or embed, or to the end. The place counts its items itself, here and in `gather`.
fn skip(items: &[u64], from: Spot) -> Spot
    requires { Stands items.now from }
    ensures { Skipped items.now from result }
{
    let mut s = from;
    while s.todo > 0 {
        let it = unpack(items[s.at as usize]);
        if !passes(it) {
            return s;
        }
        s = past(s, it);
    }
    s
}

// To where a text run ends that has begun left of here.
fn gather(items: &[u64], joined: bool, from: Spot) -> Spot
    requires { Stands items.now from }
    ensures { Gathered joined items.now from result }
{
    let mut s = from;
    while s.todo > 0 {
        let it = unpack(items[s.at as usize]);
        if ends(joined, from.force, s.force, it) {
            return s;
        }
        s = past(s, it);
    }
    s
}

// Between two runs: a deleted item, or a mark.
#[tactic(auto, unfolding(crate::specs::Cursors::passes_of))]
fn passes(it: Item) -> bool
    ensures { result ≡ passes_of it.dead (what_of it.content) }
{
    it.dead || is_mark(it.content)
}

// Does the item end a text run with `run` in force?
#[tactic(auto, unfolding(crate::specs::Cursors::ends_by, crate::specs::Cursors::stops_at))]
fn ends(joined: bool, run: Attrs, force: Attrs, it: Item) -> bool
    ensures { result ≡ ends_by joined run force it.dead (what_of it.content) }
{
    if it.dead {
        return false;
    }
    match it.content {
        Content::Text { .. } => !run.same(force),
        Content::Embed(_) => true,
        Content::Mark { .. } => !joined,
    }
}

// The place behind its item.
#[tactic(auto, unfolding(crate::specs::Cursors::passed_by))]
fn past(s: Spot, it: Item) -> Spot
    requires todo_nonzero { 0 < s.todo }
    requires content_bound { s.passed + shown_len it.dead (what_of it.content) < 4294967296 }
    ensures { result ≡ past_of s it }
{
    Spot {
        at: it.next,
        todo: s.todo - 1,
        passed: s.passed + shown_len(it),
        force: if it.dead {
            s.force
        } else {
            passed(s.force, it.content)
        },
    }
}
