// The run that grows, and what an item that is seen, before or now, does to it.
ghost use Rattle.std.specs.Prelude.{◌≡◌, ◌+◌, ◌<◌, Some, None};
ghost use Rattle.rules.specs.Reading.{before};
ghost use Rattle.assembling.specs.Steps.{flags_of, sight_of, counted, inserted_by, grown_by};

use layout::word::Item;

// What the items of a run give.
#[derive(Clone, Copy, PartialEq, Eq)]
pub enum Kind {
    Inserting,
    Deleting,
    Retaining,
}

#[derive(Clone, Copy)]
pub struct Run {
    pub kind: Kind,
    pub width: u32,
}

// Whether an item stood before and stands now.
#[derive(Clone, Copy)]
pub struct Sight {
    pub was: bool,
    pub is: bool,
}

// Which run goes on: the one before, longer, or the next, where that one ends.
#[derive(Clone, Copy)]
pub enum Turn {
    Goes(Option<Run>),
    Starts(Option<Run>),
}

// The event goes from before to now; what undoes it goes back: `back` stands in the contracts (`sight_of`, `given_by`). Nothing else
// looks at the flags.
pub fn seen_by(it: Item, back: bool) -> Sight
    ensures { result ≡ sight_of back (flags_of it.dead it.added it.gone) }
{
    let stood = !it.added && (!it.dead || it.gone);
    let stands = !it.dead;
    if back {
        Sight {
            was: stands,
            is: stood,
        }
    } else {
        Sight {
            was: stood,
            is: stands,
        }
    }
}

// How much text the run inserts.
pub fn inserted(run: Option<Run>) -> u32
    ensures { result ≡ inserted_by run }
{
    match run {
        Some(
            Run {
                kind: Kind::Inserting,
                width,
            },
        ) => width,
        _ => 0,
    }
}

// A run of the item's own kind grows; any other ends.
pub(crate) fn grow(s: Sight, width: u32, run: Option<Run>) -> Turn
    requires { counted run + width < 4294967296 }
    ensures { result ≡ grown_by s.was s.is width run }
{
    let kind = match (s.was, s.is) {
        (true, true) => Kind::Retaining,
        (true, false) => Kind::Deleting,
        (false, true) => Kind::Inserting,
        (false, false) => return Turn::Goes(run),
    };
    match run {
        Some(r) if r.kind == kind => Turn::Goes(Some(Run {
            kind,
            width: r.width + width,
        })),
        _ => Turn::Starts(Some(Run { kind, width })),
    }
}
