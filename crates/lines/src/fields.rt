// Units of text and attributes, word by word, up to the end of a line or of an operation.
ghost use Rattle.std.specs.Prelude.{◌≡◌, ◌≤◌, length, set};
ghost use Rattle.lines.specs.Fields.{letter_of, ReadIs, start_at, stopped_at, pair_field, unit_field, Takes, Gathers};

use attrs::Attrs;
use refusal::Refusal;
use words::numbers::{Piece, read_piece};
use words::words::{Rest, next_word};

// What stands next: the end of the line, a `;`, or a word, which may say nothing.
#[derive(Clone, Copy)]
pub enum Field {
    Line,
    Op,
    Word(Option<Piece>),
}

#[derive(Clone, Copy)]
pub struct Read {
    pub field: Field,
    pub next: usize,
}

// Where reading stands: there may be more, the line has ended, a `;` was read, or a word that does not belong there.
#[derive(Clone, Copy, PartialEq, Eq)]
pub enum End {
    More,
    Line,
    Op,
    Wrong,
}

// The set stands beside its refusal, no Result: `pair_field`, and so each clause of the calls, tells what the set took besides.
// What was gathered: how many units lie in the lent ones, the set, and what it refused where a key or a value was out of range.
#[derive(Clone, Copy)]
pub struct Fields {
    pub at: usize,
    pub count: usize,
    pub attrs: Attrs,
    pub refusal: Option<Refusal>,
    pub end: End,
}

// The byte of a word of one byte; 0, no call's letter, for any other: `entry_by` says of such a line too what it asks for.
pub(crate) fn letter(w: &[u8]) -> u8
    ensures { result ≡ letter_of w.now }
{
    match w {
        [b] => *b,
        _ => 0,
    }
}

#[tactic(auto, unfolding(crate::specs::Fields::field_of))]
pub(crate) fn read_field(rest: Rest) -> Read
    ensures { ReadIs rest.entry.line.now rest.entry.from result }
{
    let w = next_word(rest);
    let part = &rest.line[w.start..w.end];
    let field = if w.start == w.end {
        Field::Line
    } else if letter(part) == b';' {
        Field::Op
    } else {
        Field::Word(read_piece(part))
    };
    Read { field, next: w.end }
}

impl Fields {
    fn start(at: usize, count: usize) -> Fields
        ensures { result ≡ start_at at count }
    {
        Fields {
            at,
            count,
            attrs: Attrs::empty(),
            refusal: None,
            end: End::More,
        }
    }

    fn stopped(self, at: usize, end: End) -> Fields
        ensures { result ≡ stopped_at self at end }
    {
        Fields { at, end, ..self }
    }

    fn with_pair(self, at: usize, marks: bool, key: u32, value: u32) -> Fields
        ensures { result ≡ pair_field self at marks key value }
    {
        if !marks {
            return self.stopped(at, End::Wrong);
        }
        match self.attrs.with(key, value) {
            Ok(attrs) => Fields {
                at,
                attrs,
                end: End::More,
                ..self
            },
            Err(refusal) => Fields {
                at,
                refusal: Some(refusal),
                end: End::More,
                ..self
            },
        }
    }

    fn with_unit(self, at: usize, u: u16, units: &mut [u16]) -> Fields
        ensures value { result ≡ unit_field self at (length units.old) }
        ensures units_after { units.new ≡ set units.old self.count u }
    {
        let n = self.count;
        if n >= units.len() {
            return self.stopped(at, End::Wrong);
        }
        units[n] = u;
        Fields {
            at,
            count: n + 1,
            end: End::More,
            ..self
        }
    }

    // With what stands next. Attributes are taken where `marks` says so, units while the lent ones have room.
    fn with_field(self, r: Read, marks: bool, units: &mut [u16]) -> Fields
        ensures { Takes self r marks units.old units.new result }
    {
        match r.field {
            Field::Line => self.stopped(r.next, End::Line),
            Field::Op => self.stopped(r.next, End::Op),
            Field::Word(Some(Piece::Unit(u))) => self.with_unit(r.next, u, units),
            Field::Word(Some(Piece::Pair { key, value })) => self.with_pair(
                r.next, marks, key, value,
            ),
            Field::Word(None) => self.stopped(r.next, End::Wrong),
        }
    }
}

// The units go behind the first `count` lent ones. A line has fewer words than bytes, so one turn for each byte and one for the end is enough.
pub(crate) fn read_fields(rest: Rest, count: usize, marks: bool, units: &mut [u16]) -> Fields
    ensures { Gathers rest.entry.line.now (start_at rest.entry.from count) marks units.old units.new result }
{
    let mut f = Fields::start(rest.from, count);
    for _ in 0..=rest.line.len() {
        if f.end != End::More {
            return f;
        }
        f = f.with_field(
            read_field(Rest {
                line: rest.line,
                from: f.at,
            }),
            marks,
            units,
        );
    }
    f
}
