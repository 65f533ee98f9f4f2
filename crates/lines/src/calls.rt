// The call that a line asks for.
ghost use Rattle.std.specs.Prelude.{◌≡◌, ◌≤◌, length};
ghost use Rattle.lines.specs.Calls.{kind_of, NumberIs, bare_asked, asked_of, plain_asked, text_call, TextAsked, ranged_of, marks_of, RangedAsked, CallAsked};

use crate::fields::{End, Field, Fields, letter, read_field, read_fields};
use attrs::Attrs;
use refusal::Refusal;
use words::numbers::read_number;
use words::words::{Rest, next_word};

#[derive(Clone, Copy)]
pub enum Call {
    // An empty line or a comment.
    Silent,
    Insert(u32),
    InsertWith(u32),
    Embed { index: u32, n: u32 },
    EmbedWith { index: u32, n: u32 },
    Format { index: u32, len: u32 },
    Remove { index: u32, len: u32 },
    // Its operations are read by `read_delta`.
    Delta,
    // Asked of the table, and read by `read_entry`.
    Entry,
    Begin,
    Query,
    Show,
    Fresh,
}

// The set stands beside its refusal, no Result: the clause of `read_call` (`asked_of`) tells of both.
// A call, how many units of its text lie in the lent ones, its set, and what that refused of its attributes.
#[derive(Clone, Copy)]
pub struct Asked {
    pub call: Call,
    pub count: usize,
    pub attrs: Attrs,
    pub refusal: Option<Refusal>,
}

// A call of two numbers; attributes may stand behind an `EmbedWith` and a `Format`.
#[derive(Clone, Copy)]
pub enum Ranged {
    Embed,
    EmbedWith,
    Format,
    Remove,
}

// What a line's letter asks for, and so what stands behind it. Attributes may stand behind a text where `marks` says so.
#[derive(Clone, Copy)]
pub enum Kind {
    Plain(Call),
    Text { marks: bool },
    Ranged(Ranged),
    Delta,
    Entry,
}

#[tactic(auto, unfolding(crate::specs::Calls::kind_of, crate::specs::Calls::asking_of))]
fn kind_of(name: u8) -> Option<Kind>
    ensures { result ≡ kind_of name }
{
    match name {
        b'b' => Some(Kind::Plain(Call::Begin)),
        b'n' => Some(Kind::Plain(Call::Fresh)),
        b'q' => Some(Kind::Plain(Call::Query)),
        b'p' => Some(Kind::Plain(Call::Show)),
        b'i' => Some(Kind::Text { marks: false }),
        b'w' => Some(Kind::Text { marks: true }),
        b'e' => Some(Kind::Ranged(Ranged::Embed)),
        b'x' => Some(Kind::Ranged(Ranged::EmbedWith)),
        b'f' => Some(Kind::Ranged(Ranged::Format)),
        b'r' => Some(Kind::Ranged(Ranged::Remove)),
        b'd' => Some(Kind::Delta),
        b'g' | b'k' | b'm' | b's' | b't' | b'v' => Some(Kind::Entry),
        _ => None,
    }
}

// The next word as a decimal number, and where it ends.
#[derive(Clone, Copy)]
pub struct Numbered {
    pub number: Option<u32>,
    pub next: usize,
}

pub(crate) fn number_at(rest: Rest) -> Numbered
    ensures { NumberIs rest.entry.line.now rest.entry.from result }
{
    let w = next_word(rest);
    Numbered {
        number: read_number(&rest.line[w.start..w.end], 10),
        next: w.end,
    }
}

impl Asked {
    fn bare(call: Call) -> Asked
        ensures { result ≡ bare_asked call }
    {
        Asked {
            call,
            count: 0,
            attrs: Attrs::empty(),
            refusal: None,
        }
    }

    // The call, where the line ends behind its fields.
    fn with_fields(call: Call, f: Fields) -> Option<Asked>
        ensures { result ≡ asked_of call f }
    {
        if f.end != End::Line {
            return None;
        }
        Some(Asked {
            call,
            count: f.count,
            attrs: f.attrs,
            refusal: f.refusal,
        })
    }
}

fn plain_call(rest: Rest, call: Call) -> Option<Asked>
    ensures { result ≡ plain_asked rest.entry.line.now rest.entry.from call }
{
    match read_field(rest).field {
        Field::Line => Some(Asked::bare(call)),
        Field::Op | Field::Word(_) => None,
    }
}

fn text(marks: bool, index: u32) -> Call
    ensures { result ≡ text_call marks index }
{
    if marks {
        Call::InsertWith(index)
    } else {
        Call::Insert(index)
    }
}

fn text_call(rest: Rest, marks: bool, units: &mut [u16]) -> Option<Asked>
    ensures { TextAsked rest.entry.line.now rest.entry.from marks units.old units.new result }
{
    let n = number_at(rest);
    let index = n.number?;
    let f = read_fields(
        Rest {
            line: rest.line,
            from: n.next,
        },
        0,
        marks,
        units,
    );
    Asked::with_fields(text(marks, index), f)
}

fn marks(call: Ranged) -> bool
    ensures { result ≡ marks_of call }
{
    matches!(call, Ranged::EmbedWith | Ranged::Format)
}

fn call_of(call: Ranged, index: u32, n: u32) -> Call
    ensures { result ≡ ranged_of call index n }
{
    match call {
        Ranged::Embed => Call::Embed { index, n },
        Ranged::EmbedWith => Call::EmbedWith { index, n },
        Ranged::Format => Call::Format { index, len: n },
        Ranged::Remove => Call::Remove { index, len: n },
    }
}

// Apart from `text_call`: two numbers lie before the fields, and no units are lent.
fn ranged_call(rest: Rest, call: Ranged) -> Option<Asked>
    ensures { RangedAsked rest.entry.line.now rest.entry.from call result }
{
    let a = number_at(rest);
    let index = a.number?;
    let b = number_at(Rest {
        line: rest.line,
        from: a.next,
    });
    let n = b.number?;
    let f = read_fields(
        Rest {
            line: rest.line,
            from: b.next,
        },
        0,
        marks(call),
        &mut [],
    );
    Asked::with_fields(call_of(call, index, n), f)
}

// None where the line is no call. Units of text go to the front of the lent ones. A delta's operations are left for `read_delta`.
#[tactic(auto, unfolding(crate::specs::Calls::asked_in, crate::specs::Calls::units_in))]
pub fn read_call(line: &[u8], units: &mut [u16]) -> Option<Asked>
    ensures { CallAsked line.now units.old units.new result }
{
    let w = next_word(Rest { line, from: 0 });
    if w.start == w.end || line[w.start] == b'#' {
        return Some(Asked::bare(Call::Silent));
    }
    let rest = Rest { line, from: w.end };
    match kind_of(letter(&line[w.start..w.end]))? {
        Kind::Plain(call) => plain_call(rest, call),
        Kind::Text { marks } => text_call(rest, marks, units),
        Kind::Ranged(call) => ranged_call(rest, call),
        Kind::Delta => Some(Asked::bare(Call::Delta)),
        Kind::Entry => Some(Asked::bare(Call::Entry)),
    }
}
