// The operations of a delta, from the bytes of its line.
ghost use Rattle.std.specs.Prelude.{◌≡◌, ◌<◌, ◌≤◌, ◌+◌, length};
ghost use Rattle.words.specs.Words.{word_at};
ghost use Rattle.ops.specs.Ops.{pushed};
ghost use Rattle.lines.specs.Deltas.{start_ops, stopped_ops, longer_of, with_op, text_op, op_of, op_marks, NumberedIs, sort_of, op_in, all_ops, delta_in, ReadTo};

use crate::calls::number_at;
use crate::fields::{End, Field, Fields, letter, read_field, read_fields};
use ops::delta::{Delta, DeltaOp, Inserted, Op};
use refusal::Refusal;
use words::words::{Rest, next_word};

// A struct even where the line is no delta, and the refusal beside the delta: the clause of `read_delta` (`delta_in`) tells how far such a line was read, and what was taken.
// The operations so far, how many units of theirs lie in the lent ones, and what a set refused of its attributes. One more follows where `end` is `Op`.
#[derive(Clone, Copy)]
pub struct AskedDelta {
    pub delta: Delta,
    pub at: usize,
    pub count: usize,
    pub refusal: Option<Refusal>,
    pub end: End,
}

// An operation of one number; attributes may stand behind any but a deletion.
#[derive(Clone, Copy)]
pub enum Counted {
    Embed,
    Retain,
    Delete,
}

// What an operation's letter asks for, and so what stands behind it.
#[derive(Clone, Copy)]
pub enum Sort {
    Texts,
    Numbers(Counted),
}

// A delta that has no room says so by its count, one more than any call takes, so that Many is the call's own answer behind its other tests: `delta_in` and the edit operation_257_lost hold it.
fn longer(delta: Delta, op: DeltaOp) -> Delta
    ensures { result ≡ longer_of (pushed delta op) }
{
    match delta.push(op) {
        Ok(more) => more,
        Err(_) => Delta {
            count: Delta::OPS + 1,
            ..delta
        },
    }
}

impl AskedDelta {
    fn start(at: usize) -> AskedDelta
        ensures { result ≡ start_ops at }
    {
        AskedDelta {
            delta: Delta::empty(),
            at,
            count: 0,
            refusal: None,
            end: End::Op,
        }
    }

    fn stopped(self, at: usize, end: End) -> AskedDelta
        ensures { result ≡ stopped_ops self at end }
    {
        AskedDelta { at, end, ..self }
    }

    fn with_op(self, op: Op, f: Fields, count: usize) -> AskedDelta
        ensures { result ≡ with_op self op f count }
    {
        let op = DeltaOp { op, attrs: f.attrs };
        AskedDelta {
            delta: longer(self.delta, op),
            at: f.at,
            count,
            refusal: f.refusal.or(self.refusal),
            end: f.end,
        }
    }
}

// The bound on the lent units stands in each contract from `read_delta` down to here, since a slice that is lent to be written has no ghost field.
fn text_op(rest: Rest, d: AskedDelta, units: &mut [u16]) -> AskedDelta
    requires count_in_bounds { d.count ≤ length units.old }
    requires units_len_bound { length units.old < 4294967296 }
    ensures { ReadTo rest.entry.line.now units.old units.new result (text_op rest.entry.line.now d rest.entry.from units.old) }
{
    let start = d.count;
    let f = read_fields(rest, start, true, units);
    let end = f.count;
    let part = Inserted::Text {
        start: start as u32,
        len: (end - start) as u32,
    };
    d.with_op(Op::Insert(part), f, end)
}

fn op_of(counted: Counted, n: u32) -> Op
    ensures { result ≡ op_of counted n }
{
    match counted {
        Counted::Embed => Op::Insert(Inserted::Embed(n)),
        Counted::Retain => Op::Retain(n),
        Counted::Delete => Op::Delete(n),
    }
}

fn op_marks(counted: Counted) -> bool
    ensures { result ≡ op_marks counted }
{
    !matches!(counted, Counted::Delete)
}

fn numbered_op(rest: Rest, d: AskedDelta, counted: Counted) -> AskedDelta
    ensures { NumberedIs rest.entry.line.now d rest.entry.from counted result }
{
    let a = number_at(rest);
    let Some(n) = a.number else {
        return d.stopped(a.next, End::Wrong);
    };
    let f = read_fields(
        Rest {
            line: rest.line,
            from: a.next,
        },
        0,
        op_marks(counted),
        &mut [],
    );
    d.with_op(op_of(counted, n), f, d.count)
}

#[tactic(auto, unfolding(crate::specs::Deltas::sort_of))]
fn sort_of(name: u8) -> Option<Sort>
    ensures { result ≡ sort_of name }
{
    match name {
        b'i' => Some(Sort::Texts),
        b'x' => Some(Sort::Numbers(Counted::Embed)),
        b'r' => Some(Sort::Numbers(Counted::Retain)),
        b'd' => Some(Sort::Numbers(Counted::Delete)),
        _ => None,
    }
}

fn one_op(rest: Rest, d: AskedDelta, units: &mut [u16]) -> AskedDelta
    requires count_in_bounds { d.count ≤ length units.old }
    requires units_len_bound { length units.old < 4294967296 }
    ensures { ReadTo rest.entry.line.now units.old units.new result (op_in rest.entry.line.now d (word_at rest.entry.line.now rest.entry.from) units.old) }
{
    let w = next_word(rest);
    let behind = Rest {
        line: rest.line,
        from: w.end,
    };
    match sort_of(letter(&rest.line[w.start..w.end])) {
        Some(Sort::Texts) => text_op(behind, d, units),
        Some(Sort::Numbers(counted)) => numbered_op(behind, d, counted),
        None => d.stopped(w.end, End::Wrong),
    }
}

// A line has fewer operations than bytes.
fn all_ops(rest: Rest, units: &mut [u16]) -> AskedDelta
    requires { length units.old < 4294967296 }
    ensures { ReadTo rest.entry.line.now units.old units.new result (all_ops (length rest.entry.line.now + 1) rest.entry.line.now (start_ops rest.entry.from) units.old) }
{
    let mut d = AskedDelta::start(rest.from);
    for _ in 0..=rest.line.len() {
        if d.end != End::Op {
            return d;
        }
        d = one_op(
            Rest {
                line: rest.line,
                from: d.at,
            },
            d,
            units,
        );
    }
    d
}

fn ops_from(rest: Rest, units: &mut [u16]) -> AskedDelta
    requires { length units.old < 4294967296 }
    ensures { ReadTo rest.entry.line.now units.old units.new result (delta_in rest.entry.line.now rest.entry.from units.old) }
{
    let from = rest.from;
    match read_field(rest).field {
        Field::Line => AskedDelta::start(from).stopped(from, End::Line),
        Field::Op => AskedDelta::start(from).stopped(from, End::Wrong),
        Field::Word(_) => all_ops(rest, units),
    }
}

// The operations behind the letter of the line, with the units of their texts at the front of the lent ones. It is a delta where `end` is `Line`.
pub fn read_delta(line: &[u8], units: &mut [u16]) -> AskedDelta
    requires { length units.old < 4294967296 }
    ensures { ReadTo line.now units.old units.new result (delta_in line.now (word_at line.now 0).end units.old) }
{
    let w = next_word(Rest { line, from: 0 });
    ops_from(Rest { line, from: w.end }, units)
}
