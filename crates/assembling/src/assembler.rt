// `get_delta`'s assembler, by value. An item gives at most two operations and the next assembler.
ghost use Rattle.std.specs.Prelude.{◌≡◌, ◌+◌, ◌<◌};
ghost use Rattle.rules.specs.Sheet.{width};
ghost use Rattle.layout.specs.Word.{what_of};
ghost use Rattle.assembling.specs.Steps.{load, run_op, turned_by, pass_by, fresh_asm};

use crate::marks::{changed, mark_turn, past, pending_of};
use crate::runs::{Kind, Run, Sight, Turn, grow, inserted};
use attrs::Attrs;
use layout::word::Content;
use ops::delta::{DeltaOp, Inserted, Op};

// `units` counts the text told so far: an insertion's text begins there. `attrs` are pending; `current` are in force now, `old` were.
#[derive(Clone, Copy)]
pub struct Assembler {
    pub run: Option<Run>,
    pub units: u32,
    pub attrs: Attrs,
    pub current: Attrs,
    pub old: Attrs,
}

#[derive(Clone, Copy)]
pub struct Passed {
    pub first: Option<DeltaOp>,
    pub second: Option<DeltaOp>,
    pub asm: Assembler,
}

// The operation of the run, if there is one.
pub fn add_op(a: Assembler) -> Option<DeltaOp>
    ensures { result ≡ run_op a.run a }
{
    let Run { kind, width } = a.run?;
    let (op, attrs) = match kind {
        Kind::Inserting => {
            let text = Inserted::Text {
                start: a.units,
                len: width,
            };
            (Op::Insert(text), a.current)
        }
        Kind::Deleting => (Op::Delete(width), Attrs::empty()),
        Kind::Retaining => (Op::Retain(width), a.attrs),
    };
    Some(DeltaOp { op, attrs })
}

// The assembler with its next run; the run that ends is told.
fn turned_by(a: Assembler, t: Turn) -> Passed
    requires { load a < 4294967296 }
    ensures { result ≡ turned_by a t }
{
    match t {
        Turn::Goes(run) => Passed {
            first: None,
            second: None,
            asm: Assembler { run, ..a },
        },
        Turn::Starts(run) => Passed {
            first: add_op(a),
            second: None,
            asm: Assembler {
                run,
                units: a.units + inserted(a.run),
                ..a
            },
        },
    }
}

// A new embed is told at once; any other is one unit like a text's.
#[tactic(auto, unfolding(layout::specs::Force::mark_on))]
pub fn pass(a: Assembler, s: Sight, content: Content) -> Passed
    requires { load a + width (what_of content) < 4294967296 }
    ensures { result ≡ pass_by s.was s.is (what_of content) a }
{
    match content {
        Content::Text { start: _, len } => turned_by(a, grow(s, len, a.run)),
        Content::Embed(n) if !s.was && s.is => {
            let op = Op::Insert(Inserted::Embed(n));
            Passed {
                second: Some(DeltaOp {
                    op,
                    attrs: a.current,
                }),
                ..turned_by(a, Turn::Starts(None))
            }
        }
        Content::Embed(_) => turned_by(a, grow(s, 1, a.run)),
        Content::Mark { key, value } => {
            let p = pending_of(a, s, key, value);
            let told = turned_by(a, mark_turn(p, s.is, a.run));
            Passed {
                asm: Assembler {
                    attrs: changed(a.attrs, p, key),
                    current: past(a.current, s.is, content),
                    old: past(a.old, s.was, content),
                    ..told.asm
                },
                ..told
            }
        }
    }
}

impl Assembler {
    // Nothing gathered, nothing pending, nothing in force.
    pub fn fresh() -> Assembler
        ensures { result ≡ fresh_asm }
    {
        let empty = Attrs::empty();
        Assembler {
            run: None,
            units: 0,
            attrs: empty,
            current: empty,
            old: empty,
        }
    }
}
