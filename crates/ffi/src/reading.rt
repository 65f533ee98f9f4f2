// What is read of a sheet.
ghost use Rattle.std.specs.Prelude.{◌≡◌, length};
ghost use Rattle.layout.specs.Heads.{fresh_head};
ghost use Rattle.layout.specs.Memory.{sound_of};
ghost use Rattle.items.specs.Calls.{length_of};
ghost use Rattle.ffi.specs.Heads.{head_of};
ghost use Rattle.rules.specs.Reading.{before, live};
ghost use Rattle.runs.specs.Answers.{counted, run_at};
ghost use Rattle.ranges.specs.Texts.{Copied};
ghost use Rattle.events.specs.Given.{given, at_front};
ghost use Rattle.ffi.specs.Answers.{length_in, count_in, event_in, run_op, said_words};

use crate::heads::{head_of, settled, words_of};
use cursors::run::Run;
use encoding::{WORDS, write_op};
use layout::head::Head;
use ops::delta::{DeltaOp, Inserted, Op};

// The head of a sheet that holds nothing, whatever lies in its buffers.
#[unsafe(no_mangle)]
pub extern "C" fn indovalump_fresh(head: &mut [u32; 3])
    ensures { head_of head.new ≡ fresh_head }
{
    *head = words_of(Head::fresh());
}

#[unsafe(no_mangle)]
pub extern "C" fn indovalump_sound(head: &[u32; 3], items: &[u64], units: &[u16]) -> bool
    ensures { result ≡ sound_of (head_of head.now) items.now units.now }
{
    let h = head_of(head);
    soundness::sound(h, items, units)
}

#[unsafe(no_mangle)]
pub extern "C" fn indovalump_len(
    head: &[u32; 3],
    items: &[u64],
    units: &[u16],
    len: &mut u32,
) -> u32
    ensures { length_in result len.new ≡ length_of (head_of head.now) items.now units.now }
{
    let h = head_of(head);
    settled(items::len(h, items, units), len, 0)
}

#[unsafe(no_mangle)]
pub extern "C" fn indovalump_count_runs(
    head: &[u32; 3],
    items: &[u64],
    units: &[u16],
    joined: bool,
    count: &mut usize,
) -> u32
    ensures { count_in result count.new ≡ counted (head_of head.now) items.now units.now joined }
{
    let h = head_of(head);
    settled(runs::calls::count_runs(h, items, units, joined), count, 0)
}

// The units that are seen in a range.
#[unsafe(no_mangle)]
pub extern "C" fn indovalump_text(
    head: &[u32; 3],
    items: &[u64],
    units: &[u16],
    index: u32,
    len: u32,
    out: &mut [u16],
    count: &mut usize,
) -> u32
    ensures { Copied (head_of head.now) items.now units.now index len out.old out.new (count_in result count.new) }
{
    let h = head_of(head);
    settled(
        ranges::text_of_range(h, items, units, index, len, out),
        count,
        0,
    )
}

// The event of the running transaction: its operations, eight numbers to each, and the units of their texts. `counts` are how many
// operations and units.
#[unsafe(no_mangle)]
pub extern "C" fn indovalump_event(
    head: &[u32; 3],
    items: &[u64],
    units: &[u16],
    ops: &mut [u32],
    texts: &mut [u16],
    counts: &mut [u32; 2],
) -> u32
    ensures answer { event_in result counts.new ≡ (given before live (head_of head.now) items.now units.now (length ops.old) (length texts.old)).answer }
    ensures words { ops.new ≡ at_front (given before live (head_of head.now) items.now units.now (length ops.old) (length texts.old)).words ops.old }
    ensures texts { texts.new ≡ at_front (given before live (head_of head.now) items.now units.now (length ops.old) (length texts.old)).units texts.old }
{
    let h = head_of(head);
    let answer = events::event::event(h, items, units, ops, texts);
    // Not by `settled`: the goal of the clause `answer` stayed open with an array that a closure makes.
    *counts = [0; 2];
    if let Ok(written) = answer {
        *counts = [written.ops, written.units];
    }
    refusal::number(answer)
}

// A run as an operation.
pub(crate) fn run_op(run: Run) -> DeltaOp
    ensures { result ≡ run_op run }
{
    let inserted = if run.embed {
        Inserted::Embed(run.number)
    } else {
        Inserted::Text {
            start: run.start,
            len: run.len,
        }
    };
    DeltaOp {
        op: Op::Insert(inserted),
        attrs: run.attrs,
    }
}

// The run of a number as an operation's eight numbers, the start and length of a text counting visible units; all 0 for none.
#[tactic(auto, unfolding(crate::specs::Answers::said_words))]
#[unsafe(no_mangle)]
pub extern "C" fn indovalump_run_at(
    head: &[u32; 3],
    items: &[u64],
    units: &[u16],
    joined: bool,
    n: u32,
    run: &mut [u32; 8],
) -> u32
    ensures value { result ≡ (run_at (head_of head.now) items.now units.now joined n).refusal }
    ensures words { run.new ≡ said_words (run_at (head_of head.now) items.now units.now joined n) }
{
    let h = head_of(head);
    let answer = runs::calls::run_at(h, items, units, joined, n);
    *run = [0; WORDS];
    if let Ok(Some(found)) = answer {
        write_op(run, 0, run_op(found));
    }
    refusal::number(answer)
}
