// All runs of a sheet, as operations.
ghost use Rattle.std.specs.Prelude.{◌≡◌, ◌/◌, length, take};
ghost use Rattle.runs.specs.Answers.{records_in, told, planned};
ghost use Rattle.events.specs.Given.{at_front};
ghost use Rattle.ffi.specs.Heads.{head_of};
ghost use Rattle.ffi.specs.Answers.{count_in, runs_words};

use crate::heads::{head_of, settled};
use crate::reading::run_op;
use cursors::walk::Runs;
use encoding::{WORDS, write_op};
use layout::head::Head;
use refusal::Refusal;
use runs::calls::plan;

fn write_runs(
    h: Head,
    items: &[u64],
    units: &[u16],
    joined: bool,
    ops: &mut [u32],
) -> Result<usize, Refusal>
    ensures answer { told result ≡ planned h items.now units.now joined (length ops.old / 8) }
    ensures words { ops.new ≡ at_front (runs_words (take (told result).count (records_in h items.now joined))) ops.old }
{
    let count = plan(h, items, units, joined, ops.len() / WORDS)?;
    for (i, run) in Runs::new(h, items, joined).take(count).enumerate() {
        write_op(ops, i as u32, run_op(run));
    }
    Ok(count)
}

// The runs at the front of `ops`, eight numbers to each, or refusal 8 where they do not fit.
#[unsafe(no_mangle)]
pub extern "C" fn indovalump_runs(
    head: &[u32; 3],
    items: &[u64],
    units: &[u16],
    joined: bool,
    ops: &mut [u32],
    count: &mut usize,
) -> u32
    ensures answer { count_in result count.new ≡ planned (head_of head.now) items.now units.now joined (length ops.old / 8) }
    ensures words { ops.new ≡ at_front (runs_words (take count.new (records_in (head_of head.now) items.now joined))) ops.old }
{
    let h = head_of(head);
    settled(write_runs(h, items, units, joined, ops), count, 0)
}
