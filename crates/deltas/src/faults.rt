// The refusals 3, 2 and 1 of a delta's operations, decided on the old visible text: what is inserted stands left of the place.
ghost use Rattle.std.specs.Prelude.{◌≡◌, false, cond, ◌+◌, ◌≤◌, min, length, map, take, drop};
ghost use Rattle.refusal.specs.Numbers.{refusal_in};
ghost use Rattle.units.specs.Surrogates.{paired, splits_pair};
ghost use Rattle.rules.specs.Calls.{visible_units, too_long, check};
ghost use Rattle.layout.specs.Memory.{list_of};
ghost use Rattle.cuts.specs.Cuts.{Readable};
ghost use Rattle.ops.specs.Ops.{op_of};
ghost use Rattle.deltas.specs.Checks.{past_part, past_end, any_past};
ghost use Rattle.deltas.specs.Faults.{part_fault, fault_for, place_after};

use cuts::cuts_pair;
use layout::head::Head;
use ops::delta::{DeltaOp, Inserted, Op};
use refusal::Refusal;

fn text_fault(chunk: &[u16], start: u32, len: u32) -> Result<(), Refusal>
    requires { start + len ≤ length chunk.now }
    ensures { refusal_in result ≡ cond (paired (take len (drop start chunk.now))) 0 3 }
{
    let a = start as usize;
    let e = a + len as usize;
    if units::is_whole(&chunk[a..e]) {
        Ok(())
    } else {
        Err(Refusal::Units)
    }
}

fn part_fault(chunk: &[u16], part: Inserted) -> Result<(), Refusal>
    requires { past_part (length chunk.now) part ≡ false }
    ensures { refusal_in result ≡ part_fault chunk.now part }
{
    match part {
        Inserted::Text { start, len } => text_fault(chunk, start, len),
        Inserted::Embed(_) => Ok(()),
    }
}

fn retain_fault(h: Head, items: &[u64], used: &[u16], c: u32, n: u32) -> Result<(), Refusal>
    requires { Readable h items.now used.now }
    ensures { refusal_in result ≡ cond (splits_pair (visible_units used.now (list_of h items.now)) (c + n)) 2 0 }
{
    if cuts_pair(h, items, used, u64::from(c) + u64::from(n)) {
        return Err(Refusal::Pair);
    }
    Ok(())
}

// `len` is how many units are visible.
fn delete_fault(
    h: Head,
    items: &[u64],
    used: &[u16],
    len: u32,
    c: u32,
    n: u32,
) -> Result<(), Refusal>
    requires { Readable h items.now used.now × (len ≡ length (visible_units used.now (list_of h items.now))) × (c ≤ len) }
    ensures { refusal_in result ≡ cond (splits_pair (visible_units used.now (list_of h items.now)) (c + n)) 2 (cond (too_long (visible_units used.now (list_of h items.now)) c n) 1 0) }
{
    retain_fault(h, items, used, c, n)?;
    if len - c < n {
        return Err(Refusal::Short);
    }
    Ok(())
}

fn op_fault(
    h: Head,
    items: &[u64],
    used: &[u16],
    len: u32,
    c: u32,
    op: Op,
    chunk: &[u16],
) -> Result<(), Refusal>
    requires { Readable h items.now used.now × (len ≡ length (visible_units used.now (list_of h items.now))) × (c ≤ len) × (past_end (length chunk.now) op ≡ false) }
    ensures { refusal_in result ≡ fault_for (visible_units used.now (list_of h items.now)) c chunk.now op }
{
    match op {
        Op::Insert(part) => part_fault(chunk, part),
        Op::Delete(n) => delete_fault(h, items, used, len, c, n),
        Op::Retain(n) => retain_fault(h, items, used, c, n),
    }
}

fn moved(len: u32, c: u32, n: u32) -> u32
    requires { c ≤ len }
    ensures { result ≡ min len (c + n) }
{
    if len - c < n { len } else { c + n }
}

fn place_after(len: u32, c: u32, op: Op) -> u32
    requires { c ≤ len }
    ensures { result ≡ place_after len c op }
{
    match op {
        Op::Insert(_) => c,
        Op::Delete(n) | Op::Retain(n) => moved(len, c, n),
    }
}

// The first operation that something is wrong with decides.
pub(crate) fn fault(
    h: Head,
    items: &[u64],
    used: &[u16],
    len: u32,
    ops: &[DeltaOp],
    chunk: &[u16],
) -> Result<(), Refusal>
    requires { Readable h items.now used.now × (len ≡ length (visible_units used.now (list_of h items.now))) × (any_past (length chunk.now) ops.now ≡ false) }
    ensures { refusal_in result ≡ check (visible_units used.now (list_of h items.now)) 0 (map (op_of chunk.now) ops.now) }
{
    let mut c = 0;
    for d in ops {
        op_fault(h, items, used, len, c, d.op, chunk)?;
        c = place_after(len, c, d.op);
    }
    Ok(())
}
