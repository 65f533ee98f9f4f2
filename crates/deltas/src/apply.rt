// A delta carried out on a sheet, as a whole or not at all.
ghost use Rattle.std.specs.Prelude.{◌≡◌, ◌≤◌, true, false, length, map};
ghost use Rattle.rules.specs.Reading.{visible};
ghost use Rattle.rules.specs.Calls.{apply_delta};
ghost use Rattle.layout.specs.Memory.{list_of, sound_of, leaving, carry};
ghost use Rattle.ops.specs.Ops.{op_of};
ghost use Rattle.deltas.specs.Checks.{any_past};
ghost use Rattle.deltas.specs.Call.{short_scratch, carry_delta};

use crate::append::append_all;
use crate::checks::{many, operations, total};
use crate::faults::fault;
use carrying::frame::carry_all;
use layout::head::Head;
use ops::delta::{Delta, DeltaOp};
use refusal::Refusal;
use soundness::measure;

fn short_scratch(items: &[u64], units: &[u16]) -> bool
    ensures { result ≡ short_scratch (length items.now) (length units.now) }
{
    items.len() < Head::ITEMS as usize || units.len() < Head::UNITS as usize
}

// What the rules decide: a fault of an operation, then whether all of it has room. `all` is the visible length.
fn carry_read(
    h: Head,
    items: &mut [u64],
    units: &mut [u16],
    all: u32,
    ops: &[DeltaOp],
    chunk: &[u16],
) -> Result<Head, Refusal>
    requires { (sound_of h items.old units.old ≡ true) × (all ≡ visible (list_of h items.old)) × (length ops.now ≤ 256) × (any_past (length chunk.now) ops.now ≡ false) }
    ensures { leaving h result items.new units.new ≡ carry (apply_delta (map (op_of chunk.now) ops.now)) h items.old units.old }
{
    let used = h.units as usize;
    fault(h, items, &units[..used], all, ops, chunk)?;
    let new = total(ops);
    if new > u64::from(Head::UNITS - h.units) {
        return Err(Refusal::Room);
    }
    let head = carry_all(h, items, ops, h.units + new as u32)?;
    append_all(units, h.units, ops, chunk);
    Ok(head)
}

// The scratch is measured and not touched: the operations are carried out in a working copy of our own.
pub fn apply_delta(
    h: Head,
    items: &mut [u64],
    units: &mut [u16],
    delta: Delta,
    chunk: &[u16],
    scratch_items: &[u64],
    scratch_units: &[u16],
) -> Result<Head, Refusal>
    ensures { leaving h result items.new units.new ≡ carry_delta (length scratch_items.now) (length scratch_units.now) chunk.now delta h items.old units.old }
{
    let len = measure(h, items, units).ok_or(Refusal::Broken)?;
    if many(chunk.len(), delta) {
        return Err(Refusal::Many);
    }
    if short_scratch(scratch_items, scratch_units) {
        return Err(Refusal::Out);
    }
    carry_read(h, items, units, len, operations(&delta), chunk)
}
