// A delta that is lent in operation numbers, eight to each operation.
ghost use Rattle.std.specs.Prelude.{◌≡◌, length};
ghost use Rattle.layout.specs.Memory.{leaving};
ghost use Rattle.ffi.specs.Heads.{head_of, left};
ghost use Rattle.ffi.specs.Deltas.{delta_in, carry_words};

use crate::heads::{answered, head_of};
use deltas::apply::apply_delta;
use encoding::{WORDS, op_at};
use layout::head::Head;
use ops::delta::Delta;
use refusal::Refusal;
use soundness::sound;

// None where something is no operation.
#[tactic(auto, unfolding(ops::specs::Ops::empty_delta, crate::specs::Deltas::delta_in, crate::specs::Deltas::read_ops))]
fn read_delta(words: &[u32]) -> Option<Delta>
    ensures { result ≡ delta_in words.now }
{
    if words.len() > Delta::OPS as usize * WORDS || words.len() % WORDS != 0 {
        return None;
    }
    let mut delta = Delta::empty();
    for i in 0..(words.len() / WORDS) as u32 {
        let op = op_at(words, i)?;
        delta = delta.push(op).ok()?;
    }
    Some(delta)
}

#[tactic(auto, unfolding(crate::specs::Deltas::carry_words))]
fn carry_words(
    h: Head,
    items: &mut [u64],
    units: &mut [u16],
    ops: &[u32],
    text: &[u16],
    scratch_items: &[u64],
    scratch_units: &[u16],
) -> Result<Head, Refusal>
    ensures { leaving h result items.new units.new ≡ carry_words (length scratch_items.now) (length scratch_units.now) text.now ops.now h items.old units.old }
{
    match read_delta(ops) {
        Some(delta) => apply_delta(h, items, units, delta, text, scratch_items, scratch_units),
        None if sound(h, items, units) => Err(Refusal::Many),
        None => Err(Refusal::Broken),
    }
}

// `text` are the units that the operations' texts are parts of. Numbers that are no operation are refused as too many are.
#[unsafe(no_mangle)]
pub extern "C" fn indovalump_apply_delta(
    head: &mut [u32; 3],
    items: &mut [u64],
    units: &mut [u16],
    ops: &[u32],
    text: &[u16],
    scratch_items: &[u64],
    scratch_units: &[u16],
) -> u32
    ensures { left result head.new items.new units.new ≡ carry_words (length scratch_items.now) (length scratch_units.now) text.now ops.now (head_of head.old) items.old units.old }
{
    let h = head_of(head);
    answered(
        head,
        carry_words(h, items, units, ops, text, scratch_items, scratch_units),
    )
}
