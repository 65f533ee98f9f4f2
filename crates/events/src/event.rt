// The event of the current transaction, into lent numbers and lent units of any length.
ghost use Rattle.std.specs.Prelude.{◌≡◌, length};
ghost use Rattle.rules.specs.Reading.{before, live};
ghost use Rattle.events.specs.Given.{answered, given, at_front};

use crate::fill::fill;
use crate::walk::walk;
use encoding::WORDS;
use layout::head::Head;
use refusal::Refusal;
use soundness::sound;

// How many operations and units an event has.
#[derive(Clone, Copy)]
pub struct Written {
    pub ops: u32,
    pub units: u32,
}

// Measured first, so that nothing is written where it does not fit.
#[tactic(auto, using(crate::proofs::Events::walkable))]
pub fn event(
    h: Head,
    items: &[u64],
    units: &[u16],
    ops: &mut [u32],
    out: &mut [u16],
) -> Result<Written, Refusal>
    ensures answer { answered result ≡ (given before live h items.now units.now (length ops.old) (length out.old)).answer }
    ensures words { ops.new ≡ at_front (given before live h items.now units.now (length ops.old) (length out.old)).words ops.old }
    ensures texts { out.new ≡ at_front (given before live h items.now units.now (length ops.old) (length out.old)).units out.old }
{
    if !sound(h, items, units) {
        return Err(Refusal::Broken);
    }
    let m = walk(h, items, false, 0, ops);
    if m.ops as usize * WORDS > ops.len() || m.units as usize > out.len() {
        return Err(Refusal::Out);
    }
    walk(h, items, false, m.ops, ops);
    fill(h, items, units, false, out);
    Ok(m)
}
