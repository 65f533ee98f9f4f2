// The refusals that only read. The sheet is sound, which the caller has tested: a type that says so would hold the items that the edit
// behind it writes.
#![tactic(auto)]

ghost use Rattle.std.specs.Prelude.{◌≡◌, true, cond, not};
ghost use Rattle.refusal.specs.Numbers.{refusal_in};
ghost use Rattle.units.specs.Surrogates.{paired, splits_pair};
ghost use Rattle.rules.specs.Reading.{visible};
ghost use Rattle.rules.specs.Calls.{bad_range};
ghost use Rattle.rules.specs.Rulings.{seen};
ghost use Rattle.layout.specs.Memory.{list_of, sound_of, model_of};
ghost use Rattle.refusals.specs.Ranges.{removal_fault};

use cuts::cuts_pair;
use layout::head::Head;
use refusal::Refusal;

// The index is of 64 bits, so that an index and a length add up exactly.
fn pair_fault(h: Head, items: &[u64], units: &[u16], index: u64) -> Result<(), Refusal>
    requires { sound_of h items.now units.now ≡ true }
    ensures { refusal_in result ≡ cond (splits_pair (seen (model_of h items.now units.now)) index) 2 0 }
{
    if cuts_pair(h, items, &units[..h.units as usize], index) {
        return Err(Refusal::Pair);
    }
    Ok(())
}

// An embed has nothing wrong of its own: its index alone decides, and callers have that in 32 bits.
pub fn embed_fault(h: Head, items: &[u64], units: &[u16], index: u32) -> Result<(), Refusal>
    requires { sound_of h items.now units.now ≡ true }
    ensures { refusal_in result ≡ cond (splits_pair (seen (model_of h items.now units.now)) index) 2 0 }
{
    pair_fault(h, items, units, u64::from(index))
}

pub fn text_fault(
    h: Head,
    items: &[u64],
    units: &[u16],
    index: u32,
    chunk: &[u16],
) -> Result<(), Refusal>
    requires { sound_of h items.now units.now ≡ true }
    ensures { refusal_in result ≡ cond (not (paired chunk.now)) 3 (cond (splits_pair (seen (model_of h items.now units.now)) index) 2 0) }
{
    if !units::is_whole(chunk) {
        return Err(Refusal::Units);
    }
    embed_fault(h, items, units, index)
}

// The end of a range lies in the text too, or past it.
pub fn range_fault(
    h: Head,
    items: &[u64],
    units: &[u16],
    index: u32,
    len: u32,
) -> Result<(), Refusal>
    requires { sound_of h items.now units.now ≡ true }
    ensures { refusal_in result ≡ cond (bad_range (seen (model_of h items.now units.now)) index len) 2 0 }
{
    let start = u64::from(index);
    pair_fault(h, items, units, start)?;
    pair_fault(h, items, units, start + u64::from(len))
}

// `all` is the visible length.
pub fn removal_fault(
    h: Head,
    items: &[u64],
    units: &[u16],
    all: u32,
    index: u32,
    n: u32,
) -> Result<(), Refusal>
    requires { (sound_of h items.now units.now ≡ true) × (all ≡ visible (list_of h items.now)) }
    ensures { refusal_in result ≡ removal_fault (seen (model_of h items.now units.now)) index n }
{
    range_fault(h, items, units, index, n)?;
    if n > 0 && u64::from(index) + u64::from(n) > u64::from(all) {
        return Err(Refusal::Short);
    }
    Ok(())
}
