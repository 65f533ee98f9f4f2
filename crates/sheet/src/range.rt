// A range formatted or removed.
ghost use Rattle.std.specs.Prelude.{◌≡◌};
ghost use Rattle.attrs.specs.Packed.{says};
ghost use Rattle.rules.specs.Calls.{format_range, remove_range};
ghost use Rattle.layout.specs.Memory.{leaving, carry};

use attrs::Attrs;
use changes::change::Change;
use changes::frame::edit;
use layout::head::Head;
use refusal::Refusal;
use refusals::{range_fault, removal_fault};
use soundness::{measure, sound};

// A length past the end formats to the end.
pub fn format(
    h: Head,
    items: &mut [u64],
    units: &[u16],
    index: u32,
    len: u32,
    attrs: Attrs,
) -> Result<Head, Refusal>
    ensures { leaving h result items.new units.now ≡ carry (format_range index len (says attrs)) h items.old units.now }
{
    if !sound(h, items, units) {
        return Err(Refusal::Broken);
    }
    range_fault(h, items, units, index, len)?;
    edit(h, items, index, Change::Format { len, attrs }, h.units)
}

// All of the range or nothing: where fewer units stand right of the index, none is deleted.
pub fn remove_range(
    h: Head,
    items: &mut [u64],
    units: &[u16],
    index: u32,
    len: u32,
) -> Result<Head, Refusal>
    ensures { leaving h result items.new units.now ≡ carry (remove_range index len) h items.old units.now }
{
    let all = measure(h, items, units).ok_or(Refusal::Broken)?;
    removal_fault(h, items, units, all, index, len)?;
    if len == 0 {
        return Ok(h);
    }
    edit(h, items, index, Change::Remove(len), h.units)
}
