// The calls that change a sheet: the head's numbers and the buffers are lent.
ghost use Rattle.std.specs.Prelude.{◌≡◌};
ghost use Rattle.attrs.specs.Packed.{says};
ghost use Rattle.rules.specs.Calls.{begin_now, insert_text, insert_text_with, insert_embed, insert_embed_with, format_range, remove_range};
ghost use Rattle.layout.specs.Memory.{carry};
ghost use Rattle.ffi.specs.Heads.{head_of, set_of, left};

use crate::heads::{answered, head_of, set_of};

#[unsafe(no_mangle)]
pub extern "C" fn indovalump_begin(head: &mut [u32; 3], items: &mut [u64], units: &[u16]) -> u32
    ensures { left result head.new items.new units.now ≡ carry begin_now (head_of head.old) items.old units.now }
{
    let h = head_of(head);
    answered(head, items::begin(h, items, units))
}

#[unsafe(no_mangle)]
pub extern "C" fn indovalump_insert(
    head: &mut [u32; 3],
    items: &mut [u64],
    units: &mut [u16],
    index: u32,
    text: &[u16],
) -> u32
    ensures { left result head.new items.new units.new ≡ carry (insert_text index text.now) (head_of head.old) items.old units.old }
{
    let h = head_of(head);
    answered(head, sheet::insert::insert(h, items, units, index, text))
}

#[unsafe(no_mangle)]
pub extern "C" fn indovalump_insert_with_attributes(
    head: &mut [u32; 3],
    items: &mut [u64],
    units: &mut [u16],
    index: u32,
    text: &[u16],
    mask: u16,
    values: &[u8; 16],
) -> u32
    ensures { left result head.new items.new units.new ≡ carry (insert_text_with index text.now (says (set_of mask values.now))) (head_of head.old) items.old units.old }
{
    let h = head_of(head);
    let set = set_of(mask, values);
    answered(
        head,
        sheet::insert::insert_with_attributes(h, items, units, index, text, set),
    )
}

#[unsafe(no_mangle)]
pub extern "C" fn indovalump_insert_embed(
    head: &mut [u32; 3],
    items: &mut [u64],
    units: &[u16],
    index: u32,
    number: u32,
) -> u32
    ensures { left result head.new items.new units.now ≡ carry (insert_embed index number) (head_of head.old) items.old units.now }
{
    let h = head_of(head);
    answered(
        head,
        sheet::insert::insert_embed(h, items, units, index, number),
    )
}

#[unsafe(no_mangle)]
pub extern "C" fn indovalump_insert_embed_with_attributes(
    head: &mut [u32; 3],
    items: &mut [u64],
    units: &[u16],
    index: u32,
    number: u32,
    mask: u16,
    values: &[u8; 16],
) -> u32
    ensures { left result head.new items.new units.now ≡ carry (insert_embed_with index number (says (set_of mask values.now))) (head_of head.old) items.old units.now }
{
    let h = head_of(head);
    let set = set_of(mask, values);
    answered(
        head,
        sheet::insert::insert_embed_with_attributes(h, items, units, index, number, set),
    )
}

#[unsafe(no_mangle)]
pub extern "C" fn indovalump_format(
    head: &mut [u32; 3],
    items: &mut [u64],
    units: &[u16],
    index: u32,
    len: u32,
    mask: u16,
    values: &[u8; 16],
) -> u32
    ensures { left result head.new items.new units.now ≡ carry (format_range index len (says (set_of mask values.now))) (head_of head.old) items.old units.now }
{
    let h = head_of(head);
    let set = set_of(mask, values);
    answered(head, sheet::range::format(h, items, units, index, len, set))
}

#[unsafe(no_mangle)]
pub extern "C" fn indovalump_remove_range(
    head: &mut [u32; 3],
    items: &mut [u64],
    units: &[u16],
    index: u32,
    len: u32,
) -> u32
    ensures { left result head.new items.new units.now ≡ carry (remove_range index len) (head_of head.old) items.old units.now }
{
    let h = head_of(head);
    answered(
        head,
        sheet::range::remove_range(h, items, units, index, len),
    )
}
