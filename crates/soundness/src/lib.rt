// Whether a lent sheet is sound, and how long it is.
#![tactic(auto)]

ghost use Rattle.std.specs.Prelude.{◌≡◌, ◌<◌, ◌≤◌, length};
ghost use Rattle.rules.specs.Sheet.{text};
ghost use Rattle.layout.specs.Word.{what_of, content_from, shown_len};
ghost use Rattle.soundness.specs.Walk.{Sized, Plain, told, measure_of};
ghost use Rattle.layout.specs.Memory.{flags_ok, len_of, what_ok, word_ok, sound_of};

use layout::head::Head;
use layout::word::{flags_of, in_range, kind_of, next_of, payload_of};

// The units of a sheet. `plain`: none of those in use is half of a pair, so that none has to be looked at.
#[derive(Clone, Copy)]
struct Texts<'a> {
    units: &'a [u16],
    used: u32,
    plain: bool,
    ghost within: { used ≤ length units.now },
    ghost whole: { Plain plain used units.now },
}

fn flags_ok(dead: bool, added: bool, gone: bool) -> bool
    ensures { result ≡ flags_ok dead added gone }
{
    if dead { gone || !added } else { !gone }
}

fn piece_ok(start: u32, len: u32, texts: Texts) -> bool
    ensures { result ≡ what_ok texts.entry.units.now texts.entry.used (text start len) }
{
    let end = start as u64 + len as u64;
    if len == 0 || end > texts.used as u64 {
        return false;
    }
    texts.plain || units::is_whole(&texts.units[start as usize..end as usize])
}

// What a kind and a payload say, here and below, with no item made of the word: every call makes this walk.
fn content_ok(kind: u64, payload: u64, texts: Texts) -> bool
    requires { payload < 4294967296 }
    ensures { result ≡ what_ok texts.entry.units.now texts.entry.used (what_of (content_from kind payload)) }
{
    if kind == 0 {
        return piece_ok((payload % 16384) as u32, (payload / 16384) as u32, texts);
    }
    if kind == 1 {
        return true;
    }
    payload / 16 < 256
}

fn word_ok(w: u64, texts: Texts) -> bool
    ensures { result ≡ word_ok texts.entry.units.now texts.entry.used w }
{
    let (dead, added, gone) = flags_of(w);
    if !in_range(w) || !flags_ok(dead, added, gone) {
        return false;
    }
    content_ok(kind_of(w), payload_of(w), texts)
}

fn text_len(kind: u64, payload: u64) -> u32
    requires { payload < 4294967296 }
    ensures { result ≡ len_of (what_of (content_from kind payload)) }
{
    if kind == 0 {
        (payload / 16384) as u32
    } else {
        0
    }
}

// What is added to the visible length.
fn shown_len(dead: bool, kind: u64, payload: u64) -> u32
    requires { payload < 4294967296 }
    ensures { result ≡ shown_len dead (what_of (content_from kind payload)) }
{
    if dead {
        return 0;
    }
    if kind == 1 {
        1
    } else {
        text_len(kind, payload)
    }
}

// One walk by the links. It stops where the texts so far are longer than all of them may be, so that no unit is read more than
// twice, however the pieces overlap.
fn walk(h: Head, items: &[u64], texts: Texts) -> Option<u32>
    requires sized { Sized h items.now texts.units.now }
    requires used { texts.used ≡ h.units }
    ensures { told result ≡ measure_of h items.now texts.entry.units.now }
{
    let mut at = h.first;
    let mut sum = 0;
    let mut len = 0;
    for _ in 0..h.items {
        if at >= h.items {
            return None;
        }
        let w = items[at as usize];
        if !word_ok(w, texts) {
            return None;
        }
        let kind = kind_of(w);
        let payload = payload_of(w);
        sum += text_len(kind, payload);
        if sum > h.units {
            return None;
        }
        len += shown_len(flags_of(w).0, kind, payload);
        at = next_of(w);
    }
    if at == Head::END && sum == h.units {
        Some(len)
    } else {
        None
    }
}

// How many units and embeds are visible; none where the sheet is not sound.
pub fn measure(h: Head, items: &[u64], units: &[u16]) -> Option<u32>
    ensures { told result ≡ measure_of h items.now units.now }
{
    if items.len() != 2048 || units.len() != 16384 {
        return None;
    }
    if h.items > Head::ITEMS || h.units > Head::UNITS {
        return None;
    }
    let plain = units::is_plain(&units[..h.units as usize]);
    walk(
        h,
        items,
        Texts {
            units,
            used: h.units,
            plain,
        },
    )
}

pub fn sound(h: Head, items: &[u64], units: &[u16]) -> bool
    ensures { result ≡ sound_of h items.now units.now }
{
    measure(h, items, units).is_some()
}
