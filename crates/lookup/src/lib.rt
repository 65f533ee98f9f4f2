// What numbers stand for, read back from the lent bytes.
#![tactic(auto)]

ghost use Rattle.std.specs.Prelude.{◌≡◌, ◌+◌, true, false, MatchOption};
ghost use Rattle.entries.specs.Entry.{kind_at, content_at};
ghost use Rattle.entries.specs.Kind.{byte_of};
ghost use Rattle.lookup.specs.Show.{given_name, given_value, shown_of, name_of, string_of};

use entries::kinds::Kind;
use entries::slots::{BYTES, content, kind_at};
use table::{TableHead, sound_slots};

// What a value's number stands for. A string is shown without its bytes, which `string_bytes` shows: `shown_of` and the two C calls
// read the kind and the bytes apart.
#[derive(Clone, Copy)]
pub enum Shown {
    Bool(bool),
    Int(i64),
    String,
}

// The slots, where a name's number is given out.
#[tactic(auto, unfolding(crate::specs::Show::given_name))]
fn name_slots(h: TableHead, table: &[u8], n: u32) -> Option<&[u8; BYTES]>
    ensures { MatchOption result (given_name h table.now n ≡ false) (λ slots. (given_name h table.now n ≡ true) × (slots.now ≡ table.now)) }
{
    let slots = sound_slots(h, table)?;
    (n < h.names).then_some(slots)
}

// The kind and content of a value, where its number is given out.
#[tactic(auto, unfolding(crate::specs::Show::given_value))]
fn value_entry(h: TableHead, table: &[u8], v: u32) -> Option<(Kind, &[u8])>
    ensures { MatchOption result (given_value h table.now v ≡ false) (λ e. (given_value h table.now v ≡ true) × (byte_of e.0 ≡ kind_at table.now (15 + v)) × (e.1.now ≡ content_at table.now (15 + v))) }
{
    let slots = sound_slots(h, table)?;
    if v == 0 || v > h.values {
        return None;
    }
    let slot = TableHead::NAMES - 1 + v as usize;
    let kind = Kind::try_from(kind_at(slots, slot)).ok()?;
    Some((kind, content(slots, slot)))
}

// The bytes of a name where they lie: no byte for a number that is not given out, and no name has none.
#[tactic(auto, unfolding(crate::specs::Show::name_of))]
pub fn name_bytes(h: TableHead, table: &[u8], n: u32) -> &[u8]
    ensures { result.now ≡ name_of h table.now n }
{
    match name_slots(h, table, n) {
        Some(slots) => content(slots, n as usize),
        None => &[],
    }
}

#[tactic(auto, unfolding(crate::specs::Show::shown_of))]
pub fn value_at(h: TableHead, table: &[u8], v: u32) -> Option<Shown>
    ensures { result ≡ shown_of h table.now v }
{
    let (kind, content) = value_entry(h, table, v)?;
    match kind {
        Kind::Bool => Some(Shown::Bool(content[0] == 1)),
        Kind::Int => Some(Shown::Int(i64::from_le_bytes(content.try_into().unwrap()))),
        _ => Some(Shown::String),
    }
}

// The bytes of a string value where they lie: no byte for a number that is not given out, and for a value that is no string.
#[tactic(auto, unfolding(crate::specs::Show::string_of))]
pub fn string_bytes(h: TableHead, table: &[u8], v: u32) -> &[u8]
    ensures { result.now ≡ string_of h table.now v }
{
    let Some((kind, content)) = value_entry(h, table, v) else {
        return &[];
    };
    match kind {
        Kind::String => content,
        _ => &[],
    }
}
