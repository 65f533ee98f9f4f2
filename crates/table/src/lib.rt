// Names and values numbered in the order of first asking, in bytes that the caller lends.
#![tactic(auto)]

ghost use Rattle.std.specs.Prelude.{◌≡◌, ◌+◌, ◌≤◌, true, false, MatchOption};
ghost use Rattle.entries.specs.Entry.{entries};
ghost use Rattle.entries.specs.Kind.{byte_of};
ghost use Rattle.table.specs.Value.{bool as bool_value, int as int_value, string as string_value};
ghost use Rattle.table.specs.Sound.{fresh_head, sound_of};
ghost use Rattle.table.specs.Ask.{shelf_of, grown_of, too_long, asking_of, ask_of, ask_name, ask_value, told, Gives};

use entries::kinds::Kind;
use entries::slots::{BYTES, find, put};
use entries::soundness::shelf_sound;
use refusal::Refusal;

// How many names and values a table has; the entries are in the lent bytes.
#[derive(Clone, Copy)]
pub struct TableHead {
    pub names: u32,
    pub values: u32,
}

// The number that was asked for, and the head afterwards.
#[derive(Clone, Copy)]
pub struct Asked {
    pub number: u32,
    pub head: TableHead,
}

// Where the entries of a kind stand.
#[derive(Clone, Copy)]
pub(crate) struct Shelf {
    pub from: usize,
    pub count: usize,
    pub most: usize,
    pub first: usize,
}

impl TableHead {
    pub const NAMES: usize = 16;

    pub const VALUES: usize = 255;

    pub const LONGEST: usize = 32;

    pub const BYTES: usize = BYTES;

    pub fn fresh() -> TableHead
        ensures { result ≡ fresh_head }
    {
        TableHead {
            names: 0,
            values: 0,
        }
    }

    #[tactic(auto, unfolding(crate::specs::Ask::shelf_of))]
    fn shelf(self, kind: Kind) -> Shelf
        ensures { result ≡ shelf_of self (byte_of kind) }
    {
        match kind {
            Kind::Name => Shelf {
                from: 0,
                count: self.names as usize,
                most: TableHead::NAMES,
                first: 0,
            },
            _ => Shelf {
                from: TableHead::NAMES,
                count: self.values as usize,
                most: TableHead::VALUES,
                first: 1,
            },
        }
    }

    #[tactic(auto, unfolding(crate::specs::Ask::grown_of))]
    fn grown(self, kind: Kind) -> TableHead
        requires { (self.names ≤ 16) × (self.values ≤ 255) }
        ensures { result ≡ grown_of self (byte_of kind) }
    {
        match kind {
            Kind::Name => TableHead {
                names: self.names + 1,
                ..self
            },
            _ => TableHead {
                values: self.values + 1,
                ..self
            },
        }
    }
}

#[tactic(auto, unfolding(crate::specs::Sound::sound_of))]
fn in_order(h: TableHead, slots: &[u8; BYTES]) -> bool
    ensures { result ≡ sound_of h slots.now }
{
    let names = h.names as usize;
    let values = h.values as usize;
    shelf_sound(slots, 0, names, TableHead::NAMES)
        && shelf_sound(slots, TableHead::NAMES, values, TableHead::VALUES)
}

// The slots of a sound table.
#[tactic(auto, unfolding(crate::specs::Sound::sound_of))]
pub fn sound_slots(h: TableHead, table: &[u8]) -> Option<&[u8; BYTES]>
    ensures { MatchOption result (sound_of h table.now ≡ false) (λ slots. (sound_of h table.now ≡ true) × (slots.now ≡ table.now)) }
{
    let slots = table.as_array()?;
    in_order(h, slots).then_some(slots)
}

pub fn sound(h: TableHead, table: &[u8]) -> bool
    ensures { result ≡ sound_of h table.now }
{
    sound_slots(h, table).is_some()
}

#[tactic(auto, unfolding(crate::specs::Ask::too_long))]
fn too_long(kind: Kind, n: usize) -> bool
    ensures { result ≡ too_long (byte_of kind) n }
{
    match kind {
        Kind::Name => n == 0 || n > TableHead::LONGEST,
        _ => n > TableHead::LONGEST,
    }
}

// Which of the entries of its kind an entry is, or none where it is new and a number is left for it.
fn decide(slots: &[u8; BYTES], s: Shelf, kind: Kind, bytes: &[u8]) -> Result<Option<usize>, Refusal>
    requires { s.from + s.count ≤ 271 }
    ensures { result ≡ asking_of s.most (entries slots.now s.from s.count) (byte_of kind) bytes.now }
{
    if too_long(kind, bytes.len()) {
        return Err(Refusal::Long);
    }
    match find(slots, s.from, s.count, u8::from(kind), bytes) {
        Some(i) => Ok(Some(i)),
        None if s.count < s.most => Ok(None),
        None => Err(Refusal::Full),
    }
}

// The number of an entry, known or new.
fn ask(h: TableHead, table: &mut [u8], kind: Kind, bytes: &[u8]) -> Result<Asked, Refusal>
    ensures { Gives (ask_of h table.old (byte_of kind) bytes.now) (told h result) table.new }
{
    // Two tests that return: by `ok_or` and `?` the borrow that is written behind them would read no plainer.
    let Some(slots) = table.as_mut_array() else {
        return Err(Refusal::Broken);
    };
    if !in_order(h, slots) {
        return Err(Refusal::Broken);
    }
    let s = h.shelf(kind);
    let known = decide(slots, s, kind, bytes)?;
    match known {
        Some(i) => Ok(Asked {
            number: (s.first + i) as u32,
            head: h,
        }),
        None => {
            put(slots, s.from + s.count, u8::from(kind), bytes);
            Ok(Asked {
                number: (s.first + s.count) as u32,
                head: h.grown(kind),
            })
        }
    }
}

pub fn ask_name(h: TableHead, table: &mut [u8], name: &[u8]) -> Result<Asked, Refusal>
    ensures { Gives (ask_name h table.old name.now) (told h result) table.new }
{
    ask(h, table, Kind::Name, name)
}

#[tactic(auto, unfolding(crate::specs::Value::kind_of, crate::specs::Value::content_of))]
pub fn ask_bool(h: TableHead, table: &mut [u8], b: bool) -> Result<Asked, Refusal>
    ensures { Gives (ask_value h table.old (bool_value b)) (told h result) table.new }
{
    let bytes = [u8::from(b)];
    ask(h, table, Kind::Bool, &bytes)
}

pub fn ask_int(h: TableHead, table: &mut [u8], n: i64) -> Result<Asked, Refusal>
    ensures { Gives (ask_value h table.old (int_value n)) (told h result) table.new }
{
    let bytes = n.to_le_bytes();
    ask(h, table, Kind::Int, &bytes)
}

#[tactic(auto, unfolding(crate::specs::Value::kind_of, crate::specs::Value::content_of))]
pub fn ask_string(h: TableHead, table: &mut [u8], text: &[u8]) -> Result<Asked, Refusal>
    ensures { Gives (ask_value h table.old (string_value text.now)) (told h result) table.new }
{
    ask(h, table, Kind::String, text)
}
