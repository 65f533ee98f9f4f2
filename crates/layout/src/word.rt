// An item and the word that holds it. Words are taken apart and put together here; only the walk of soundness reads a payload itself.
ghost use Rattle.std.specs.Prelude.{◌≡◌, ◌<◌, ◌≤◌};
ghost use Rattle.rules.specs.Sheet.{width, is_mark};
ghost use Rattle.layout.specs.Word.{what_of, content_from, unpack_of, kind_of, kind_in, payload_of, payload_in, pack_of, relink_of, in_range, shown_len, live_mark};

#[derive(Clone, Copy)]
pub enum Content {
    Text { start: u32, len: u32 },
    Embed(u32),
    Mark { key: u32, value: u32 },
}

// `gone` says that the item was deleted in the current transaction.
#[derive(Clone, Copy)]
pub struct Item {
    pub next: u32,
    pub content: Content,
    pub dead: bool,
    pub added: bool,
    pub gone: bool,
}

// How many units long.
pub fn width(c: Content) -> u32
    ensures { result ≡ width (what_of c) }
{
    match c {
        Content::Text { len, .. } => len,
        Content::Embed(_) => 1,
        Content::Mark { .. } => 0,
    }
}

pub fn is_mark(c: Content) -> bool
    ensures { result ≡ is_mark (what_of c) }
{
    matches!(c, Content::Mark { .. })
}

// A kind is a number here and below, as it stands in the word.
fn content_of(k: u64, p: u64) -> Content
    requires { p < 4294967296 }
    ensures { result ≡ content_from k p }
{
    match k {
        0 => Content::Text {
            start: (p % 16384) as u32,
            len: (p / 16384) as u32,
        },
        1 => Content::Embed(p as u32),
        _ => Content::Mark {
            key: (p % 16) as u32,
            value: (p / 16) as u32,
        },
    }
}

// The parts of a word one by one, for the walk that every call makes: an item made of each word takes it half as long again.
pub fn next_of(w: u64) -> u32
    ensures { result ≡ (unpack_of w).next }
{
    (w % 4096) as u32
}

// Deleted, added, deleted in the current transaction.
pub fn flags_of(w: u64) -> (bool, bool, bool)
    ensures dead { result.0 ≡ (unpack_of w).dead }
    ensures added { result.1 ≡ (unpack_of w).added }
    ensures gone { result.2 ≡ (unpack_of w).gone }
{
    let rest = w / 4096;
    (rest / 4 % 2 == 1, rest / 8 % 2 == 1, rest / 16 % 2 == 1)
}

pub fn kind_of(w: u64) -> u64
    ensures { result ≡ kind_in w }
{
    w / 4096 % 4
}

pub fn payload_of(w: u64) -> u64
    ensures value { result ≡ payload_in w }
    ensures bound { result < 4294967296 }
{
    w / 4096 / 32 % 4294967296
}

pub fn unpack(w: u64) -> Item
    ensures { result ≡ unpack_of w }
{
    let (dead, added, gone) = flags_of(w);
    Item {
        next: next_of(w),
        content: content_of(kind_of(w), payload_of(w)),
        dead,
        added,
        gone,
    }
}

fn kind(c: Content) -> u64
    ensures { (result ≡ kind_of c) × (result ≤ 2) }
{
    match c {
        Content::Text { .. } => 0,
        Content::Embed(_) => 1,
        Content::Mark { .. } => 2,
    }
}

fn payload(c: Content) -> u64
    ensures { (result ≡ payload_of c) × (result < 70373039144960) }
{
    match c {
        Content::Text { start, len } => start as u64 + 16384 * (len as u64),
        Content::Embed(n) => n as u64,
        Content::Mark { key, value } => key as u64 + 16 * (value as u64),
    }
}

pub fn pack(it: Item) -> u64
    ensures { result ≡ pack_of it }
{
    let c = it.content;
    let k = kind(c);
    let p = payload(c);
    let d = u64::from(it.dead);
    let a = u64::from(it.added);
    let g = u64::from(it.gone);
    it.next as u64 + 4096 * (k + 4 * d + 8 * a + 16 * g + 32 * p)
}

// The word with another link.
pub fn relink(w: u64, n: u32) -> u64
    requires { n < 4096 }
    ensures { result ≡ relink_of w n }
{
    w / 4096 * 4096 + n as u64
}

// Whether packing makes such words at all: the bits above the payload are free, and there are three kinds.
#[tactic(auto, unfolding(crate::specs::Word::in_range))]
pub fn in_range(w: u64) -> bool
    ensures { result ≡ in_range w }
{
    w < 562949953421312 && w / 4096 % 4 < 3
}

// What an item adds to the visible length.
pub fn shown_len(it: Item) -> u32
    ensures { result ≡ shown_len it.dead (what_of it.content) }
{
    if it.dead { 0 } else { width(it.content) }
}

// Only such an item changes what is in force.
pub fn is_live_mark(it: Item) -> bool
    ensures { result ≡ live_mark it.dead (what_of it.content) }
{
    !it.dead && is_mark(it.content)
}
