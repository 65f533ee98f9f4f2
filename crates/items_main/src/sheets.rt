// Small sheets, and what is written of them.
use layout::head::Head;
use layout::word::{Content, Item, pack};
use soundness::sound;
use std::io;

// A sheet of three items, by their words, over four units.
#[derive(Clone, Copy)]
pub struct Small {
    pub head: Head,
    pub a: u64,
    pub b: u64,
    pub c: u64,
    pub units: [u16; 4],
}

// The highest embed, live, in the middle of a sheet.
pub const EMBED: Item = Item {
    next: 2,
    content: Content::Embed(0xFFFF_FFFF),
    dead: false,
    added: false,
    gone: false,
};

// `head`, `text` and `mark` stand in other programs too: to share these few lines would need a crate of its own.
fn live(next: u32, content: Content) -> u64 {
    pack(Item {
        next,
        content,
        ..EMBED
    })
}

pub fn text(next: u32, start: u32, len: u32) -> u64 {
    live(next, Content::Text { start, len })
}

pub fn last(start: u32, len: u32) -> u64 {
    text(Head::END, start, len)
}

pub fn mark(next: u32, key: u32, value: u32) -> u64 {
    live(next, Content::Mark { key, value })
}

pub fn dead(item: Item) -> Item {
    Item { dead: true, ..item }
}

pub fn added(item: Item) -> Item {
    Item {
        added: true,
        ..item
    }
}

pub fn gone(item: Item) -> Item {
    Item { gone: true, ..item }
}

pub fn head(first: u32, items: u32, units: u32) -> Head {
    Head {
        first,
        items,
        units,
    }
}

// "ab", a mark, "cd".
pub fn plain() -> Small {
    Small {
        head: head(0, 3, 4),
        a: text(1, 0, 2),
        b: mark(2, 15, 255),
        c: last(2, 2),
        units: [0x61, 0x62, 0x63, 0x64],
    }
}

pub fn words_of(s: Small) -> [u64; 2048] {
    let mut items = [0u64; 2048];
    items[..3].copy_from_slice(&[s.a, s.b, s.c]);
    items
}

pub fn units_of(s: Small) -> [u16; 16384] {
    let mut units = [0u16; 16384];
    units[..4].copy_from_slice(&s.units);
    units
}

pub fn line(rt: &impl Print, label: &str, answer: bool) -> io::Result<()> {
    println!(rt; "{label} {}", u8::from(answer))
}

pub fn tried(rt: &impl Print, label: &str, s: Small) -> io::Result<()> {
    line(rt, label, sound(s.head, &words_of(s), &units_of(s)))
}
