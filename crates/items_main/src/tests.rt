// The sheets: each is sound, or broken in one way.
ghost use Rattle.std.specs.Prelude.{◌≤◌};

use crate::sheets::{
    EMBED, Small, added, dead, gone, head, last, line, mark, plain, text, tried, units_of, words_of,
};
use layout::head::Head;
use layout::word::{Item, pack};
use soundness::sound;
use std::io;

fn sized(rt: &impl Print, label: &str, h: Head, words: usize, n: usize) -> io::Result<()>
    requires { (words ≤ 2049) × (n ≤ 16385) }
{
    let items = [0u64; 2049];
    let units = [0u16; 16385];
    line(rt, label, sound(h, &items[..words], &units[..n]))
}

pub fn sizes(rt: &impl Print) -> io::Result<()> {
    let fresh = Head::fresh();
    sized(rt, "fresh", fresh, 2048, 16384)?;
    sized(rt, "no items but a first one", head(0, 0, 0), 2048, 16384)?;
    sized(
        rt,
        "no items but a unit",
        head(Head::END, 0, 1),
        2048,
        16384,
    )?;
    sized(rt, "2,049 items", head(Head::END, 2049, 0), 2048, 16384)?;
    sized(rt, "16,385 units", head(Head::END, 0, 16385), 2048, 16384)?;
    sized(rt, "a word short", fresh, 2047, 16384)?;
    sized(rt, "a word long", fresh, 2049, 16384)?;
    sized(rt, "a unit short", fresh, 2048, 16383)?;
    sized(rt, "a unit long", fresh, 2048, 16385)
}

fn linked(rt: &impl Print, label: &str, first: u32, a: u32, b: u32, c: u32) -> io::Result<()> {
    let head = head(first, 3, 4);
    let a = text(a, 0, 2);
    let b = mark(b, 15, 255);
    let c = text(c, 2, 2);
    tried(
        rt,
        label,
        Small {
            head,
            a,
            b,
            c,
            ..plain()
        },
    )
}

pub fn links(rt: &impl Print) -> io::Result<()> {
    linked(rt, "in order", 0, 1, 2, Head::END)?;
    linked(rt, "backwards", 2, Head::END, 0, 1)?;
    linked(rt, "a loop over all", 0, 1, 2, 0)?;
    linked(rt, "a loop over two", 0, 1, 0, Head::END)?;
    linked(rt, "a loop over one", 0, 0, 2, Head::END)?;
    linked(rt, "two links to one item", 0, 2, 2, Head::END)?;
    linked(rt, "stops short", 0, 1, Head::END, Head::END)?;
    linked(rt, "an unused item", 0, 1, 2, 3)?;
    linked(rt, "an unused item within", 0, 1, 3, Head::END)?;
    linked(rt, "ends by another number", 0, 1, 2, 4094)?;
    linked(rt, "starts out", 3, 1, 2, Head::END)?;
    linked(rt, "starts at the end", Head::END, 1, 2, Head::END)
}

fn pieced(rt: &impl Print, label: &str, used: u32, a: u64, c: u64) -> io::Result<()> {
    let head = head(0, 3, used);
    tried(
        rt,
        label,
        Small {
            head,
            a,
            c,
            ..plain()
        },
    )
}

pub fn pieces(rt: &impl Print) -> io::Result<()> {
    pieced(rt, "pieces that overlap", 4, text(1, 0, 2), last(1, 2))?;
    pieced(rt, "past the used units", 4, text(1, 0, 2), last(3, 2))?;
    pieced(rt, "starts at the used units", 4, text(1, 0, 3), last(4, 1))?;
    pieced(
        rt,
        "past the buffer",
        16384,
        text(1, 0, 2),
        last(16383, 16382),
    )?;
    pieced(rt, "an empty piece", 2, text(1, 0, 2), last(2, 0))?;
    pieced(rt, "one unit too few", 4, text(1, 0, 2), last(2, 1))?;
    pieced(rt, "one unit too many", 4, text(1, 0, 3), last(2, 2))
}

fn over(rt: &impl Print, label: &str, units: [u16; 4]) -> io::Result<()> {
    tried(rt, label, Small { units, ..plain() })
}

pub fn pairs(rt: &impl Print) -> io::Result<()> {
    over(rt, "two pairs", [0xD83D, 0xDE00, 0xDBFF, 0xDFFF])?;
    over(rt, "a pair over two pieces", [0x61, 0xD83D, 0xDE00, 0x64])?;
    over(rt, "a high one at the end", [0x61, 0x62, 0x63, 0xD800])?;
    over(rt, "a low one at the start", [0xDC00, 0x62, 0x63, 0x64])?;
    over(rt, "a low one within", [0x61, 0x62, 0x63, 0xDFFF])?;
    over(rt, "a high one within", [0x61, 0x62, 0xDBFF, 0x64])
}

fn worded(rt: &impl Print, label: &str, b: u64) -> io::Result<()> {
    tried(rt, label, Small { b, ..plain() })
}

pub fn words(rt: &impl Print) -> io::Result<()> {
    worded(rt, "the highest embed", pack(EMBED))?;
    worded(rt, "key 0, null", mark(2, 0, 0))?;
    worded(rt, "value 256", mark(2, 15, 256))?;
    worded(rt, "the lowest free bit", mark(2, 15, 255) | 1 << 49)?;
    worded(rt, "the highest bit", mark(2, 15, 255) | 1 << 63)?;
    worded(rt, "kind 3", mark(2, 15, 255) | 1 << 12)
}

fn flagged(rt: &impl Print, label: &str, item: Item) -> io::Result<()> {
    worded(rt, label, pack(item))
}

pub fn flags(rt: &impl Print) -> io::Result<()> {
    flagged(rt, "live", EMBED)?;
    flagged(rt, "live, deleted now", gone(EMBED))?;
    flagged(rt, "added", added(EMBED))?;
    flagged(rt, "added, live, deleted now", added(gone(EMBED)))?;
    flagged(rt, "deleted", dead(EMBED))?;
    flagged(rt, "deleted now", dead(gone(EMBED)))?;
    flagged(rt, "added, deleted", dead(added(EMBED)))?;
    flagged(rt, "added, deleted now", dead(added(gone(EMBED))))
}

// Every item in use, the links from the highest number down.
fn crowd() -> [u64; 2048] {
    let mut items = [0u64; 2048];
    let mut next = Head::END;
    for (i, word) in items.iter_mut().enumerate() {
        let i = i as u32;
        *word = text(next, i, 1);
        next = i;
    }
    items
}

fn crowded(rt: &impl Print, label: &str, first: u32, n: u32) -> io::Result<()> {
    let items = crowd();
    let units = units_of(plain());
    let h = head(first, n, n);
    let len = items::len(h, &items, &units);
    print!(rt; "{:05} ", len.unwrap_or(0))?;
    line(rt, label, sound(h, &items, &units))
}

fn long(rt: &impl Print, label: &str, start: u32) -> io::Result<()> {
    let mut items = words_of(plain());
    let units = units_of(plain());
    items[0] = text(Head::END, start, 16384);
    line(rt, label, sound(head(0, 1, 16384), &items, &units))
}

pub fn full(rt: &impl Print) -> io::Result<()> {
    crowded(rt, "2,048 items", 2047, 2048)?;
    crowded(rt, "2,048 items, one left out", 2046, 2048)?;
    crowded(rt, "2,047 items", 2046, 2047)?;
    long(rt, "16,384 units", 0)?;
    long(rt, "16,384 units from 1", 1)
}

fn shown(rt: &impl Print, h: Head, items: &[u64], units: &[u16], n: u32) -> io::Result<()> {
    match items::text_of(h, items, units, n).first() {
        Some(unit) => print!(rt; "{unit:05} "),
        None => print!(rt; "- "),
    }
}

// The length, and the first unit of items 0 to 3.
fn read(rt: &impl Print, h: Head, items: &[u64], units: &[u16]) -> io::Result<()> {
    let len = items::len(h, items, units);
    print!(rt; "{:05} {:05} ", refusal::number(len), len.unwrap_or(0))?;
    for n in 0..4 {
        shown(rt, h, items, units, n)?;
    }
    Ok(())
}

// What is read, then begin's answer, and whether item 1 stays as it is.
fn called(rt: &impl Print, label: &str, s: Small) -> io::Result<()> {
    let mut items = words_of(s);
    let units = units_of(s);
    print!(rt; "{label} ")?;
    read(rt, s.head, &items, &units)?;
    let begun = items::begin(s.head, &mut items, &units);
    let h = begun.unwrap_or(s.head);
    print!(rt;
        "{:05} {:05} {:05} {:05} ",
        refusal::number(begun),
        h.first,
        h.items,
        h.units
    )?;
    line(rt, "", items[1] == s.b)
}

fn middle(rt: &impl Print, label: &str, item: Item) -> io::Result<()> {
    let b = pack(item);
    called(rt, label, Small { b, ..plain() })
}

pub fn calls(rt: &impl Print) -> io::Result<()> {
    called(rt, "plain", plain())?;
    middle(rt, "added", added(EMBED))?;
    middle(rt, "deleted now", dead(gone(EMBED)))?;
    middle(rt, "deleted before", dead(EMBED))?;
    middle(rt, "broken", dead(added(EMBED)))
}
