// Small sheets, and what is written of their runs.
use cursors::run::Run;
use layout::head::Head;
use layout::word::{Content, Item, pack};
use refusal::{Refusal, number};
use runs::calls::{count_runs, run_at};
use std::io;

// `head`, `word`, `text` and `mark` stand in other programs too: to share these few lines would need a crate of its own.
fn word(next: u32, content: Content, dead: bool) -> u64 {
    pack(Item {
        next,
        content,
        dead,
        added: false,
        gone: false,
    })
}

pub fn text(next: u32, start: u32, len: u32) -> u64 {
    word(next, Content::Text { start, len }, false)
}

pub fn dead_text(next: u32, start: u32, len: u32) -> u64 {
    word(next, Content::Text { start, len }, true)
}

pub fn mark(next: u32, key: u32, value: u32) -> u64 {
    word(next, Content::Mark { key, value }, false)
}

pub fn embed(next: u32, number: u32) -> u64 {
    word(next, Content::Embed(number), false)
}

pub fn head(first: u32, items: u32, units: u32) -> Head {
    Head {
        first,
        items,
        units,
    }
}

// At most five items, over the units a, b, c.
#[derive(Clone, Copy)]
pub struct Small {
    pub head: Head,
    pub words: [u64; 5],
}

pub fn words_of(s: Small) -> [u64; 2048] {
    let mut items = [0u64; 2048];
    items[..5].copy_from_slice(&s.words);
    items
}

pub fn units() -> [u16; 16384] {
    let mut units = [0u16; 16384];
    units[..3].copy_from_slice(&[0x61, 0x62, 0x63]);
    units
}

// The refusal, and how many.
pub fn answer(rt: &impl Print, answer: Result<usize, Refusal>) -> io::Result<()> {
    print!(rt; "{:05} {:05} ", number(answer), answer.unwrap_or(0))
}

// Plain runs, then joined ones.
fn counts(rt: &impl Print, label: &str, h: Head, items: &[u64], units: &[u16]) -> io::Result<()> {
    print!(rt; "{label}: ")?;
    for joined in [false, true] {
        answer(rt, count_runs(h, items, units, joined))?;
    }
    println!(rt;)
}

pub fn run_line(rt: &impl Print, r: Run) -> io::Result<()> {
    let kind = if r.embed { "embed" } else { "text" };
    println!(rt;
        "{kind} {:05} {:05} {:05} {:05} {:05} ",
        r.start,
        r.len,
        r.number,
        r.count,
        r.attrs.get(0)
    )
}

fn run(
    rt: &impl Print,
    h: Head,
    items: &[u64],
    units: &[u16],
    joined: bool,
    n: u32,
) -> io::Result<()> {
    match run_at(h, items, units, joined, n) {
        Ok(Some(run)) => run_line(rt, run),
        Ok(None) => println!(rt; "none"),
        Err(_) => println!(rt; "broken"),
    }
}

// Plain runs 0 to 3, then joined ones 0 to 2.
pub fn tried(rt: &impl Print, label: &str, s: Small) -> io::Result<()> {
    let items = words_of(s);
    let units = units();
    counts(rt, label, s.head, &items, &units)?;
    for n in 0..4 {
        run(rt, s.head, &items, &units, false, n)?;
    }
    for n in 0..3 {
        run(rt, s.head, &items, &units, true, n)?;
    }
    Ok(())
}
