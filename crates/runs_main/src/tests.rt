// The sheets.
use crate::sheets::{
    Small, answer, dead_text, embed, head, mark, run_line, text, tried, units, words_of,
};
use cursors::run::Run;
use layout::head::Head;
use ranges::text_of_range;
use refusal::number;
use runs::calls::plan;
use runs::fill::page;
use std::io;

pub fn empty(rt: &impl Print) -> io::Result<()> {
    tried(
        rt,
        "fresh",
        Small {
            head: Head::fresh(),
            words: [0; 5],
        },
    )
}

pub fn one(rt: &impl Print) -> io::Result<()> {
    let a = text(Head::END, 0, 3);
    tried(
        rt,
        "one text",
        Small {
            head: head(0, 1, 3),
            words: [a, 0, 0, 0, 0],
        },
    )
}

// a, 0=1, b, 0=null, c.
pub fn formatted(rt: &impl Print) -> io::Result<()> {
    let words = [
        text(1, 0, 1),
        mark(2, 0, 1),
        text(3, 1, 1),
        mark(4, 0, 0),
        text(Head::END, 2, 1),
    ];
    tried(
        rt,
        "formatted",
        Small {
            head: head(0, 5, 3),
            words,
        },
    )
}

// The same with b deleted: two plain runs, one joined.
pub fn removed(rt: &impl Print) -> io::Result<()> {
    let words = [
        text(1, 0, 1),
        mark(2, 0, 1),
        dead_text(3, 1, 1),
        mark(4, 0, 0),
        text(Head::END, 2, 1),
    ];
    tried(
        rt,
        "removed",
        Small {
            head: head(0, 5, 3),
            words,
        },
    )
}

// Two embeds in a row under a mark, then two texts that touch.
fn two_embeds() -> Small {
    Small {
        head: head(0, 5, 3),
        words: [
            mark(1, 0, 255),
            embed(2, 7),
            embed(3, 65535),
            text(4, 0, 2),
            text(Head::END, 2, 1),
        ],
    }
}

pub fn embeds(rt: &impl Print) -> io::Result<()> {
    tried(rt, "embeds", two_embeds())
}

// A link to an item that is not there.
pub fn broken(rt: &impl Print) -> io::Result<()> {
    let a = text(1, 0, 3);
    tried(
        rt,
        "broken",
        Small {
            head: head(0, 1, 3),
            words: [a, 0, 0, 0, 0],
        },
    )
}

fn crowd() -> [u64; 2048] {
    let mut items = [0u64; 2048];
    for (i, word) in items.iter_mut().enumerate() {
        let i = i as u32;
        *word = embed(i + 1, i);
    }
    items[2047] = embed(Head::END, 2047);
    items
}

fn rooms(rt: &impl Print, h: Head, items: &[u64], units: &[u16]) -> io::Result<()> {
    for room in [2048, 2047] {
        print!(rt; "{:05} ", number(plan(h, items, units, false, room)))?;
    }
    println!(rt;)
}

// A head that leads to one item less than it counts is refused, and the page comes back as it was.
fn pages(rt: &impl Print, items: &[u64], units: &[u16]) -> io::Result<()> {
    let filled = page(head(0, 2048, 0), items, units, true, [Run::blank(); 2048]);
    run_line(rt, filled[2047])?;
    let kept = page(head(1, 2048, 0), items, units, false, filled);
    run_line(rt, kept[2047])?;
    run_line(rt, kept[0])
}

// As many runs as a sheet can have: a page is exactly full, and a slice of one less is too short.
pub fn full(rt: &impl Print) -> io::Result<()> {
    let items = crowd();
    let units = [0u16; 16384];
    rooms(rt, head(0, 2048, 0), &items, &units)?;
    pages(rt, &items, &units)
}

// The refusal, how many units are written, and what the four lent ones hold then.
fn copied(
    rt: &impl Print,
    h: Head,
    items: &[u64],
    units: &[u16],
    index: u32,
    mut lent: [u16; 4],
) -> io::Result<[u16; 4]> {
    answer(rt, text_of_range(h, items, units, index, 9, &mut lent))?;
    for unit in lent {
        print!(rt; "{unit:05} ")?;
    }
    println!(rt;)?;
    Ok(lent)
}

fn one_short(rt: &impl Print, h: Head, items: &[u64], units: &[u16], index: u32) -> io::Result<()> {
    let mut lent = [9u16; 3];
    answer(rt, text_of_range(h, items, units, index, 9, &mut lent))?;
    println!(rt; "{:05} {:05} ", lent[0], lent[2])
}

fn embedded(rt: &impl Print, h: Head, items: &[u64], units: &[u16]) -> io::Result<[u16; 4]> {
    one_short(rt, h, items, units, 1)?;
    let some = copied(rt, h, items, units, 1, [9; 4])?;
    copied(rt, h, items, units, 5, some)
}

fn paired(rt: &impl Print, h: Head, items: &[u64], units: &[u16], out: [u16; 4]) -> io::Result<()> {
    let kept = copied(rt, h, items, units, 1, out)?;
    copied(rt, h, items, units, 0, kept)?;
    Ok(())
}

// The embeds' sheet from 1 on: an embed and a, b, c, which fit four units and no three. Then a pair.
pub fn texts(rt: &impl Print) -> io::Result<()> {
    let two = two_embeds();
    let out = embedded(rt, two.head, &words_of(two), &units())?;
    let mut pair = [0u16; 16384];
    pair[..2].copy_from_slice(&[0xD83D, 0xDE00]);
    let one = Small {
        head: head(0, 1, 2),
        words: [text(Head::END, 0, 2), 0, 0, 0, 0],
    };
    paired(rt, one.head, &words_of(one), &pair, out)
}
