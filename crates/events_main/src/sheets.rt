// Small sheets, and what is written of their events.
ghost use Rattle.std.specs.Prelude.{◌<◌, ◌≤◌, ◌^◌, length};

use events::event::{Written, event};
use layout::head::Head;
use layout::word::{Content, Item};
use std::fmt::Display;
use std::io;

// A sheet of up to six items, by their words, over up to four units.
#[derive(Clone, Copy)]
pub struct Sheet {
    pub head: Head,
    pub words: [u64; 6],
    pub units: [u16; 4],
}

// How an item stands in the transaction.
#[derive(Clone, Copy)]
pub enum State {
    Kept,
    Added,
    Deleted,
    Passing,
}

// `word`, `text` and `mark` stand in other programs too: to share these few lines would need a crate of its own.
fn word(next: u32, content: Content, state: State) -> u64 {
    let dead = matches!(state, State::Deleted | State::Passing);
    layout::word::pack(Item {
        next,
        content,
        dead,
        added: matches!(state, State::Added | State::Passing),
        gone: dead,
    })
}

fn text(next: u32, start: u32, len: u32, state: State) -> u64 {
    word(next, Content::Text { start, len }, state)
}

fn mark(next: u32, value: u32, state: State) -> u64 {
    word(next, Content::Mark { key: 0, value }, state)
}

fn small(units: u32, list: &[u64]) -> Sheet
    requires { length list.now ≤ 6 }
{
    let mut words = [0; 6];
    words[..list.len()].copy_from_slice(list);
    Sheet {
        head: Head {
            first: 0,
            items: list.len() as u32,
            units,
        },
        words,
        units: [0x61, 0x62, 0x63, 0x64],
    }
}

pub fn fresh() -> Sheet {
    Sheet {
        head: Head::fresh(),
        words: [0; 6],
        units: [0; 4],
    }
}

// B13: "abc", and b was given 0=1.
pub fn formatted() -> Sheet {
    small(
        3,
        &[
            text(1, 0, 1, State::Kept),
            mark(2, 1, State::Added),
            text(3, 1, 1, State::Kept),
            mark(4, 0, State::Added),
            text(Head::END, 2, 1, State::Kept),
        ],
    )
}

// B14: a text came and went.
pub fn passing() -> Sheet {
    small(
        4,
        &[
            text(1, 0, 1, State::Kept),
            text(2, 1, 1, State::Passing),
            text(Head::END, 2, 2, State::Kept),
        ],
    )
}

// "ad": between the two came "bc" with 0=1 and an embed without; d went.
pub fn crossed() -> Sheet {
    small(
        4,
        &[
            text(1, 0, 1, State::Kept),
            mark(2, 1, State::Added),
            text(3, 1, 2, State::Added),
            mark(4, 0, State::Added),
            word(5, Content::Embed(7), State::Added),
            text(Head::END, 3, 1, State::Deleted),
        ],
    )
}

pub fn deleted() -> Sheet {
    small(
        4,
        &[
            text(1, 0, 1, State::Deleted),
            text(2, 1, 1, State::Deleted),
            text(Head::END, 2, 2, State::Kept),
        ],
    )
}

pub fn unset() -> Sheet {
    small(
        4,
        &[
            mark(1, 255, State::Deleted),
            text(Head::END, 0, 4, State::Kept),
        ],
    )
}

pub fn turned() -> Sheet {
    small(
        4,
        &[
            mark(1, 1, State::Kept),
            mark(2, 2, State::Added),
            text(Head::END, 0, 4, State::Kept),
        ],
    )
}

// The first `n` and the one behind them, eight to a line.
fn shown<T: Display>(rt: &impl Print, list: &[T], n: usize) -> io::Result<()>
    requires { n < 2 ^ 63 }
{
    for (i, x) in list.iter().take(n + 1).enumerate() {
        print!(rt; "{x:05} ")?;
        if i % 8 == 7 {
            println!(rt;)?;
        }
    }
    println!(rt;)
}

// The event of a sheet, into the first `room` of 72 numbers and the first `text` of 9 units, all 9.
pub fn tried(rt: &impl Print, label: &str, s: Sheet, room: usize, text: usize) -> io::Result<()>
    requires room_bound { room ≤ 72 }
    requires text_bound { text ≤ 9 }
{
    let mut items = [0; 2048];
    items[..6].copy_from_slice(&s.words);
    let mut units = [0; 16384];
    units[..4].copy_from_slice(&s.units);
    let mut ops = [9; 72];
    let mut out = [9; 9];
    let answer = event(s.head, &items, &units, &mut ops[..room], &mut out[..text]);
    let refusal = refusal::number(answer);
    let wrote = answer.unwrap_or(Written { ops: 0, units: 0 });
    println!(rt;
        "{label}: {refusal:05} {:05} {:05} ",
        wrote.ops, wrote.units
    )?;
    shown(rt, &ops, wrote.ops as usize * encoding::WORDS)?;
    shown(rt, &out, wrote.units as usize)
}
