// Deltas at their limits: of each, the refusal, the length, how many items and units are in use, and the list item by item, each
// item with its number (`-` behind the number: deleted), units in four hexadecimal digits.
#![tactic(auto)]

use attrs::Attrs;
use deltas::apply::apply_delta;
use items::{len, text_of};
use layout::head::Head;
use layout::list::Items;
use layout::word::{Content, Item};
use ops::delta::{Delta, DeltaOp, Inserted, Op};
use printing::Printer;
use refusal::Refusal;
use sheet::insert::insert;
use sheet::range::format;
use std::io;

// Units and nulls are written as numbers here, and as letters and words by the program of `sheet`: so each lists items in its own way.
fn print_item(rt: &impl Print, n: u32, it: Item, text: &[u16]) -> io::Result<()> {
    print!(rt; " {n}{}", if it.dead { '-' } else { ':' })?;
    match it.content {
        Content::Text { .. } => {
            for unit in text {
                print!(rt; "{unit:04X}")?;
            }
            Ok(())
        }
        Content::Embed(e) => print!(rt; "{e}"),
        Content::Mark { key, value } => print!(rt; "{key}={value}"),
    }
}

fn print_list(rt: &impl Print, h: Head, items: &[u64], units: &[u16]) -> io::Result<()> {
    for (n, it) in Items::new(h, items) {
        print_item(rt, n, it, text_of(h, items, units, n))?;
    }
    Ok(())
}

// `h` is the head before the call. A long list is not written out.
fn report(
    rt: &impl Print,
    name: &str,
    h: Head,
    answer: Result<Head, Refusal>,
    items: &[u64],
    units: &[u16],
) -> io::Result<Head> {
    let head = answer.unwrap_or(h);
    let shown = len(head, items, units).unwrap_or(0);
    print!(rt;
        "{name}: refused {} len {shown} items {} units {}",
        refusal::number(answer),
        head.items,
        head.units
    )?;
    if head.units < 9 && head.items < 9 {
        print_list(rt, head, items, units)?;
    }
    println!(rt;)?;
    Ok(head)
}

fn applies(
    rt: &impl Print,
    name: &str,
    h: Head,
    items: &mut [u64],
    units: &mut [u16],
    d: Delta,
    chunk: &[u16],
) -> io::Result<Head> {
    let words = [0u64; 2048];
    let room = [0u16; 16384];
    let answer = apply_delta(h, items, units, d, chunk, &words, &room);
    report(rt, name, h, answer, items, units)
}

// On a fresh sheet.
fn begins(rt: &impl Print, name: &str, d: Delta, chunk: &[u16]) -> io::Result<()> {
    let mut items = [0u64; 2048];
    let mut units = [0u16; 16384];
    applies(rt, name, Head::fresh(), &mut items, &mut units, d, chunk)?;
    Ok(())
}

// The same with other scratch.
fn measures(rt: &impl Print, name: &str, d: Delta, words: &[u64], room: &[u16]) -> io::Result<()> {
    let mut items = [0u64; 2048];
    let mut units = [0u16; 16384];
    let h = Head::fresh();
    let answer = apply_delta(h, &mut items, &mut units, d, &[0], words, room);
    report(rt, name, h, answer, &items, &units)?;
    Ok(())
}

fn and(d: Delta, op: Op) -> Delta {
    let attrs = Attrs::empty();
    d.push(DeltaOp { op, attrs }).unwrap_or(d)
}

fn one(op: Op) -> Delta {
    and(Delta::empty(), op)
}

fn text(start: u32, len: u32) -> Op {
    Op::Insert(Inserted::Text { start, len })
}

// "abcd" with 0=1 on its second half.
fn half_bold(items: &mut [u64], units: &mut [u16]) -> Head {
    let fresh = Head::fresh();
    let h = insert(fresh, items, units, 0, &[97, 98, 99, 100]).unwrap_or(fresh);
    let none = Attrs::empty();
    let bold = none.with(0, 1).unwrap_or(none);
    format(h, items, units, 2, 2, bold).unwrap_or(h)
}

fn b11(rt: &impl Print) -> io::Result<()> {
    let mut items = [0u64; 2048];
    let mut units = [0u16; 16384];
    let h = half_bold(&mut items, &mut units);
    let d = and(and(one(Op::Retain(1)), Op::Delete(1)), Op::Delete(1));
    applies(rt, "B11", h, &mut items, &mut units, d, &[0])?;
    Ok(())
}

// The text may end with the lent units, not past them; even an empty one may not start past them.
fn lent(rt: &impl Print) -> io::Result<()> {
    let xy = [88u16, 89];
    begins(rt, "starts past", one(text(3, 0)), &xy)?;
    begins(rt, "ends past", one(text(2, 1)), &xy)?;
    begins(rt, "ends there", and(one(text(2, 0)), text(1, 1)), &xy)
}

fn texts(rt: &impl Print) -> io::Result<()> {
    let mut items = [0u64; 2048];
    let mut units = [0u16; 16384];
    let xy = [88u16, 89];
    let both = and(one(text(0, 2)), text(0, 1));
    let h = applies(
        rt,
        "two texts",
        Head::fresh(),
        &mut items,
        &mut units,
        both,
        &xy,
    )?;
    let much = and(one(text(0, 2)), Op::Delete(4));
    applies(rt, "too much", h, &mut items, &mut units, much, &xy)?;
    Ok(())
}

// Operations that do nothing, and an embed as the 256th.
fn counts(count: u32) -> Delta {
    let attrs = Attrs::empty();
    let op = Op::Insert(Inserted::Embed(9));
    let mut d = Delta::empty();
    d.ops[255] = DeltaOp { op, attrs };
    d.count = count;
    d
}

fn scratch(rt: &impl Print) -> io::Result<()> {
    let words = [0u64; 2048];
    let room = [0u16; 16384];
    measures(rt, "256", counts(256), &words, &room)?;
    measures(rt, "257", counts(257), &words, &room)?;
    measures(rt, "257, short scratch", counts(257), &words[..2047], &room)?;
    measures(rt, "short of words", counts(256), &words[..2047], &room)?;
    measures(rt, "short of units", counts(256), &words, &room[..16383])
}

// Each operation puts 32 marks: 64 of them make 2,048 items.
fn marks(count: u32) -> Delta {
    let attrs = Attrs {
        mask: 65535,
        values: [1; 16],
    };
    let op = Op::Retain(0);
    Delta {
        count,
        ops: [DeltaOp { op, attrs }; 256],
    }
}

fn items_full(rt: &impl Print) -> io::Result<()> {
    begins(rt, "2,048 items", marks(64), &[0])?;
    begins(rt, "2,080 items", marks(65), &[0])
}

// The first operation would fit, the delta as a whole does not.
fn units_full(rt: &impl Print) -> io::Result<()> {
    let mut items = [0u64; 2048];
    let mut units = [0u16; 16384];
    let chunk = [97u16; 16384];
    let most = one(text(0, 16384));
    let h = applies(
        rt,
        "16,384 units",
        Head::fresh(),
        &mut items,
        &mut units,
        most,
        &chunk,
    )?;
    let more = and(one(Op::Insert(Inserted::Embed(9))), text(0, 1));
    applies(rt, "16,385 units", h, &mut items, &mut units, more, &chunk)?;
    Ok(())
}

fn main(rt: HostRuntime) -> io::Result<()> {
    let rt = Printer::new(rt.stdout());
    b11(&rt)?;
    lent(&rt)?;
    texts(&rt)?;
    scratch(&rt)?;
    items_full(&rt)?;
    units_full(&rt)
}
