// Bench pieces over the real calls: of each, the refusal, the length, and the list item by item, each item with its number
// (`-` behind the number: deleted). Each begins with a fresh head over the same buffers.
#![tactic(auto)]

use attrs::Attrs;
use items::{len, text_of};
use layout::head::Head;
use layout::list::Items;
use layout::word::{Content, Item};
use printing::Printer;
use refusal::Refusal;
use sheet::insert::{insert, insert_embed, insert_with_attributes};
use sheet::range::{format, remove_range};
use std::io;

fn print_units(rt: &impl Print, text: &[u16]) -> io::Result<()> {
    for unit in text {
        if *unit < 128 {
            print!(rt; "{}", char::from(*unit as u8))?;
        } else {
            print!(rt; "<{unit:04x}>")?;
        }
    }
    Ok(())
}

fn print_mark(rt: &impl Print, key: u32, value: u32) -> io::Result<()> {
    if value == 0 {
        return print!(rt; "{key}=null");
    }
    print!(rt; "{key}={value}")
}

fn print_item(rt: &impl Print, n: u32, it: Item, text: &[u16]) -> io::Result<()> {
    print!(rt; " {n}{}", if it.dead { '-' } else { ':' })?;
    match it.content {
        Content::Text { .. } => print_units(rt, text),
        Content::Embed(e) => print!(rt; "{e}"),
        Content::Mark { key, value } => print_mark(rt, key, value),
    }
}

fn print_list(rt: &impl Print, h: Head, items: &[u64], units: &[u16]) -> io::Result<()> {
    for (n, it) in Items::new(h, items) {
        print_item(rt, n, it, text_of(h, items, units, n))?;
    }
    Ok(())
}

// `h` is the head before the call.
fn report(
    rt: &impl Print,
    name: &str,
    h: Head,
    answer: Result<Head, Refusal>,
    items: &[u64],
    units: &[u16],
) -> io::Result<()> {
    let head = answer.unwrap_or(h);
    let shown = len(head, items, units).unwrap_or(0);
    print!(rt;
        "{name} refused {} len {shown} items",
        refusal::number(answer)
    )?;
    print_list(rt, head, items, units)?;
    println!(rt;)
}

fn key_0(value: u32) -> Attrs {
    let none = Attrs::empty();
    none.with(0, value).unwrap_or(none)
}

fn abc(items: &mut [u64], units: &mut [u16]) -> Head {
    let fresh = Head::fresh();
    insert(fresh, items, units, 0, &[97, 98, 99]).unwrap_or(fresh)
}

// "abc" with 0=1 on a range.
fn with_1(items: &mut [u64], units: &mut [u16], index: u32, n: u32) -> Head {
    let h = abc(items, units);
    format(h, items, units, index, n, key_0(1)).unwrap_or(h)
}

// A call and its report.
fn inserts(
    rt: &impl Print,
    name: &str,
    h: Head,
    items: &mut [u64],
    units: &mut [u16],
    index: u32,
    chunk: &[u16],
) -> io::Result<()> {
    let answer = insert(h, items, units, index, chunk);
    report(rt, name, h, answer, items, units)
}

fn formats(
    rt: &impl Print,
    name: &str,
    h: Head,
    items: &mut [u64],
    units: &[u16],
    index: u32,
    n: u32,
) -> io::Result<()> {
    let answer = format(h, items, units, index, n, key_0(1));
    report(rt, name, h, answer, items, units)
}

fn removes(
    rt: &impl Print,
    name: &str,
    h: Head,
    items: &mut [u64],
    units: &[u16],
    index: u32,
    n: u32,
) -> io::Result<()> {
    let answer = remove_range(h, items, units, index, n);
    report(rt, name, h, answer, items, units)
}

fn b2(rt: &impl Print, items: &mut [u64], units: &mut [u16]) -> io::Result<()> {
    let h = abc(items, units);
    formats(rt, "B2", h, items, units, 1, 1)
}

fn b3(rt: &impl Print, items: &mut [u64], units: &mut [u16], index: u32) -> io::Result<()> {
    let h = with_1(items, units, 1, 1);
    inserts(rt, "B3", h, items, units, index, &[88])
}

fn b4(rt: &impl Print, items: &mut [u64], units: &mut [u16]) -> io::Result<()> {
    let h = with_1(items, units, 1, 1);
    let answer = insert_with_attributes(h, items, units, 2, &[88], Attrs::empty());
    report(rt, "B4", h, answer, items, units)
}

fn b5(rt: &impl Print, items: &mut [u64], units: &mut [u16]) -> io::Result<()> {
    let h = with_1(items, units, 1, 1);
    removes(rt, "B5", h, items, units, 1, 1)
}

fn b6(rt: &impl Print, items: &mut [u64], units: &mut [u16]) -> io::Result<()> {
    let h = with_1(items, units, 0, 3);
    let hollow = format(h, items, units, 1, 1, key_0(0)).unwrap_or(h);
    removes(rt, "B6", hollow, items, units, 1, 1)
}

fn b7(rt: &impl Print, items: &mut [u64], units: &mut [u16]) -> io::Result<()> {
    let h = abc(items, units);
    formats(rt, "B7", h, items, units, 1, 0)
}

fn b8(rt: &impl Print, items: &mut [u64], units: &mut [u16], index: u32, n: u32) -> io::Result<()> {
    let fresh = Head::fresh();
    let h = insert(fresh, items, units, 0, &[0x61, 0xD83D, 0xDE00]).unwrap_or(fresh);
    formats(rt, "B8", h, items, units, index, n)
}

fn b9(rt: &impl Print, items: &mut [u64], units: &mut [u16], index: u32, n: u32) -> io::Result<()> {
    let h = abc(items, units);
    removes(rt, "B9", h, items, units, index, n)
}

fn b10(rt: &impl Print, items: &mut [u64], units: &mut [u16], index: u32) -> io::Result<()> {
    let h = with_1(items, units, 0, 3);
    inserts(rt, "B10", h, items, units, index, &[100])
}

fn embeds(items: &mut [u64], units: &[u16], count: u32) -> Head {
    let mut h = Head::fresh();
    for _ in 0..count {
        h = insert_embed(h, items, units, 0, 7).unwrap_or(h);
    }
    h
}

// As many items as there is room for, and one more.
fn b12(rt: &impl Print, items: &mut [u64], units: &[u16]) -> io::Result<()> {
    let h = embeds(items, units, 2047);
    let last = insert_embed(h, items, units, 0, 7);
    let full = last.unwrap_or(h);
    let more = insert_embed(full, items, units, 0, 7);
    let head = more.unwrap_or(full);
    let shown = len(head, items, units).unwrap_or(0);
    print!(rt;
        "B12 refused {} refused {}",
        refusal::number(last),
        refusal::number(more)
    )?;
    println!(rt; " items {} len {shown}", head.items)
}

fn main(rt: HostRuntime) -> io::Result<()> {
    let rt = Printer::new(rt.stdout());
    let mut items = [0u64; 2048];
    let mut units = [0u16; 16384];
    b2(&rt, &mut items, &mut units)?;
    b3(&rt, &mut items, &mut units, 2)?;
    b3(&rt, &mut items, &mut units, 1)?;
    b4(&rt, &mut items, &mut units)?;
    b5(&rt, &mut items, &mut units)?;
    b6(&rt, &mut items, &mut units)?;
    b7(&rt, &mut items, &mut units)?;
    b8(&rt, &mut items, &mut units, 1, 1)?;
    b8(&rt, &mut items, &mut units, 2, 0)?;
    b8(&rt, &mut items, &mut units, 1, 9)?;
    b9(&rt, &mut items, &mut units, 1, 3)?;
    b9(&rt, &mut items, &mut units, 5, 0)?;
    b10(&rt, &mut items, &mut units, 3)?;
    b10(&rt, &mut items, &mut units, 4)?;
    b12(&rt, &mut items, &units)
}
