// Tables that are not sound, each in one way.
use crate::print::{ask_bool, ask_int, ask_name, ask_string, name, value};
use refusal::Refusal;
use std::io;
use table::TableHead;

// Two names, true, 7 and "ab".
fn five(t: &mut [u8]) -> Result<TableHead, Refusal> {
    let a = table::ask_name(TableHead::fresh(), t, b"p")?;
    let b = table::ask_name(a.head, t, b"q")?;
    let c = table::ask_bool(b.head, t, true)?;
    let d = table::ask_int(c.head, t, 7)?;
    let e = table::ask_string(d.head, t, b"ab")?;
    Ok(e.head)
}

// Those five, with the byte at a place set to another. Then a name, each kind of value, and what is read back.
fn with_byte(rt: &impl Print, at: usize, byte: u8) -> io::Result<()> {
    let mut t = [0u8; TableHead::BYTES];
    let Ok(h) = five(&mut t) else {
        return Ok(());
    };
    if at < TableHead::BYTES {
        t[at] = byte;
    }
    try_all(rt, h, &mut t)
}

fn try_all(rt: &impl Print, h: TableHead, t: &mut [u8; TableHead::BYTES]) -> io::Result<()> {
    ask_name(rt, h, t, b"p")?;
    ask_bool(rt, h, t, true)?;
    ask_int(rt, h, t, 7)?;
    ask_string(rt, h, t, b"ab")?;
    value(rt, h, t, 1)?;
    name(rt, h, t, 0)
}

// A head that counts more than there can be, over bytes that are all 0.
fn with_head(rt: &impl Print, names: u32, values: u32) -> io::Result<()> {
    let mut t = [0u8; TableHead::BYTES];
    ask_name(rt, TableHead { names, values }, &mut t, b"p")?;
    Ok(())
}

fn lengths(rt: &impl Print) -> io::Result<()> {
    let mut short = [0u8; TableHead::BYTES - 1];
    let mut long = [0u8; TableHead::BYTES + 1];
    let h = TableHead::fresh();
    ask_name(rt, h, &mut short, b"p")?;
    ask_name(rt, h, &mut long, b"p")?;
    ask_string(rt, h, &mut short, b"a long string, which no table takes")?;
    Ok(())
}

pub fn run(rt: &impl Print) -> io::Result<()> {
    with_byte(rt, 9213, 1)?;
    with_byte(rt, 0, 33)?;
    with_byte(rt, 0, 0)?;
    with_byte(rt, 1, 3)?;
    with_byte(rt, 36, b'p')?;
    with_byte(rt, 544, 2)?;
    with_byte(rt, 545, 0)?;
    with_byte(rt, 545, 4)?;
    with_byte(rt, 546, 2)?;
    with_byte(rt, 578, 7)?;
    with_byte(rt, 612, 33)?;
    with_head(rt, 17, 0)?;
    with_head(rt, 0, 256)?;
    with_head(rt, 1, 0)?;
    lengths(rt)
}
