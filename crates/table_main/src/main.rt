// Runs every call of `table` at its limits, and writes a line for each answer: the call's letter, the refusal and the number.
#![tactic(auto)]

mod broken;
mod print;

use crate::print::{ask_bool, ask_int, ask_name, ask_string, name, value};
use printing::Printer;
use std::io;
use table::TableHead;

// Names of 0, 1, 32 and 33 bytes, and one of them again.
fn name_lengths(
    rt: &impl Print,
    h: TableHead,
    t: &mut [u8; TableHead::BYTES],
) -> io::Result<TableHead> {
    let x = [b'x'; 33];
    let a = ask_name(rt, h, t, &x[..0])?;
    let b = ask_name(rt, a, t, &x[..1])?;
    let c = ask_name(rt, b, t, &x[..32])?;
    let d = ask_name(rt, c, t, &x)?;
    ask_name(rt, d, t, &x[..1])
}

// Fourteen names more: a to n.
fn fill_names(h: TableHead, t: &mut [u8; TableHead::BYTES]) -> TableHead {
    let mut g = h;
    for letter in b'a'..b'o' {
        if let Ok(asked) = table::ask_name(g, t, &[letter]) {
            g = asked.head;
        }
    }
    g
}

// A full table: a new name, a known one, an empty one, one that is too long.
fn full_names(rt: &impl Print, h: TableHead, t: &mut [u8; TableHead::BYTES]) -> io::Result<()> {
    let x = [b'x'; 33];
    ask_name(rt, h, t, b"o")?;
    ask_name(rt, h, t, b"n")?;
    ask_name(rt, h, t, &x[..32])?;
    ask_name(rt, h, t, &x[..0])?;
    ask_name(rt, h, t, &x)?;
    Ok(())
}

// Strings of 0, 1, 32 and 33 bytes.
fn string_lengths(
    rt: &impl Print,
    h: TableHead,
    t: &mut [u8; TableHead::BYTES],
) -> io::Result<TableHead> {
    let x = [b'x'; 33];
    let a = ask_string(rt, h, t, &x[..0])?;
    let b = ask_string(rt, a, t, &x[..1])?;
    let c = ask_string(rt, b, t, &x[..32])?;
    ask_string(rt, c, t, &x)
}

// true, 1, "1" and the byte 1; false, 0 and the byte 0.
fn kinds(rt: &impl Print, h: TableHead, t: &mut [u8; TableHead::BYTES]) -> io::Result<TableHead> {
    let a = ask_bool(rt, h, t, true)?;
    let b = ask_int(rt, a, t, 1)?;
    let c = ask_string(rt, b, t, b"1")?;
    let d = ask_string(rt, c, t, b"\x01")?;
    let e = ask_bool(rt, d, t, false)?;
    let f = ask_int(rt, e, t, 0)?;
    ask_string(rt, f, t, b"\0")
}

// The least, the greatest, -1 and -256.
fn extremes(
    rt: &impl Print,
    h: TableHead,
    t: &mut [u8; TableHead::BYTES],
) -> io::Result<TableHead> {
    let a = ask_int(rt, h, t, -9223372036854775808)?;
    let b = ask_int(rt, a, t, 9223372036854775807)?;
    let c = ask_int(rt, b, t, -1)?;
    let d = ask_int(rt, c, t, -256)?;
    ask_int(rt, d, t, -9223372036854775808)
}

// What the numbers stand for; value 0 and the first number past the end stand for nothing.
fn read_back(rt: &impl Print, h: TableHead, t: &[u8; TableHead::BYTES]) -> io::Result<()> {
    for v in 0..16 {
        value(rt, h, t, v)?;
    }
    for n in [0, 1, 2, 15, 16] {
        name(rt, h, t, n)?;
    }
    Ok(())
}

// Integers from 1241 down to 1001, until 255 values are there.
fn fill_values(h: TableHead, t: &mut [u8; TableHead::BYTES]) -> TableHead {
    let mut g = h;
    for n in (1001..1242).rev() {
        if let Ok(asked) = table::ask_int(g, t, n) {
            g = asked.head;
        }
    }
    g
}

// A full table: new values, known ones, a string that is too long.
fn full_values(rt: &impl Print, h: TableHead, t: &mut [u8; TableHead::BYTES]) -> io::Result<()> {
    let x = [b'x'; 33];
    ask_int(rt, h, t, 1001)?;
    ask_int(rt, h, t, 1000)?;
    ask_string(rt, h, t, b"new")?;
    ask_bool(rt, h, t, true)?;
    ask_string(rt, h, t, &x[..0])?;
    ask_string(rt, h, t, &x)?;
    value(rt, h, t, 255)?;
    value(rt, h, t, 256)
}

fn main(rt: HostRuntime) -> io::Result<()> {
    let rt = Printer::new(rt.stdout());
    let mut t = [0u8; TableHead::BYTES];
    let a = name_lengths(&rt, TableHead::fresh(), &mut t)?;
    let b = fill_names(a, &mut t);
    full_names(&rt, b, &mut t)?;
    let c = string_lengths(&rt, b, &mut t)?;
    let d = kinds(&rt, c, &mut t)?;
    let e = extremes(&rt, d, &mut t)?;
    read_back(&rt, e, &t)?;
    let f = fill_values(e, &mut t);
    full_values(&rt, f, &mut t)?;
    broken::run(&rt)
}
