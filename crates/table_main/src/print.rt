// Calls whose answers are written as lines of text.
use lookup::Shown;
use refusal::Refusal;
use std::io;
use table::{Asked, TableHead};

// The call's letter, the refusal, the number. What comes next is asked of the head that this answer leaves.
fn asked(
    rt: &impl Print,
    call: char,
    h: TableHead,
    answer: Result<Asked, Refusal>,
) -> io::Result<TableHead> {
    let asked = answer.unwrap_or(Asked { number: 0, head: h });
    println!(rt; "{call} {} {}", refusal::number(answer), asked.number)?;
    Ok(asked.head)
}

pub fn ask_name(
    rt: &impl Print,
    h: TableHead,
    t: &mut [u8],
    bytes: &[u8],
) -> io::Result<TableHead> {
    asked(rt, 'n', h, table::ask_name(h, t, bytes))
}

pub fn ask_bool(rt: &impl Print, h: TableHead, t: &mut [u8], b: bool) -> io::Result<TableHead> {
    asked(rt, 'b', h, table::ask_bool(h, t, b))
}

pub fn ask_int(rt: &impl Print, h: TableHead, t: &mut [u8], n: i64) -> io::Result<TableHead> {
    asked(rt, 'i', h, table::ask_int(h, t, n))
}

pub fn ask_string(
    rt: &impl Print,
    h: TableHead,
    t: &mut [u8],
    bytes: &[u8],
) -> io::Result<TableHead> {
    asked(rt, 's', h, table::ask_string(h, t, bytes))
}

fn quoted(rt: &impl Print, bytes: &[u8]) -> io::Result<()> {
    print!(rt; " \"")?;
    rt.write_all(bytes)?;
    println!(rt; "\"")
}

// A value's number, and what it stands for: nothing, a bool, an integer's two's complement, or a string in quotes.
pub fn value(rt: &impl Print, h: TableHead, t: &[u8], v: u32) -> io::Result<()> {
    print!(rt; "v {v}")?;
    match lookup::value_at(h, t, v) {
        None => println!(rt; " none"),
        Some(Shown::Bool(b)) => println!(rt; " {b}"),
        Some(Shown::Int(n)) => println!(rt; " int {:016x}", n.cast_unsigned()),
        Some(Shown::String) => quoted(rt, lookup::string_bytes(h, t, v)),
    }
}

// A name's number, and its bytes in quotes.
pub fn name(rt: &impl Print, h: TableHead, t: &[u8], n: u32) -> io::Result<()> {
    print!(rt; "m {n}")?;
    quoted(rt, lookup::name_bytes(h, t, n))
}
