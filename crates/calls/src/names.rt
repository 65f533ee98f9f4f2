// The table of names and values.
use crate::say::{say_no_call, say_refused};
use crate::state::Names;
use lines::asks::{Entry, read_entry};
use lookup::{Shown, name_bytes, string_bytes, value_at};
use refusal::Refusal;
use std::io;
use table::{Asked, ask_bool, ask_int, ask_name, ask_string};

// A refused call leaves the head as it was.
fn told(
    rt: &impl Print,
    names: &mut Names,
    answer: Result<Asked, Refusal>,
    what: &str,
) -> io::Result<()> {
    match answer {
        Ok(asked) => {
            names.head = asked.head;
            println!(rt; "{what} {}", asked.number)
        }
        Err(refusal) => say_refused(rt, refusal),
    }
}

// The bytes of a name or a string need not be text.
fn show_bytes(rt: &impl Print, what: &str, bytes: &[u8]) -> io::Result<()> {
    print!(rt; "{what} ")?;
    rt.write_all(bytes)?;
    println!(rt;)
}

fn show_name(rt: &impl Print, names: &Names, n: u32) -> io::Result<()> {
    let name = name_bytes(names.head, &names.table, n);
    if name.is_empty() {
        return println!(rt; "none");
    }
    show_bytes(rt, "name", name)
}

fn show_value(rt: &impl Print, names: &Names, v: u32) -> io::Result<()> {
    match value_at(names.head, &names.table, v) {
        None => println!(rt; "none"),
        Some(Shown::Bool(b)) => println!(rt; "{b}"),
        Some(Shown::Int(n)) => println!(rt; "integer {n}"),
        Some(Shown::String) => {
            show_bytes(rt, "string", string_bytes(names.head, &names.table, v))
        }
    }
}

pub fn entry_line(rt: &impl Print, names: &mut Names, line: &[u8], number: u64) -> io::Result<()> {
    let asked = read_entry(line);
    let Some(entry) = asked.entry else {
        return say_no_call(rt, number);
    };
    let h = names.head;
    let bytes = &line[asked.at..];
    let answer = match entry {
        Entry::Name => ask_name(h, &mut names.table, bytes),
        Entry::String => ask_string(h, &mut names.table, bytes),
        Entry::Bool(b) => ask_bool(h, &mut names.table, b),
        Entry::Integer(u) => ask_int(h, &mut names.table, i64::from_le_bytes(u.to_le_bytes())),
        Entry::NameOf(n) => return show_name(rt, names, n),
        Entry::ValueOf(v) => return show_value(rt, names, v),
    };
    let what = match entry {
        Entry::Name => "key",
        _ => "value",
    };
    told(rt, names, answer, what)
}
