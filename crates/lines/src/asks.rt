// What a line asks of the table of names and values.
ghost use Rattle.std.specs.Prelude.{◌≡◌, ◌≤◌, length};
ghost use Rattle.lines.specs.Asks.{integer_of, numbered_entry, word_entry, ended_entry, entry_by, behind, EntryIs};

use crate::fields::{Field, letter, read_field};
use words::numbers::read_number;
use words::words::{Rest, next_word};

// An integer is told by its two's complement. The bytes of a name or a string are those of the line from `at` on.
#[derive(Clone, Copy)]
pub enum Entry {
    Name,
    String,
    Bool(bool),
    Integer(u64),
    NameOf(u32),
    ValueOf(u32),
}

// No entry where the line asks for none.
#[derive(Clone, Copy)]
pub struct AskedEntry {
    pub entry: Option<Entry>,
    pub at: usize,
}

// Sixteen hexadecimal digits.
fn integer(w: &[u8]) -> Option<Entry>
    ensures { result ≡ integer_of w.now }
{
    if w.len() != 16 {
        return None;
    }
    let high = read_number(&w[..8], 16)?;
    let low = read_number(&w[8..], 16)?;
    Some(Entry::Integer(u64::from(high) * 4294967296 + u64::from(low)))
}

// The letter goes on from `named_entry` down to here: each step takes its own letters and leaves the others, and enums for that would name the six entries once more for each step.
fn numbered(name: u8, n: u32) -> Option<Entry>
    ensures { result ≡ numbered_entry name n }
{
    match (name, n) {
        (b'm', _) => Some(Entry::NameOf(n)),
        (b'v', _) => Some(Entry::ValueOf(n)),
        (_, 0) => Some(Entry::Bool(false)),
        (_, 1) => Some(Entry::Bool(true)),
        _ => None,
    }
}

fn worded(w: &[u8], name: u8) -> Option<Entry>
    ensures { result ≡ word_entry name w.now }
{
    if name == b'g' {
        return integer(w);
    }
    numbered(name, read_number(w, 10)?)
}

// One word, and then the end of the line.
fn ended(rest: Rest, name: u8) -> Option<Entry>
    ensures { result ≡ ended_entry rest.entry.line.now rest.entry.from name }
{
    let w = next_word(rest);
    match read_field(Rest {
        line: rest.line,
        from: w.end,
    })
    .field
    {
        Field::Line => worded(&rest.line[w.start..w.end], name),
        Field::Op | Field::Word(_) => None,
    }
}

fn named_entry(rest: Rest, name: u8) -> Option<Entry>
    ensures { result ≡ entry_by rest.entry.line.now rest.entry.from name }
{
    match name {
        b'k' => Some(Entry::Name),
        b's' => Some(Entry::String),
        _ => ended(rest, name),
    }
}

// One byte parts the letter from the bytes of a name or a string.
fn after(n: usize, end: usize) -> usize
    requires { end ≤ n }
    ensures { (result ≡ behind n end) × (result ≤ n) }
{
    if end < n { end + 1 } else { end }
}

pub fn read_entry(line: &[u8]) -> AskedEntry
    ensures { EntryIs line.now result }
{
    let w = next_word(Rest { line, from: 0 });
    let name = letter(&line[w.start..w.end]);
    AskedEntry {
        entry: named_entry(Rest { line, from: w.end }, name),
        at: after(line.len(), w.end),
    }
}
