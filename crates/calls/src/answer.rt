// The length, runs, items and event of a sheet.
use crate::letters::Letters;
use crate::say::{say_attrs, say_units};
use crate::state::Sheet;
use cursors::run::Run;
use encoding::op_at;
use events::event::event;
use layout::list::Items;
use layout::word::{Content, Item};
use ops::delta::{DeltaOp, Inserted, Op};
use ranges::text_of_range;
use std::io;

fn say_len(rt: &impl Print, sheet: &Sheet) -> io::Result<()> {
    let len = items::len(sheet.head, &sheet.items, &sheet.units).unwrap_or(0);
    println!(rt; "len {len}")
}

fn part(units: &[u16], start: u32, len: u32) -> &[u16] {
    let start = start as usize;
    units.get(start..start + len as usize).unwrap_or(&[])
}

// A run's text, for which `text` has room.
fn text_of<'a>(sheet: &Sheet, run: Run, text: &'a mut [u16; 16384]) -> &'a [u16] {
    let answer = text_of_range(
        sheet.head,
        &sheet.items,
        &sheet.units,
        run.start,
        run.len,
        text,
    );
    text.get(..answer.unwrap_or(0)).unwrap_or(&[])
}

fn show_content(rt: &impl Print, sheet: &Sheet, run: Run) -> io::Result<()> {
    if run.embed {
        print!(rt; "<{}>", run.number)?;
    } else {
        let mut text = [0; 16384];
        let text = text_of(sheet, run, &mut text);
        print!(rt; "{}", Letters { text })?;
    }
    say_attrs(rt, run.attrs)
}

// A run with attributes stands in brackets, its attributes behind it.
fn show_run(rt: &impl Print, sheet: &Sheet, run: Run) -> io::Result<()> {
    if run.attrs.is_empty() {
        return show_content(rt, sheet, run);
    }
    print!(rt; "[")?;
    show_content(rt, sheet, run)?;
    print!(rt; "]")
}

// What `p` asks for: the visible text in one line, as a person reads it.
pub fn show(rt: &impl Print, sheet: &Sheet) -> io::Result<()> {
    if let Ok(all) = runs::calls::runs(sheet.head, &sheet.items, &sheet.units, true) {
        for run in all {
            show_run(rt, sheet, run)?;
        }
    }
    println!(rt;)
}

fn say_run(rt: &impl Print, sheet: &Sheet, run: Run) -> io::Result<()> {
    if run.embed {
        print!(rt; "e {}", run.number)?;
    } else {
        print!(rt; "t")?;
        say_units(rt, text_of(sheet, run, &mut [0; 16384]))?;
    }
    say_attrs(rt, run.attrs)?;
    println!(rt;)
}

// One line a run, each behind `name`.
fn say_runs(rt: &impl Print, sheet: &Sheet, joined: bool, name: &str) -> io::Result<()> {
    if let Ok(all) = runs::calls::runs(sheet.head, &sheet.items, &sheet.units, joined) {
        for run in all {
            print!(rt; "{name}")?;
            say_run(rt, sheet, run)?;
        }
    }
    Ok(())
}

// What stands at the end of the output.
pub fn last(rt: &impl Print, sheet: &Sheet) -> io::Result<()> {
    say_len(rt, sheet)?;
    say_runs(rt, sheet, true, "")
}

fn say_content(rt: &impl Print, sheet: &Sheet, at: u32, content: Content) -> io::Result<()> {
    match content {
        Content::Text { .. } => {
            print!(rt; "item text")?;
            say_units(
                rt,
                items::text_of(sheet.head, &sheet.items, &sheet.units, at),
            )
        }
        Content::Embed(n) => print!(rt; "item embed {n}"),
        Content::Mark { key, value } => print!(rt; "item mark {key}={value}"),
    }
}

fn say_flags(rt: &impl Print, it: Item) -> io::Result<()> {
    let dead = if it.dead { " D" } else { "" };
    let added = if it.added { " a" } else { "" };
    let gone = if it.gone { " d" } else { "" };
    println!(rt; "{dead}{added}{gone}")
}

fn say_items(rt: &impl Print, sheet: &Sheet) -> io::Result<()> {
    for (n, it) in Items::new(sheet.head, &sheet.items) {
        say_content(rt, sheet, n, it.content)?;
        say_flags(rt, it)?;
    }
    Ok(())
}

fn say_op(rt: &impl Print, d: DeltaOp, units: &[u16]) -> io::Result<()> {
    match d.op {
        Op::Insert(Inserted::Text { start, len }) => {
            print!(rt; "ev i")?;
            say_units(rt, part(units, start, len))?;
        }
        Op::Insert(Inserted::Embed(n)) => print!(rt; "ev x {n}")?,
        Op::Delete(n) => return println!(rt; "ev d {n}"),
        Op::Retain(n) => print!(rt; "ev r {n}")?,
    }
    say_attrs(rt, d.attrs)?;
    println!(rt;)
}

fn say_event(rt: &impl Print, sheet: &Sheet) -> io::Result<()> {
    let mut words = [0; 16384];
    let mut units = [0; 16384];
    let answer = event(
        sheet.head,
        &sheet.items,
        &sheet.units,
        &mut words,
        &mut units,
    );
    if let Ok(written) = answer {
        for i in 0..written.ops {
            if let Some(d) = op_at(&words, i) {
                say_op(rt, d, &units)?;
            }
        }
    }
    Ok(())
}

// What `q` asks for.
pub fn query(rt: &impl Print, sheet: &Sheet) -> io::Result<()> {
    say_items(rt, sheet)?;
    say_len(rt, sheet)?;
    say_runs(rt, sheet, false, "run ")?;
    say_runs(rt, sheet, true, "joined ")?;
    say_event(rt, sheet)?;
    println!(rt; ".")
}
