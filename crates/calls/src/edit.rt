// One line's call.
use crate::answer::{last, query, show};
use crate::delta::delta_line;
use crate::names::entry_line;
use crate::say::{say_no_call, say_refused};
use crate::state::{Sheet, State};
use items::begin;
use layout::head::Head;
use lines::calls::{Asked, Call, read_call};
use refusal::Refusal;
use sheet::insert::{insert, insert_embed, insert_embed_with_attributes, insert_with_attributes};
use sheet::range::{format, remove_range};
use std::io;

fn carried(sheet: &mut Sheet, asked: Asked, chunk: &[u16]) -> Result<Head, Refusal> {
    let h = sheet.head;
    let items = &mut sheet.items;
    let units = &mut sheet.units;
    let set = asked.attrs;
    match asked.call {
        Call::Insert(index) => insert(h, items, units, index, chunk),
        Call::InsertWith(index) => insert_with_attributes(h, items, units, index, chunk, set),
        Call::Embed { index, n } => insert_embed(h, items, units, index, n),
        Call::EmbedWith { index, n } => insert_embed_with_attributes(
            h, items, units, index, n, set,
        ),
        Call::Format { index, len } => format(h, items, units, index, len, set),
        Call::Remove { index, len } => remove_range(h, items, units, index, len),
        _ => begin(h, items, units),
    }
}

fn edited(rt: &impl Print, sheet: &mut Sheet, asked: Asked, chunk: &[u16]) -> io::Result<()> {
    if let Some(refusal) = asked.refusal {
        return say_refused(rt, refusal);
    }
    let answer = carried(sheet, asked, chunk);
    sheet.told(rt, answer)
}

// A fresh sheet and table, where a call was made.
fn fresh(rt: &impl Print, s: &mut State) -> io::Result<()> {
    if s.touched {
        last(rt, &s.sheet)?;
        println!(rt; "new")?;
        s.clear();
    }
    Ok(())
}

pub fn run_line(rt: &impl Print, s: &mut State, line: &[u8], number: u64) -> io::Result<()> {
    let Some(asked) = read_call(line, &mut s.text) else {
        return say_no_call(rt, number);
    };
    match asked.call {
        Call::Silent => return Ok(()),
        Call::Fresh => return fresh(rt, s),
        Call::Delta => return delta_line(rt, s, line, number),
        Call::Entry => entry_line(rt, &mut s.names, line, number)?,
        Call::Query => query(rt, &s.sheet)?,
        Call::Show => show(rt, &s.sheet)?,
        _ => edited(rt, &mut s.sheet, asked, &s.text[..asked.count])?,
    }
    s.touched = true;
    Ok(())
}
