// A delta, from its line to the sheet.
use crate::say::{say_no_call, say_refused};
use crate::state::{Sheet, State};
use deltas::apply::apply_delta;
use lines::deltas::{AskedDelta, read_delta};
use lines::fields::End;
use std::io;

fn applied(rt: &impl Print, sheet: &mut Sheet, asked: AskedDelta, chunk: &[u16]) -> io::Result<()> {
    if let Some(refusal) = asked.refusal {
        return say_refused(rt, refusal);
    }
    let answer = apply_delta(
        sheet.head,
        &mut sheet.items,
        &mut sheet.units,
        asked.delta,
        chunk,
        &[0; 2048],
        &[0; 16384],
    );
    sheet.told(rt, answer)
}

pub fn delta_line(rt: &impl Print, s: &mut State, line: &[u8], number: u64) -> io::Result<()> {
    let asked = read_delta(line, &mut s.text);
    if asked.end != End::Line {
        return say_no_call(rt, number);
    }
    s.touched = true;
    applied(rt, &mut s.sheet, asked, &s.text[..asked.count])
}
