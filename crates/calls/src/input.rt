// Lines from standard input, which comes in parts.
ghost use Rattle.std.specs.Prelude.{◌+◌, ◌<◌, ◌≤◌};
ghost use Rattle.calls.specs.declared.input.TheConstants.{ROOM};

use crate::edit::run_line;
use crate::say::say_no_call;
use crate::state::State;
use std::io;
use std::io::{Read, Stdin};
use words::input::{first_line, to_front};

pub const ROOM: usize = 135168;

// Bytes of the buffer that wait to be handed out.
#[derive(Clone, Copy)]
pub struct Waiting {
    pub start: usize,
    pub end: usize,
    pub ghost order: { start ≤ end },
    pub ghost within: { end ≤ ROOM },
}

// `line` lines have begun; `long` while what comes is the rest of one that is too long.
#[derive(Clone, Copy)]
pub struct Place {
    pub waiting: Waiting,
    pub line: u64,
    pub long: bool,
    pub more: bool,
}

// A line whose newline stands `e` bytes behind the start.
fn whole(
    rt: &impl Print,
    p: Place,
    e: usize,
    buf: &[u8; ROOM],
    state: &mut State,
) -> io::Result<Place>
    requires { p.waiting.start + e < p.waiting.end }
{
    let Waiting { start, end } = p.waiting;
    let stop = start + e;
    let waiting = Waiting {
        start: stop + 1,
        end,
    };
    if p.long {
        return Ok(Place {
            waiting,
            long: false,
            ..p
        });
    }
    let line = p.line.wrapping_add(1);
    run_line(rt, state, &buf[start..stop], line)?;
    Ok(Place { waiting, line, ..p })
}

// The first n bytes, with one more part behind them; nothing comes at the end of the input, and where a read fails.
fn read_behind(mut stdin: Stdin, buf: &mut [u8; ROOM], n: usize) -> Waiting
    requires { n ≤ ROOM }
    ensures { n ≤ result.end }
{
    let more = stdin.read(&mut buf[n..]).unwrap_or(0);
    Waiting {
        start: 0,
        end: n + more,
    }
}

fn refilled(stdin: Stdin, p: Place, buf: &mut [u8; ROOM], n: usize) -> Place
    requires { n ≤ ROOM }
{
    let waiting = read_behind(stdin, buf, n);
    Place {
        waiting,
        more: n < waiting.end,
        ..p
    }
}

// No newline waits. A line that fills the buffer is no call, and what is left of it is passed over.
fn part(rt: &impl Print, stdin: Stdin, p: Place, buf: &mut [u8; ROOM]) -> io::Result<Place> {
    if p.long {
        return Ok(refilled(stdin, p, buf, 0));
    }
    let n = to_front(buf, p.waiting.start, p.waiting.end);
    if n < ROOM {
        return Ok(refilled(stdin, p, buf, n));
    }
    let line = p.line.wrapping_add(1);
    say_no_call(rt, line)?;
    let long = Place {
        line,
        long: true,
        ..p
    };
    Ok(refilled(stdin, long, buf, 0))
}

fn step(
    rt: &impl Print,
    stdin: Stdin,
    p: Place,
    buf: &mut [u8; ROOM],
    state: &mut State,
) -> io::Result<Place> {
    match first_line(buf, p.waiting.start, p.waiting.end) {
        Some(e) => whole(rt, p, e, buf, state),
        None => part(rt, stdin, p, buf),
    }
}

// What waits at the end of the input is a line too.
fn rest(rt: &impl Print, p: Place, buf: &[u8; ROOM], state: &mut State) -> io::Result<()> {
    let Waiting { start, end } = p.waiting;
    if !p.long && start < end {
        run_line(rt, state, &buf[start..end], p.line.wrapping_add(1))?;
    }
    Ok(())
}

// A proved loop ends, and nothing says that the input does: the turns are counted up to a number that no run reaches.
pub fn all_lines(
    rt: &impl Print,
    stdin: Stdin,
    buf: &mut [u8; ROOM],
    state: &mut State,
) -> io::Result<()> {
    let mut p = Place {
        waiting: Waiting { start: 0, end: 0 },
        line: 0,
        long: false,
        more: true,
    };
    for _ in 0..u64::MAX {
        if !p.more {
            return rest(rt, p, buf, state);
        }
        p = step(rt, stdin, p, buf, state)?;
    }
    Ok(())
}
