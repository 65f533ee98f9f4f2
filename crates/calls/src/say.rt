// Parts of lines. Units and attributes go through `put_unit` and `put_attrs`, whose clauses (`Wrote`) say what is written.
ghost use Rattle.std.specs.Prelude.{◌≤◌, IfOk};

use attrs::Attrs;
use refusal::Refusal;
use std::io;
use words::show::{put_attrs, put_unit};

// Each behind a space.
pub fn say_attrs(rt: &impl Print, set: Attrs) -> io::Result<()> {
    let mut text = [0; 672];
    let n = put_attrs(&mut text, 0, set);
    rt.write_all(&text[..n])
}

// Behind n bytes that wait, which are written first where there is no room.
fn add_unit(rt: &impl Print, out: &mut [u8; 4096], n: usize, u: u16) -> io::Result<usize>
    requires { n ≤ 4096 }
    ensures { IfOk result (λ end. end ≤ 4096) }
{
    if out.len() - n >= 5 {
        return Ok(put_unit(out, n, u));
    }
    rt.write_all(&out[..n])?;
    Ok(put_unit(out, 0, u))
}

// Each behind a space.
pub fn say_units(rt: &impl Print, units: &[u16]) -> io::Result<()> {
    let mut out = [0; 4096];
    let mut n = 0;
    for u in units {
        n = add_unit(rt, &mut out, n, *u)?;
    }
    rt.write_all(&out[..n])
}

pub fn say_refused(rt: &impl Print, refusal: Refusal) -> io::Result<()> {
    println!(rt; "refused {}", u32::from(refusal))
}

pub fn say_no_call(rt: &impl Print, line: u64) -> io::Result<()> {
    println!(rt; "no call, line {line}")
}
