// Runs the calls of `units` at their limits. A line for each text: is it whole, then whether 0, 1, 2, 3, 4 and the largest
// index split a pair. Then three lines over eight units: kinds, high ones, low ones.
#![tactic(auto)]

use printing::Printer;
use std::fmt::Display;
use std::io;
use units::Kind;

fn text(rt: &impl Print, units: &[u16]) -> io::Result<()> {
    print!(rt; "{} ", u8::from(units::is_whole(units)))?;
    for index in [0, 1, 2, 3, 4, 0xFFFF_FFFF] {
        print!(rt; "{}", u8::from(units::splits_pair(units, index)))?;
    }
    println!(rt;)
}

fn letter(kind: Kind) -> char {
    match kind {
        Kind::Plain => 'P',
        Kind::High => 'H',
        Kind::Low => 'L',
    }
}

const LIMITS: [u16; 8] = [
    0x0000, 0xD7FF, 0xD800, 0xDBFF, 0xDC00, 0xDFFF, 0xE000, 0xFFFF,
];

fn row<D: Display + Drop, F: Fn(u16) -> D>(rt: &impl Print, shown: F) -> io::Result<()>
    requires { F.IsAlwaysCallable shown }
{
    for unit in LIMITS {
        print!(rt; "{}", shown(unit))?;
    }
    println!(rt;)
}

fn limits(rt: &impl Print) -> io::Result<()> {
    row(rt, |unit| letter(Kind::from(unit)))?;
    row(rt, |unit| u8::from(units::is_high(unit)))?;
    row(rt, |unit| u8::from(units::is_low(unit)))
}

fn main(rt: HostRuntime) -> io::Result<()> {
    let rt = Printer::new(rt.stdout());
    text(&rt, &[])?;
    text(&rt, &[0xD800])?;
    text(&rt, &[0xDC00])?;
    text(&rt, &[0xD83D, 0xDE00])?;
    text(&rt, &[0xD83D, 0xD83D, 0xDE00])?;
    text(&rt, &[0xDE00, 0xD83D])?;
    text(&rt, &[0xDE00, 0xD83D, 0xDE00])?;
    text(&rt, &[0x0061, 0xD83D, 0xDE00, 0x0062])?;
    text(&rt, &[0xDBFF, 0xDFFF, 0xD800, 0xDC00])?;
    text(&rt, &[0xD83D, 0xDE00, 0xDE00])?;
    text(&rt, &[0xD7FF, 0xE000, 0xFFFF, 0x0000])?;
    text(&rt, &[0xD800, 0xE000])?;
    text(&rt, &[0xD7FF, 0xDC00])?;
    limits(&rt)
}
