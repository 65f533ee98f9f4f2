// What a word says.
ghost use Rattle.std.specs.Prelude.{◌≡◌, ◌<◌, ◌≤◌, length};
ghost use Rattle.words.specs.Numbers.{number_of, unit_of, pair_at, piece_of};

use crate::words::{Class, span};

// A unit of text, or an attribute.
#[derive(Clone, Copy)]
pub enum Piece {
    Unit(u16),
    Pair { key: u32, value: u32 },
}

// A whole word as a number below 2 to the 32nd, its digits below `base`. A digit is told in base 16 first, since `to_digit` takes no base of 1.
pub fn read_number(w: &[u8], base: u64) -> Option<u32>
    requires base_nonzero { 0 < base }
    requires base_bound { base ≤ 16 }
    ensures { result ≡ number_of base w.now }
{
    if w.is_empty() {
        return None;
    }
    let mut value: u32 = 0;
    for b in w {
        let d = char::from(*b).to_digit(16)?;
        if u64::from(d) >= base {
            return None;
        }
        value = value.checked_mul(base as u32)?.checked_add(d)?;
    }
    Some(value)
}

fn unit(w: &[u8]) -> Option<Piece>
    ensures { result ≡ unit_of w.now }
{
    if w.len() != 4 {
        return None;
    }
    let u = read_number(w, 16)?;
    Some(Piece::Unit(u as u16))
}

// The attribute of a word with a `=` at e.
fn pair(w: &[u8], e: usize) -> Option<Piece>
    requires { e < length w.now }
    ensures { result ≡ pair_at w.now e }
{
    let key = read_number(&w[..e], 10)?;
    let value = read_number(&w[e + 1..], 10)?;
    Some(Piece::Pair { key, value })
}

#[tactic(auto, unfolding(crate::specs::Numbers::piece_of))]
pub fn read_piece(w: &[u8]) -> Option<Piece>
    ensures { result ≡ piece_of w.now }
{
    let e = span(w, 0, Class::Key);
    if e < w.len() { pair(w, e) } else { unit(w) }
}
