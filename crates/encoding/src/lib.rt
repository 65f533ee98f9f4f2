// An operation in lent numbers: eight to each, namely its kind (1 text, 2 embed, 3 delete, 4 retain), a start or number, a length,
// the key mask, and the sixteen values, four to a number.
#![tactic(auto)]

ghost use Rattle.std.specs.Prelude.{◌≡◌, ◌+◌, ◌*◌, ◌<◌, ◌≤◌, [], ◌∷◌, length, slice_index};
ghost use Rattle.std.proofs.lemmas.List.Edits.{sets};
ghost use Rattle.encoding.specs.Words.{bytes_of, four, meant_by, found_from, found_at, kind_of, first_of, second_of, words_of};

use attrs::Attrs;
use copying::copy;
use ops::delta::{DeltaOp, Inserted, Op};

pub const WORDS: usize = 8;

// Sixteen values from four numbers.
fn bytes(a: u32, b: u32, c: u32, d: u32) -> [u8; 16]
    ensures { result ≡ bytes_of a b c d }
{
    let mut values = [0; 16];
    values[..4].copy_from_slice(&a.to_le_bytes());
    values[4..8].copy_from_slice(&b.to_le_bytes());
    values[8..12].copy_from_slice(&c.to_le_bytes());
    values[12..].copy_from_slice(&d.to_le_bytes());
    values
}

// Four values from k on, in one number.
fn quad(v: [u8; 16], k: usize) -> u32
    requires { k + 3 < 16 }
    ensures { result ≡ four v k }
{
    u32::from_le_bytes([v[k], v[k + 1], v[k + 2], v[k + 3]])
}

// The kinds are numbers here: the C interface passes operations so.
fn op_for(kind: u32, first: u32, second: u32) -> Option<Op>
    ensures { result ≡ meant_by kind first second }
{
    match kind {
        1 => Some(Op::Insert(Inserted::Text {
            start: first,
            len: second,
        })),
        2 => Some(Op::Insert(Inserted::Embed(first))),
        3 => Some(Op::Delete(first)),
        4 => Some(Op::Retain(first)),
        _ => None,
    }
}

#[tactic(auto, using(crate::proofs::Parts::too_wide, crate::proofs::Parts::fits_in), unfolding(crate::specs::Words::op_from))]
fn op_in(words: [u32; WORDS]) -> Option<DeltaOp>
    ensures { result ≡ found_from words 0 }
{
    let [kind, first, second, mask, a, b, c, d] = words;
    let mask = u16::try_from(mask).ok()?;
    let op = op_for(kind, first, second)?;
    let values = bytes(a, b, c, d);
    Some(DeltaOp {
        op,
        attrs: Attrs { mask, values },
    })
}

// Operation i of those that lie at the front of `words`; none past the end, or where the numbers say no operation.
#[tactic(auto, using(crate::proofs::Parts::past_end))]
pub fn op_at(words: &[u32], i: u32) -> Option<DeltaOp>
    ensures { result ≡ found_at words.now i }
{
    let at = i as usize * WORDS;
    let rest = words.get(at..)?;
    let word = rest.first_chunk()?;
    op_in(*word)
}

fn numbers_of(op: Op) -> [u32; 3]
    ensures { result ≡ kind_of op ∷ first_of op ∷ second_of op ∷ [] }
{
    match op {
        Op::Insert(Inserted::Text { start, len }) => [1, start, len],
        Op::Insert(Inserted::Embed(n)) => [2, n, 0],
        Op::Delete(n) => [3, n, 0],
        Op::Retain(n) => [4, n, 0],
    }
}

// Operation i is written over the eight numbers of its place.
#[tactic(auto, using(crate::proofs::Stores::copied))]
pub fn write_op(words: &mut [u32], i: u32, d: DeltaOp)
    requires { i * 8 + 8 ≤ length words.old }
    ensures { words.new ≡ sets words.old (i * 8) (words_of d) }
{
    let at = i as usize * WORDS;
    let [kind, first, second] = numbers_of(d.op);
    let mask = u32::from(d.attrs.mask);
    let v = d.attrs.values;
    let written = [
        kind,
        first,
        second,
        mask,
        quad(v, 0),
        quad(v, 4),
        quad(v, 8),
        quad(v, 12),
    ];
    copy(&mut words[at..at + WORDS], &written);
}
