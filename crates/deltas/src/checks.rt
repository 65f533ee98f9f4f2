// What only reads a delta: whether it can be read at all, and how many units it brings.
ghost use Rattle.std.specs.Prelude.{◌≡◌, ◌≤◌, length};
ghost use Rattle.carrying.specs.Turns.{bringing, given};
ghost use Rattle.deltas.specs.Checks.{past_end, any_past, many_of};

use carrying::turns::brought;
use ops::delta::{Delta, DeltaOp, Inserted, Op};

// In 64 bits, since a start and a length can pass 32.
fn past_end(n: usize, op: Op) -> bool
    ensures { result ≡ past_end n op }
{
    match op {
        Op::Insert(Inserted::Text { start, len }) => u64::from(start) + u64::from(len) > n as u64,
        _ => false,
    }
}

// Those that count.
pub(crate) fn operations(delta: &Delta) -> &[DeltaOp]
    requires { delta.now.count ≤ 256 }
    ensures { result.now ≡ given delta.now }
{
    &delta.ops[..delta.count as usize]
}

fn any_past(n: usize, ops: &[DeltaOp]) -> bool
    ensures { result ≡ any_past n ops.now }
{
    for d in ops {
        if past_end(n, d.op) {
            return true;
        }
    }
    false
}

// `n` is how many units are lent.
pub(crate) fn many(n: usize, delta: Delta) -> bool
    ensures { result ≡ many_of n delta }
{
    delta.count > Delta::OPS || any_past(n, operations(&delta))
}

// In 64 bits: 256 texts may be the same long part.
pub(crate) fn total(ops: &[DeltaOp]) -> u64
    requires { length ops.now ≤ 256 }
    ensures { result ≡ bringing ops.now }
{
    let mut sum = 0;
    for d in ops {
        sum += u64::from(brought(d.op));
    }
    sum
}
