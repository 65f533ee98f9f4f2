// The operations of a delta, carried out one after the other in a working copy.
ghost use Rattle.std.specs.Prelude.{◌≡◌, ◌+◌, ◌≤◌};
ghost use Rattle.attrs.specs.Packed.{says};
ghost use Rattle.rules.specs.Delta.{new_text, insert_here, carry_out};
ghost use Rattle.arena.specs.Places.{SIZE, Standing, placed, Carried};
ghost use Rattle.changes.specs.Frame.{Tried};
ghost use Rattle.carrying.specs.Turns.{given_at, held_by, brings, rule_of, laid, bringing};

use arena::{At, Place};
use attrs::Attrs;
use edits::format::insert_format;
use edits::insert::insert;
use layout::head::Head;
use layout::word::Content;
use ops::delta::{DeltaOp, Inserted, Op};
use removal::delete_here;

// Empty text does nothing, it does not even settle.
fn insert_text(h: Head, work: &mut [u64], p: Place, start: u32, len: u32, attrs: Attrs) -> At
    requires { Standing h work.old p × (h.items + 33 ≤ SIZE) × (start + len ≤ 16384) }
    ensures { Carried (insert_here (new_text start len) (says attrs)) h work.old p result.head work.new result.place }
{
    if len == 0 {
        return At { head: h, place: p };
    }
    insert(h, work, p, Content::Text { start, len }, attrs)
}

fn insert_part(h: Head, work: &mut [u64], p: Place, used: u32, part: Inserted, attrs: Attrs) -> At
    requires { Standing h work.old p × (h.items + 33 ≤ SIZE) × (used + held_by part ≤ 16384) }
    ensures { Carried (insert_here (given_at used part) (says attrs)) h work.old p result.head work.new result.place }
{
    match part {
        Inserted::Text { len, .. } => insert_text(h, work, p, used, len, attrs),
        Inserted::Embed(number) => insert(h, work, p, Content::Embed(number), attrs),
    }
}

// One operation at the place reached; its text's units will stand behind the used ones.
fn step(h: Head, work: &mut [u64], p: Place, used: u32, op: Op, attrs: Attrs) -> At
    requires { Standing h work.old p × (h.items + 33 ≤ SIZE) × (used + brings op ≤ 16384) }
    ensures { Carried (rule_of used (says attrs) op) h work.old p result.head work.new result.place }
{
    match op {
        Op::Insert(part) => insert_part(h, work, p, used, part, attrs),
        Op::Delete(len) => delete_here(h, work, p, len),
        Op::Retain(len) => insert_format(h, work, p, len, attrs),
    }
}

pub fn brought(op: Op) -> u32
    ensures { result ≡ brings op }
{
    match op {
        Op::Insert(Inserted::Text { len, .. }) => len,
        _ => 0,
    }
}

// It stops where the list gets too long, since no operation makes it shorter.
pub fn carry_out(from: At, work: &mut [u64], used: u32, ops: &[DeltaOp]) -> Head
    requires { Standing from.head work.old from.place × (from.head.items ≤ 2048) × (used + bringing ops.now ≤ 16384) }
    ensures { Tried (carry_out (laid used ops.now) (placed from.head work.old from.place)) result work.new }
{
    let mut at = from;
    let mut next = used;
    for d in ops {
        at = step(at.head, work, at.place, next, d.op, d.attrs);
        if at.head.items > Head::ITEMS {
            return at.head;
        }
        next += brought(d.op);
    }
    at.head
}
