// The texts of a delta, behind the units in use.
ghost use Rattle.std.specs.Prelude.{◌≡◌, false, ◌+◌, ◌≤◌, length, map};
ghost use Rattle.rules.specs.Calls.{new_units};
ghost use Rattle.changes.specs.Appends.{appended};
ghost use Rattle.ops.specs.Ops.{op_of};
ghost use Rattle.carrying.specs.Turns.{brings, bringing};
ghost use Rattle.deltas.specs.Checks.{past_end, any_past};
ghost use Rattle.deltas.specs.Texts.{units_of};

use carrying::turns::brought;
use changes::append::append;
use ops::delta::{DeltaOp, Inserted, Op};

fn append_op(units: &mut [u16], at: u32, op: Op, chunk: &[u16])
    requires { (at + brings op ≤ length units.old) × (past_end (length chunk.now) op ≡ false) }
    ensures { units.new ≡ appended at (units_of chunk.now op) units.old }
{
    if let Op::Insert(Inserted::Text { start, len }) = op {
        let a = start as usize;
        append(units, at, &chunk[a..a + len as usize]);
    }
}

pub(crate) fn append_all(units: &mut [u16], used: u32, ops: &[DeltaOp], chunk: &[u16])
    requires { (length units.old ≡ 16384) × (any_past (length chunk.now) ops.now ≡ false) × (used + bringing ops.now ≤ 16384) }
    ensures { units.new ≡ appended used (new_units (map (op_of chunk.now) ops.now)) units.old }
{
    let mut at = used;
    for d in ops {
        append_op(units, at, d.op, chunk);
        at += brought(d.op);
    }
}
