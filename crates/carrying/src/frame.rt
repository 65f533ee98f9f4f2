// A delta in a working copy, and back.
ghost use Rattle.std.specs.Prelude.{◌≡◌, ◌+◌, ◌≤◌};
ghost use Rattle.rules.specs.Delta.{delta};
ghost use Rattle.layout.specs.Memory.{list_of};
ghost use Rattle.changes.specs.Frame.{left, granted, Loadable};
ghost use Rattle.carrying.specs.Turns.{laid, bringing};

use crate::turns::carry_out;
use arena::{At, Place};
use changes::frame::in_working_copy;
use layout::head::Head;
use ops::delta::DeltaOp;
use refusal::Refusal;

// 4 is decided by what the operations made, while the sheet is still untouched. `used` is how many units it has in use afterwards.
pub fn carry_all(h: Head, items: &mut [u64], ops: &[DeltaOp], used: u32) -> Result<Head, Refusal>
    requires { Loadable h items.old × (h.units + bringing ops.now ≤ 16384) }
    ensures { left h result items.new ≡ granted (delta (laid h.units ops.now) (list_of h items.old) h.items) used h items.old }
{
    let from = At {
        head: h,
        place: Place::start(h),
    };
    in_working_copy(h, items, used, |work| carry_out(from, work, h.units, ops))
}
