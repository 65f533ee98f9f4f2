// Operations told one after the other: counted all, written while fewer than a limit are.
ghost use Rattle.std.specs.Prelude.{◌≡◌, ◌*◌, ◌<◌, ◌≤◌, length};
ghost use Rattle.std.specs.Option.{option_to_list};
ghost use Rattle.events.specs.Told.{plain_kind, telling, tell_all};

use encoding::write_op;
use ops::delta::{DeltaOp, Op};

// `kept` is `told` at the last operation that is no plain Retain: those behind it are dropped.
#[derive(Clone, Copy)]
pub struct Count {
    pub told: u32,
    pub kept: u32,
}

fn plain(d: DeltaOp) -> bool
    ensures { result ≡ plain_kind d.op d.attrs }
{
    matches!(d.op, Op::Retain(_)) && d.attrs.is_empty()
}

// An operation, if there is one.
#[tactic(auto, unfolding(crate::specs::Told::tell_all))]
pub(crate) fn tell(ops: &mut [u32], n: Count, limit: u32, op: Option<DeltaOp>) -> Count
    requires limit_in_bounds { limit * 8 ≤ length ops.old }
    requires told_bound { n.told < 4294967295 }
    ensures { telling result ops.new ≡ tell_all limit (telling n ops.old) (option_to_list op) }
{
    let Some(d) = op else { return n };
    if n.told < limit {
        write_op(ops, n.told, d);
    }
    let told = n.told + 1;
    let kept = if plain(d) { n.kept } else { told };
    Count { told, kept }
}
