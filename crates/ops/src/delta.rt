// Operations by value. The attribute set of an operation lies beside it; a Delete's is not read.
ghost use Rattle.std.specs.Prelude.{◌≡◌};
ghost use Rattle.ops.specs.Ops.{empty_delta, pushed, took};

use attrs::Attrs;
use refusal::Refusal;

// A part of the lent units, or an embed.
#[derive(Clone, Copy)]
pub enum Inserted {
    Text { start: u32, len: u32 },
    Embed(u32),
}

#[derive(Clone, Copy)]
pub enum Op {
    Insert(Inserted),
    Delete(u32),
    Retain(u32),
}

#[derive(Clone, Copy)]
pub struct DeltaOp {
    pub op: Op,
    pub attrs: Attrs,
}

// The first `count` operations are the delta's: with no heap they lie in the struct itself.
#[derive(Clone, Copy)]
pub struct Delta {
    pub count: u32,
    pub ops: [DeltaOp; 256],
}

impl Delta {
    pub const OPS: u32 = 256;

    #[tactic(auto, unfolding(crate::specs::Ops::empty_delta))]
    pub fn empty() -> Delta
        ensures { result ≡ empty_delta }
    {
        let none = DeltaOp {
            op: Op::Retain(0),
            attrs: Attrs::empty(),
        };
        Delta {
            count: 0,
            ops: [none; 256],
        }
    }

    // One operation more.
    #[tactic(auto, unfolding(crate::specs::Ops::pushed))]
    pub fn push(self, op: DeltaOp) -> Result<Delta, Refusal>
        ensures { took self result ≡ pushed self op }
    {
        if self.count >= Delta::OPS {
            return Err(Refusal::Many);
        }
        let mut out = self;
        let i = self.count as usize;
        out.ops[i] = op;
        out.count = self.count + 1;
        Ok(out)
    }
}
