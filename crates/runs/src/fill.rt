// A whole sheet fills a lent slice of run records.
ghost use Rattle.std.specs.Prelude.{◌≡◌};
ghost use Rattle.runs.specs.Answers.{told};
ghost use Rattle.runs.specs.Fills.{Filled, paged};

use crate::calls::plan;
use cursors::run::Run;
use cursors::walk::Runs;
use layout::head::Head;
use refusal::Refusal;

// Writes every run of the sheet into `out`, from its start, or refuses and leaves it as it was.
pub fn fill_runs(
    h: Head,
    items: &[u64],
    units: &[u16],
    joined: bool,
    out: &mut [Run],
) -> Result<usize, Refusal>
    ensures { Filled h items.now units.now joined out.old out.new (told result) }
{
    let count = plan(h, items, units, joined, out.len())?;
    for (i, run) in Runs::new(h, items, joined).take(count).enumerate() {
        out[i] = run;
    }
    Ok(count)
}

// The same over an array by value, for callers that hold their runs so: no sheet has more runs than it has room for.
pub fn page(
    h: Head,
    items: &[u64],
    units: &[u16],
    joined: bool,
    mut buf: [Run; 2048],
) -> [Run; 2048]
    ensures { result ≡ paged h items.now units.now joined buf }
{
    let _ = fill_runs(h, items, units, joined, &mut buf);
    buf
}
