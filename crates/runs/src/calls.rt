// How many runs a sheet has, and each by its number. `joined` merges neighbouring texts on which the same is in force.
ghost use Rattle.std.specs.Prelude.{◌≡◌};
ghost use Rattle.runs.specs.Answers.{told, counted, planned, said, run_at, Begun};

use cursors::run::Run;
use cursors::walk::Runs;
use layout::head::Head;
use refusal::Refusal;
use soundness::sound;

// The runs themselves, for whoever goes over all of them.
pub fn runs<'a>(h: Head, items: &'a [u64], units: &[u16], joined: bool) -> Result<Runs<'a>, Refusal>
    ensures { Begun h items.now units.now joined result }
{
    if !sound(h, items, units) {
        return Err(Refusal::Broken);
    }
    Ok(Runs::new(h, items, joined))
}

pub fn count_runs(h: Head, items: &[u64], units: &[u16], joined: bool) -> Result<usize, Refusal>
    ensures { told result ≡ counted h items.now units.now joined }
{
    Ok(runs(h, items, units, joined)?.count())
}

// Runs count from 0.
pub fn run_at(
    h: Head,
    items: &[u64],
    units: &[u16],
    joined: bool,
    n: u32,
) -> Result<Option<Run>, Refusal>
    ensures { said result ≡ run_at h items.now units.now joined n }
{
    Ok(runs(h, items, units, joined)?.nth(n as usize))
}

// How many runs a slice with room for `room` runs is filled with.
pub fn plan(
    h: Head,
    items: &[u64],
    units: &[u16],
    joined: bool,
    room: usize,
) -> Result<usize, Refusal>
    ensures { told result ≡ planned h items.now units.now joined room }
{
    let count = count_runs(h, items, units, joined)?;
    if count > room {
        return Err(Refusal::Out);
    }
    Ok(count)
}
