// New units behind those in use.
ghost use Rattle.std.specs.Prelude.{◌≡◌, ◌+◌, ◌≤◌, length};
ghost use Rattle.changes.specs.Appends.{appended};

use copying::copy;

pub fn append(units: &mut [u16], at: u32, chunk: &[u16])
    requires { at + length chunk.now ≤ length units.old }
    ensures { units.new ≡ appended at chunk.now units.old }
{
    let at = at as usize;
    copy(&mut units[at..at + chunk.len()], chunk);
}
