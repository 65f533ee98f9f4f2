// From a sheet's words into a working copy, and back.
ghost use Rattle.std.specs.Prelude.{◌≡◌, ◌≤◌, length};
ghost use Rattle.arena.specs.Writes.{copied};

// The first n words of one buffer over the front of another, whose other words stay.
pub fn copy(n: u32, from: &[u64], to: &mut [u64])
    requires { (n ≤ length from.now) × (n ≤ length to.old) }
    ensures { to.new ≡ copied n from.now to.old }
{
    let k = n as usize;
    to[..k].copy_from_slice(&from[..k]);
}
