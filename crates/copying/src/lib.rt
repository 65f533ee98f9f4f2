// The elements of a slice over those of another, by a loop: the library's `copy_from_slice` has the archive for C ask for `memmove`.
#![tactic(auto)]

ghost use Rattle.std.specs.Prelude.{◌≡◌, length};

pub fn copy<T: Copy>(to: &mut [T], from: &[T])
    requires { length to.old ≡ length from.now }
    ensures { to.new ≡ from.now }
{
    for (i, item) in from.iter().enumerate() {
        to[i] = *item;
    }
}
