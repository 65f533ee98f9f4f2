// The calls of `attrs` at their limits: each check is proved from the promises, and run.
#![tactic(auto)]

ghost use Rattle.std.specs.Prelude.{◌≡◌};
ghost use Rattle.sets.specs.Sets.{keys, present};
ghost use Rattle.attrs.specs.Packed.{says, env_of};
ghost use Rattle.attrs_main.specs.Sum.{sum_of};

use attrs::Attrs;
use sets::KeyWalk;

// A walk over the keys from outside. A loop: `sum` on a chain asks for a bound on the items of every run of the walk, which was
// tried and did not close.
fn total(a: Attrs) -> u32
    ensures { result ≡ sum_of (env_of a) (present keys (says a)) }
{
    let mut sum: u32 = 0;
    for key in KeyWalk::over(a.mask) {
        sum += a.get(key);
    }
    sum
}

fn refusals() {
    let e = Attrs::empty();
    check::expect(e.is_empty());
    let last = e.with(15, 255);
    check::expect(refusal::number(last) == 0);
    let a = last.unwrap_or(e);
    check::expect(a.get(15) == 255);
    check::expect(a.get(4294967295) == 0);
    check::expect(refusal::number(a.with(16, 1)) == 16);
    check::expect(refusal::number(a.with(15, 256)) == 16);
    let far = a.update_current_attributes(4294967295, 4294967295);
    check::expect(refusal::number(far) == 16);
    check::expect(far.unwrap_or(a).same(a));
}

fn nulls() {
    let e = Attrs::empty();
    let a = e.with(15, 255).unwrap_or(e);
    let n = a.with(0, 0).unwrap_or(a);
    check::expect(n.has(0));
    check::expect(n.get(0) == 0);
    check::expect(n.count() == 2);
    let m = n.update_current_attributes(15, 0).unwrap_or(n);
    check::expect(m.count() == 1);
    // a null in force is nothing in force
    let u = e.unset_missing(n);
    check::expect(u.has(15));
    check::expect(!u.has(0));
    let w = n.without(16);
    check::expect(w.same(n));
    check::expect(n.agrees(0, 0));
    check::expect(!n.agrees(1, 0));
}

fn all_keys() {
    let e = Attrs::empty();
    let f = Attrs {
        mask: 65535,
        values: [7; 16],
    };
    check::expect(f.count() == 16);
    check::expect(total(f) == 112);
    let d = f.differing(e);
    check::expect(d.same(f));
    let r = f.remembered(e);
    check::expect(r.count() == 16);
    check::expect(total(r) == 0);
    check::expect(f.differing(f).is_empty());
}

fn main() {
    refusals();
    nulls();
    all_keys();
}
