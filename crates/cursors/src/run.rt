// A run by value.
ghost use Rattle.std.specs.Prelude.{◌≡◌};
ghost use Rattle.cursors.specs.Records.{blank};

use attrs::Attrs;

// `start` and `len` count visible units. `number` is the embed's, 0 for a text: `Listed` of `demands` reads the two apart.
// `attrs` holds what is in force and not null, and `count` is how many keys that are
// (`record_of`).
#[derive(Clone, Copy)]
pub struct Run {
    pub embed: bool,
    pub start: u32,
    pub len: u32,
    pub number: u32,
    pub count: u32,
    pub attrs: Attrs,
}

impl Run {
    // What stands where there is no run.
    pub fn blank() -> Run
        ensures { result ≡ blank }
    {
        Run {
            embed: false,
            start: 0,
            len: 0,
            number: 0,
            count: 0,
            attrs: Attrs::empty(),
        }
    }
}
