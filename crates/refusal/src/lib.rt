// What a call is refused with.
#![tactic(auto)]

ghost use Rattle.std.specs.Prelude.{◌≡◌};
ghost use Rattle.refusal.specs.Numbers.{number_of, refusal_in};

#[derive(Clone, Copy, Debug, PartialEq, Eq)]
pub enum Refusal {
    // A removal asks for more units than stand right of its place.
    Short = 1,
    // An index, or the end of a range, falls inside a surrogate pair.
    Pair = 2,
    // Text that is handed in has half of a pair.
    Units = 3,
    // There would be more than 2,048 items, or more than 16,384 units.
    Room = 4,
    // A name or value is new, and no number is left.
    Full = 5,
    // A name of 0 or over 32 bytes, or a string value over 32.
    Long = 6,
    // A delta of over 256 operations, or a text of it past the lent units.
    Many = 7,
    // What is lent for the answer is too small.
    Out = 8,
    // What is lent as a sheet or a table is not sound.
    Broken = 9,
    // A key over 15, or a value over 255.
    Key = 16,
}

impl From<Refusal> for u32 {
    ghost from_gives = { λ refusal n. n ≡ number_of refusal };

    fn from(refusal: Refusal) -> u32 {
        refusal as u32
    }
}

// The number of an answer: 0 where it is accepted.
pub fn number<T: Drop>(answer: Result<T, Refusal>) -> u32
    ensures { result ≡ refusal_in answer }
{
    match answer {
        Ok(_) => 0,
        Err(refusal) => u32::from(refusal),
    }
}
