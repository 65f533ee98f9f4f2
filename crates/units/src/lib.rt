// UTF-16 units: which are halves of a surrogate pair, whether a text is whole, and whether an index cuts a pair.
#![tactic(auto)]

ghost use Rattle.std.specs.Prelude.{◌≡◌, ◌||◌, eqb};
ghost use Rattle.units.specs.Kinds.{kind_of};
ghost use Rattle.units.specs.Surrogates.{is_high, is_low, paired, splits_pair, halves};

#[derive(Clone, Copy, PartialEq, Eq)]
pub enum Kind {
    Plain,
    High,
    Low,
}

impl From<u16> for Kind {
    ghost from_gives = { λ unit kind. kind ≡ kind_of unit };

    fn from(unit: u16) -> Kind {
        match unit {
            0xD800..=0xDBFF => Kind::High,
            0xDC00..=0xDFFF => Kind::Low,
            _ => Kind::Plain,
        }
    }
}

pub fn is_high(unit: u16) -> bool
    ensures { result ≡ is_high unit }
{
    Kind::from(unit) == Kind::High
}

pub fn is_low(unit: u16) -> bool
    ensures { result ≡ is_low unit }
{
    Kind::from(unit) == Kind::Low
}

// No surrogate without its other half.
pub fn is_whole(units: &[u16]) -> bool
    ensures { result ≡ paired units.now }
{
    // Whether the unit just passed is a high one that still wants its low one.
    let mut held = false;
    for unit in units {
        if is_low(*unit) != held {
            return false;
        }
        held = is_high(*unit);
    }
    !held
}

fn is_half(unit: u16) -> bool
    ensures { result ≡ (is_high unit || is_low unit) }
{
    is_high(unit) || is_low(unit)
}

// No surrogate at all, so that every part is whole. It looks at each unit, with no early end, which a processor does several at a time.
pub fn is_plain(units: &[u16]) -> bool
    ensures { result ≡ eqb (halves units.now) 0 }
{
    let mut plain = true;
    for unit in units {
        if is_half(*unit) {
            plain = false;
        }
    }
    plain
}

// Whether `index` falls between the two halves of a pair of `units`; at the ends and past them it does not.
pub fn splits_pair(units: &[u16], index: u32) -> bool
    ensures { result ≡ splits_pair units.now index }
{
    if index == 0 {
        return false;
    }
    let i = index as usize;
    if i >= units.len() {
        return false;
    }
    is_high(units[i - 1]) && is_low(units[i])
}
