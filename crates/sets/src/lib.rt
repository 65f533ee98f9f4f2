// Sets of keys as bits of a mask, and the walk over them.
#![tactic(auto)]

ghost use Rattle.std.specs.Prelude.{◌≡◌, ◌<◌, ◌^◌};
ghost use Rattle.std.specs.Iterator.{at_most};
ghost use Rattle.sets.specs.Bits.{keys_of, first_key, Rest, BitIs, BitSet};
ghost use Rattle.sets.specs.Walk.{Steps};

pub fn bit_of(key: u32) -> u16
    requires { key < 16 }
    ensures { result ≡ 2 ^ key }
{
    1u16 << key
}

// A number, not a bool: the laws of a key's bit are over numbers (`BitIs`), and a test of a bool would be no plainer.
pub fn bit_at(mask: u16, key: u32) -> u16
    requires { key < 16 }
    ensures { BitIs mask key result }
{
    (mask >> key) % 2
}

pub fn set_bit(mask: u16, key: u32) -> u16
    requires { key < 16 }
    ensures { BitSet mask key result }
{
    if bit_at(mask, key) == 0 {
        mask + bit_of(key)
    } else {
        mask
    }
}

// The lowest key of a mask.
pub fn lowest(mask: u16) -> Option<u32>
    ensures { result ≡ first_key (keys_of mask) }
{
    if mask == 0 {
        None
    } else {
        Some(u16::trailing_zeros(mask))
    }
}

// The mask without its lowest key.
pub fn rest(mask: u16) -> u16
    ensures { Rest mask result }
{
    if mask == 0 {
        return mask;
    }
    mask - bit_of(u16::trailing_zeros(mask))
}

// The keys of a mask, ascending: every walk over a set goes by it. `left` are those that are still to come.
#[derive(Clone, Copy)]
pub struct KeyWalk {
    pub left: u16,
}

impl KeyWalk {
    pub fn over(mask: u16) -> KeyWalk
        ensures { result.left ≡ mask }
    {
        KeyWalk { left: mask }
    }
}

impl Iterator for KeyWalk {
    type Item = u32;

    ghost next_gives = { Steps };

    ghost remaining = { λ s. at_most s.left };

    fn next(&mut self) -> Option<u32> {
        let key = lowest(self.left)?;
        self.left = rest(self.left);
        Some(key)
    }
}
