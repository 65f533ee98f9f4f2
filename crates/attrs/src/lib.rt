// Attribute sets: for each key 0 to 15 absent, null (0) or a value 1 to 255. A set goes by value.
#![tactic(auto)]

ghost use Rattle.std.specs.Prelude.{◌≡◌, not, ◌<◌, length};
ghost use Rattle.sets.specs.Sets.{absent, is, empty, keys, at, is_absent, bare, slot_is, opened, former, completed, same_sets, present};
ghost use Rattle.attrs.specs.Packed.{says, env_of, packed, onto, with_at, update_at, changed, took, Got};

use refusal::Refusal;
use sets::{KeyWalk, bit_at, bit_of, set_bit};

// A key is there where its bit of the mask is set. The byte of an absent key is never read. A mask and sixteen values: the C interface
// lends a set so.
#[derive(Clone, Copy)]
pub struct Attrs {
    pub mask: u16,
    pub values: [u8; 16],
}

impl Attrs {
    pub const KEYS: u32 = 16;

    const LARGEST: u32 = 255;

    pub fn empty() -> Attrs
        ensures { result ≡ packed empty }
    {
        Attrs {
            mask: 0,
            values: [0; 16],
        }
    }

    pub fn has(self, key: u32) -> bool
        ensures { result ≡ not (is_absent (says self key)) }
    {
        key < Attrs::KEYS && bit_at(self.mask, key) == 1
    }

    // The value, 0 where the key is absent or null: in force null is none, and none is 0 (`env_of`).
    pub fn get(self, key: u32) -> u32
        ensures { Got self key result }
    {
        if key >= Attrs::KEYS || bit_at(self.mask, key) == 0 {
            return 0;
        }
        u32::from(self.values[key as usize])
    }

    // Does the set hold just this value, null counted as one?
    pub fn agrees(self, key: u32, value: u32) -> bool
        ensures { result ≡ slot_is (says self key) value }
    {
        self.has(key) && self.get(key) == value
    }

    fn put(self, key: u32, value: u32) -> Attrs
        requires key_bound { key < 16 }
        requires value_bound { value < 256 }
        ensures { result ≡ onto self (at key (is value) (says self)) }
    {
        let mut out = self;
        out.mask = set_bit(self.mask, key);
        out.values[key as usize] = value as u8;
        out
    }

    pub fn with(self, key: u32, value: u32) -> Result<Attrs, Refusal>
        ensures { took self result ≡ with_at self key value }
    {
        if key >= Attrs::KEYS || value > Attrs::LARGEST {
            return Err(Refusal::Key);
        }
        Ok(self.put(key, value))
    }

    pub fn without(self, key: u32) -> Attrs
        ensures { result ≡ onto self (at key absent (says self)) }
    {
        if !self.has(key) {
            return self;
        }
        let mut out = self;
        out.mask = self.mask - bit_of(key);
        out.values[key as usize] = 0;
        out
    }

    // What passing a mark makes of the attributes in force: null removes the key.
    pub fn update_current_attributes(self, key: u32, value: u32) -> Result<Attrs, Refusal>
        ensures { took self result ≡ update_at self key value }
    {
        if value != 0 {
            return self.with(key, value);
        }
        if key >= Attrs::KEYS {
            return Err(Refusal::Key);
        }
        Ok(self.without(key))
    }

    pub fn count(self) -> u32
        ensures { result ≡ length (present keys (says self)) }
    {
        u16::count_ones(self.mask)
    }

    pub fn is_empty(self) -> bool
        ensures { result ≡ bare keys (says self) }
    {
        self.mask == 0
    }

    // A null for each key in force that the set lacks.
    pub fn unset_missing(self, force: Attrs) -> Attrs
        ensures { result ≡ onto self (completed (says self) (env_of force)) }
    {
        let mut out = self;
        for key in KeyWalk::over(force.mask) {
            if force.get(key) != 0 && bit_at(self.mask, key) == 0 {
                out = out.put(key, 0);
            }
        }
        out
    }

    // The keys whose value is not the one in force, with the values of `from`.
    fn changed(self, force: Attrs, from: Attrs) -> Attrs
        ensures { result ≡ packed (changed (says self) (env_of force) (env_of from)) }
    {
        let mut out = Attrs::empty();
        for key in KeyWalk::over(self.mask) {
            if self.get(key) != force.get(key) {
                out = out.put(key, from.get(key));
            }
        }
        out
    }

    // What Open puts.
    pub fn differing(self, force: Attrs) -> Attrs
        ensures { result ≡ packed (opened (says self) (env_of force)) }
    {
        self.changed(force, self)
    }

    // What Open remembers.
    pub fn remembered(self, force: Attrs) -> Attrs
        ensures { result ≡ packed (former (says self) (env_of force)) }
    {
        self.changed(force, force)
    }

    // The same slot at each key. A derived `==` would read the bytes of absent keys too.
    pub fn same(self, other: Attrs) -> bool
        ensures { result ≡ same_sets keys (says self) (says other) }
    {
        if self.mask != other.mask {
            return false;
        }
        self.differing(other).is_empty()
    }
}
