// Slots of the lent bytes: an entry is read, compared, looked for and written here, for names and values alike.
// A kind is a byte here, since an unsound table may hold bytes that are no kind. The bounds of slots stand in each contract: a type
// `Slot` with a ghost bound would have to be made anew, and proved, at each sum of a first slot and an index.
ghost use Rattle.std.specs.Prelude.{◌≡◌, ◌∷◌, ◌+◌, ◌<◌, ◌≤◌, length, true, false, MatchOption};
ghost use Rattle.entries.specs.Entry.{kind_at, content_at, entry_at, entries, same_bytes, seek, put_at};

use copying::copy;

pub const SLOT: usize = 34;

// 16 slots for names and 255 for values.
pub const BYTES: usize = 9214;

pub fn kind_at(table: &[u8; BYTES], slot: usize) -> u8
    requires { slot < 271 }
    ensures { result ≡ kind_at table.now slot }
{
    table[slot * SLOT + 1]
}

// The content of a slot, where it lies. A length byte counts for no more than a slot holds.
#[tactic(auto, unfolding(crate::specs::Entry::content_at))]
pub fn content(table: &[u8; BYTES], slot: usize) -> &[u8]
    requires { slot < 271 }
    ensures { result.now ≡ content_at table.now slot }
{
    let at = slot * SLOT;
    let n = usize::from(table[at]).min(32);
    &table[at + 2..at + 2 + n]
}

// Whether a slot's first byte alone tells its content from these bytes.
#[tactic(auto, using(crate::proofs::Entries::other_start))]
fn starts_otherwise(table: &[u8; BYTES], slot: usize, bytes: &[u8]) -> bool
    requires { slot < 271 }
    ensures { result ≡ true → same_bytes (content_at table.now slot) bytes.now ≡ false }
{
    !bytes.is_empty() && table[slot * SLOT + 2] != bytes[0]
}

// Whether a slot holds this entry. Most that it does not hold start otherwise, so that is looked at first.
#[tactic(auto, using(crate::proofs::Entries::same_is), unfolding(crate::specs::Entry::entry_at, crate::specs::Entry::same_bytes))]
fn same(table: &[u8; BYTES], slot: usize, kind: u8, bytes: &[u8]) -> bool
    requires { slot < 271 }
    ensures { result ≡ same_bytes (entry_at table.now slot) (kind ∷ bytes.now) }
{
    kind_at(table, slot) == kind
        && !starts_otherwise(table, slot, bytes)
        && content(table, slot) == bytes
}

// Which of the count slots from a slot on is the first that holds this entry.
pub fn find(table: &[u8; BYTES], from: usize, count: usize, kind: u8, bytes: &[u8]) -> Option<usize>
    requires { from + count ≤ 271 }
    ensures { MatchOption result (seek (kind ∷ bytes.now) (entries table.now from count) ≡ count) (λ i. (i < count) × (seek (kind ∷ bytes.now) (entries table.now from count) ≡ i)) }
{
    for i in 0..count {
        if same(table, from + i, kind, bytes) {
            return Some(i);
        }
    }
    None
}

// Writes an entry into a slot.
pub fn put(table: &mut [u8; BYTES], slot: usize, kind: u8, bytes: &[u8])
    requires { (slot < 271) × (length bytes.now ≤ 32) }
    ensures { table.new ≡ put_at table.old slot kind bytes.now }
{
    let at = slot * SLOT;
    table[at] = bytes.len() as u8;
    table[at + 1] = kind;
    copy(&mut table[at + 2..at + 2 + bytes.len()], bytes);
}
