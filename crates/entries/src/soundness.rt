// Whether the slots in use are in order: kinds and lengths in range, no two entries equal.
ghost use Rattle.std.specs.Prelude.{◌≡◌, ◌+◌, ◌<◌, ◌≤◌};
ghost use Rattle.entries.specs.Entry.{entry_at, entries, among};
ghost use Rattle.entries.specs.Order.{fits as fits_of, fits_at, all_fit, distinct as distinct_of, shelf_sound};

use crate::kinds::Kind;
use crate::slots::{BYTES, SLOT, content, find, kind_at};

#[tactic(auto, unfolding(crate::specs::Order::fits))]
fn fits(kind: u8, n: u8, first: u8) -> bool
    ensures { result ≡ fits_of kind n first }
{
    match Kind::try_from(kind) {
        Ok(Kind::Name) => n != 0 && n <= 32,
        Ok(Kind::Bool) => n == 1 && first <= 1,
        Ok(Kind::Int) => n == 8,
        Ok(Kind::String) => n <= 32,
        Err(_) => false,
    }
}

#[tactic(auto, unfolding(crate::specs::Order::fits_at))]
fn slot_fits(table: &[u8; BYTES], slot: usize) -> bool
    requires { slot < 271 }
    ensures { result ≡ fits_at table.now slot }
{
    let at = slot * SLOT;
    let kind = table[at + 1];
    let is_name = kind == u8::from(Kind::Name);
    is_name == (slot < 16) && fits(kind, table[at], table[at + 2])
}

// `all` in place of the loop was tried: the goal that what it tells of each slot makes up `all_fit` stayed open.
fn all_fit(table: &[u8; BYTES], from: usize, count: usize) -> bool
    requires { from + count ≤ 271 }
    ensures { result ≡ all_fit table.now from count }
{
    for i in 0..count {
        if !slot_fits(table, from + i) {
            return false;
        }
    }
    true
}

// Whether the entry of a slot comes again in the slots behind it.
#[tactic(auto, unfolding(crate::specs::Entry::among, crate::specs::Entry::entry_at))]
fn repeats(table: &[u8; BYTES], slot: usize, behind: usize) -> bool
    requires { slot + 1 + behind ≤ 271 }
    ensures { result ≡ among (entry_at table.now slot) (entries table.now (slot + 1) behind) }
{
    let kind = kind_at(table, slot);
    find(table, slot + 1, behind, kind, content(table, slot)).is_some()
}

fn distinct(table: &[u8; BYTES], from: usize, count: usize) -> bool
    requires { from + count ≤ 271 }
    ensures { result ≡ distinct_of (entries table.now from count) }
{
    for i in 0..count {
        if repeats(table, from + i, count - i - 1) {
            return false;
        }
    }
    true
}

#[tactic(auto, unfolding(crate::specs::Order::shelf_sound))]
pub fn shelf_sound(table: &[u8; BYTES], from: usize, count: usize, most: usize) -> bool
    requires { from + most ≤ 271 }
    ensures { result ≡ shelf_sound table.now from count most }
{
    count <= most && all_fit(table, from, count) && distinct(table, from, count)
}
