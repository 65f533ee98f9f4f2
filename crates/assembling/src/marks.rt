// What a mark does: to the pending attributes, to those in force, and to the run.
ghost use Rattle.std.specs.Prelude.{◌≡◌, true, false, cond};
ghost use Rattle.sets.specs.Sets.{absent, is};
ghost use Rattle.attrs.specs.Packed.{says, env_of};
ghost use Rattle.rules.specs.Event.{change};
ghost use Rattle.layout.specs.Word.{what_of};
ghost use Rattle.layout.specs.Force.{mark_on};
ghost use Rattle.assembling.specs.Steps.{pending_of, breaks_by, changed_by, mark_turn};

use crate::assembler::Assembler;
use crate::runs::{Kind, Run, Sight, Turn};
use attrs::Attrs;
use layout::force::passed;
use layout::word::Content;

// What a mark makes of its key's pending attribute.
#[derive(Clone, Copy)]
pub enum Pending {
    Stays,
    Drops,
    Takes(u32),
}

// An added mark: no attribute is pending where the old value comes back.
fn pending_added(old: u32, current: u32, value: u32) -> Pending
    ensures { result ≡ pending_of (change false true old current absent value) }
{
    if current == value && value != 0 {
        Pending::Stays
    } else if old == value {
        Pending::Drops
    } else {
        Pending::Takes(value)
    }
}

// A mark that stays, under a pending attribute: null is no value.
fn pending_kept(held: u32, value: u32) -> Pending
    ensures { result ≡ pending_of (change true true 0 0 (is held) value) }
{
    if held == value {
        Pending::Stays
    } else if value == 0 {
        Pending::Drops
    } else {
        Pending::Takes(value)
    }
}

// A mark that went: what is in force without it is pending.
fn pending_gone(current: u32, value: u32) -> Pending
    ensures { result ≡ pending_of (change true false 0 current absent value) }
{
    if current == value {
        Pending::Stays
    } else {
        Pending::Takes(current)
    }
}

pub(crate) fn pending_of(a: Assembler, s: Sight, key: u32, value: u32) -> Pending
    ensures { result ≡ pending_of (change s.was s.is (env_of a.old key) (env_of a.current key) (says a.attrs key) value) }
{
    match (s.was, s.is) {
        (false, false) => Pending::Stays,
        (false, true) => pending_added(a.old.get(key), a.current.get(key), value),
        (true, false) => pending_gone(a.current.get(key), value),
        (true, true) => {
            if a.attrs.has(key) {
                pending_kept(a.attrs.get(key), value)
            } else {
                Pending::Stays
            }
        }
    }
}

// A changed attribute ends a Retain, any mark that stands now an Insert.
fn breaks(p: Pending, is: bool, run: Option<Run>) -> bool
    ensures { result ≡ breaks_by p is run }
{
    let Some(run) = run else { return false };
    match run.kind {
        Kind::Inserting => is,
        Kind::Deleting => false,
        Kind::Retaining => !matches!(p, Pending::Stays),
    }
}

pub(crate) fn changed(attrs: Attrs, p: Pending, key: u32) -> Attrs
    ensures { result ≡ changed_by attrs p key }
{
    match p {
        Pending::Stays => attrs,
        Pending::Drops => attrs.without(key),
        Pending::Takes(v) => attrs.with(key, v).unwrap_or(attrs),
    }
}

// What is in force past an item that is seen, or not.
pub(crate) fn past(force: Attrs, seen: bool, content: Content) -> Attrs
    ensures { result ≡ cond seen (mark_on force (what_of content)) force }
{
    if seen { passed(force, content) } else { force }
}

pub(crate) fn mark_turn(p: Pending, is: bool, run: Option<Run>) -> Turn
    ensures { result ≡ mark_turn p is run }
{
    if breaks(p, is, run) {
        Turn::Starts(None)
    } else {
        Turn::Goes(run)
    }
}
