// Input that is read in parts of any length, and handed out by lines. The bytes of the lent buffer from `start` up to `end` wait.
ghost use Rattle.std.specs.Prelude.{◌≡◌, ◌≤◌, length};
ghost use Rattle.words.specs.Input.{waiting, line_of, Moved};

use crate::words::{Class, span};

// Where the newline stands behind the first line that waits, counted from its start; none where no newline is there yet.
#[tactic(auto, unfolding(crate::specs::Input::line_of))]
pub fn first_line(buf: &[u8], start: usize, end: usize) -> Option<usize>
    requires start_le_end { start ≤ end }
    requires end_in_bounds { end ≤ length buf.now }
    ensures { result ≡ line_of (waiting buf.now start end) }
{
    let part = &buf[start..end];
    let e = span(part, 0, Class::Line);
    (e < part.len()).then_some(e)
}

// What waits goes to the front, so that there is room for the next part.
pub fn to_front(buf: &mut [u8], start: usize, end: usize) -> usize
    requires start_le_end { start ≤ end }
    requires end_in_bounds { end ≤ length buf.old }
    ensures { Moved buf.old buf.new start end result }
{
    buf.copy_within(start..end, 0);
    end - start
}
