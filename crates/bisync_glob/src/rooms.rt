ghost use Rattle.std.specs.Prelude.{◌≡◌, ◌+◌, ◌*◌, ◌≤◌, ◌↔◌, IsTrue, length};
ghost use Rattle.bisync_glob.specs.Matching.{Matches};

use crate::parts::Part;
use crate::subjects::MAX_CHARS;
use crate::tables::{has_after_slash, put_parts};

/// How many tables a match works with.
const TABLES: usize = 3;

/// Room for the work of a match, which any number of matches use, one after the other.
///
/// A match writes as much of it as the path is long, and takes no memory from an allocator.
#[derive(Drop)]
pub struct Room {
    cells: [bool; TABLES * (MAX_CHARS + 1)],
}

impl Room {
    /// Room for a path of any length.
    pub fn new() -> Room {
        Room {
            cells: [false; TABLES * (MAX_CHARS + 1)],
        }
    }

    /// Whether a pattern of these parts matches the text.
    pub(crate) fn is_matched(&mut self, anchored: bool, parts: &[Part], text: &[char]) -> bool
        requires { length text.now ≤ 4096 }
        ensures { IsTrue result ↔ Matches (record { anchored = anchored; parts = parts.now }) text.now }
    {
        let cells = &mut self.cells[..TABLES * (text.len() + 1)];
        is_matched(anchored, parts, text, cells)
    }
}

fn is_matched(anchored: bool, parts: &[Part], text: &[char], cells: &mut [bool]) -> bool
    requires { length cells.old ≡ 3 * (length text.now + 1) }
    ensures { IsTrue result ↔ Matches (record { anchored = anchored; parts = parts.now }) text.now }
{
    let size = text.len() + 1;
    let (table, rest) = cells.split_at_mut(size);
    let (work, union) = rest.split_at_mut(size);
    if !put_parts(parts, text, table, work, union) {
        return false;
    }
    table[0] || !anchored && has_after_slash(text, table)
}
