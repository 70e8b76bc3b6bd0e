//! What of a listing text is still to come.

ghost use Rattle.std.specs.Prelude.{◌≡◌, ◌<◌, ◌≤◌, ◌↔◌, [], ◌++◌, length, take};
ghost use Rattle.bisync_listing.specs.Spelling.{listing_text};

use crate::Header;
use crate::line_buffers::LineBuffer;
use crate::written_lines::{put_end, put_file, put_header};
use bisync_tree::Listing;

/// The line that is being given, and the place of the next one.
#[derive(Drop)]
pub(crate) struct Pending<'a> {
    pub listing: &'a Listing,
    /// The next row.
    pub next: usize,
    /// Whether the end line was begun.
    pub ended: bool,
    pub line: LineBuffer,
    /// The bytes of the line that were given.
    pub given: usize,
}

impl<'a> Pending<'a> {
    ghost use Rattle.bisync_listing.specs.Writing.{MayBeWritten, IsWriting, to_come};

    /// All of the text.
    pub fn new(header: &Header, listing: &'a Listing) -> Pending<'a>
        requires { MayBeWritten header.now listing.now }
        ensures { IsWriting result × (to_come result ≡ listing_text header.now listing.now) }
    {
        let mut line = LineBuffer::new();
        if let Some(fields) = &header.fields {
            put_header(&mut line, header.stamp, fields);
        }
        Pending {
            listing,
            next: 0,
            ended: false,
            line,
            given: 0,
        }
    }

    // Takes the next line, where all of the one before was given.
    fn next_line(&mut self)
        requires { IsWriting self.old }
        ensures writing { IsWriting self.new }
        ensures same { to_come self.new ≡ to_come self.old }
        ensures more { self.new.given ≡ length self.new.line → to_come self.new ≡ [] }
    {
        if self.given < self.line.len() || self.ended {
            return;
        }
        let listing = self.listing;
        let next = self.next;
        self.line.clear();
        self.given = 0;
        if next < listing.len() {
            put_file(
                &mut self.line,
                listing.path_at(next),
                listing.entry_at(next),
            );
            self.next = next + 1;
        } else {
            put_end(&mut self.line, listing.len() as u64);
            self.ended = true;
        }
    }

    // Gives bytes of one line. There are none exactly where all bytes were given.
    fn give(&mut self, buffer: &mut [u8]) -> usize
        requires writing { IsWriting self.old }
        requires room { 0 < length buffer.old }
        ensures writing { IsWriting self.new }
        ensures within { result ≤ length buffer.old }
        ensures given { to_come self.old ≡ take result buffer.new ++ to_come self.new }
        ensures none { (result ≡ 0) ↔ (to_come self.old ≡ []) }
    {
        self.next_line();
        let left = &self.line.as_bytes()[self.given..];
        let count = left.len().min(buffer.len());
        buffer[..count].copy_from_slice(&left[..count]);
        self.given += count;
        count
    }

    /// Gives as many bytes as the buffer has room for.
    pub fn fill(&mut self, buffer: &mut [u8]) -> usize
        requires writing { IsWriting self.old }
        requires room { 0 < length buffer.old }
        ensures writing { IsWriting self.new }
        ensures within { result ≤ length buffer.old }
        ensures given { to_come self.old ≡ take result buffer.new ++ to_come self.new }
        ensures none { (result ≡ 0) ↔ (to_come self.old ≡ []) }
        ensures full { result < length buffer.old → to_come self.new ≡ [] }
    {
        let mut filled = self.give(buffer);
        if filled == 0 {
            return 0;
        }
        while filled < buffer.len() {
            let count = self.give(&mut buffer[filled..]);
            if count == 0 {
                break;
            }
            filled += count;
        }
        filled
    }
}
