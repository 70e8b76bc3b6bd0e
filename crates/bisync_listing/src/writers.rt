//! A listing text that is given in pieces.

ghost use Rattle.std.specs.Prelude.{◌≡◌, ◌<◌, ◌≤◌, ◌↔◌, ℕ, [], ◌++◌, length, take};
ghost use Rattle.bisync_listing.specs.Spelling.{listing_text};

use crate::Header;
use crate::listed_rows::see_rows;
use crate::pending::Pending;
use bisync_tree::Listing;
use std::marker::Model;

/// Writes a listing text in pieces. It holds at most one line of it, and takes no memory.
#[derive(Drop)]
pub struct ListingWriter<'a> {
    pending: Pending<'a>,
}

impl<'a> Model for ListingWriter<'a> {
    ghost use Rattle.std.specs.Prelude.{List, ℕ};

    ghost Value = { List ℕ };

    ghost use Rattle.bisync_listing.specs.Writing.{to_come, IsWriting};

    ghost view = { λ writer. to_come writer.pending };

    ghost invariant = { λ writer. IsWriting writer.pending };
}

impl<'a> ListingWriter<'a> {
    ghost use Rattle.bisync_listing.specs.ListingText.{IsListingText};
    ghost use Rattle.bisync_listing.specs.Writing.{MayBeWritten};

    /// A writer of the text of the header and the listing, all of which is still to come. The text is
    /// read again under each limit that it does not pass.
    pub fn new(header: &'a Header, listing: &'a Listing) -> ListingWriter<'a>
        requires { MayBeWritten header.now listing.now }
        ensures text { result ≡ listing_text header.now listing.now }
        ensures read_again { (limit : ℕ) → length (listing_text header.now listing.now) ≤ limit
            → IsListingText limit header.now listing.now (listing_text header.now listing.now) }
    {
        see_rows(listing);
        ListingWriter {
            pending: Pending::new(header, listing),
        }
    }

    /// Puts the next bytes of the text at the front of the buffer, as many as it has room for, and
    /// answers their number: 0 exactly where all bytes were given.
    pub fn fill(&mut self, buffer: &mut [u8]) -> usize
        requires { 0 < length buffer.old }
        ensures within { result ≤ length buffer.old }
        ensures given { self.old ≡ take result buffer.new ++ self.new }
        ensures none { (result ≡ 0) ↔ (self.old ≡ []) }
        ensures full { result < length buffer.old → self.new ≡ [] }
    {
        self.pending.fill(buffer)
    }
}
