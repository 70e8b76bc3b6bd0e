//! A listing text as a whole.

ghost use Rattle.std.specs.Prelude.{◌≡◌, ℕ, ◌≤◌, ◌-◌, ◌^◌, length, min, IfOk, IfErr};
ghost use Rattle.bisync_listing.specs.Spelling.{listing_text};
ghost use Rattle.bisync_listing.specs.ListingText.{IsListingText};
ghost use Rattle.bisync_listing.specs.Answers.{IsFault};
ghost use Rattle.bisync_listing.specs.Writing.{MayBeWritten};

use crate::{Header, ListingFault, ListingReader, ListingWriter};
use bisync_text::{OutOfMemory, Text};
use bisync_tree::{Limits, Listing};
use std::alloc::Global;

const BUFFER: usize = 4096;

/// The header and the listing of a listing text within the limit, or its first bad line.
pub fn read_listing(
    alloc: Global,
    text: &[u8],
    limits: &Limits,
) -> Result<(Header, Listing), ListingFault>
    ensures ok { IfOk result (λ x. IsListingText limits.now.listing x.0 x.1 text.now) }
    ensures err { IfErr result (λ fault. IsFault limits.now.listing text.now fault) }
{
    let mut reader = ListingReader::new(alloc, limits)?;
    reader.feed(text)?;
    reader.end()
}

/// The text of a header and a listing, in version 2. Its length isn't tested against a limit, and it
/// is read again under each limit that it does not pass.
pub fn write_listing(alloc: Global, header: &Header, listing: &Listing) -> Result<Text, OutOfMemory>
    requires { MayBeWritten header.now listing.now }
    ensures text { IfOk result (λ text. text ≡ listing_text header.now listing.now) }
    ensures read_again { (limit : ℕ) → length (listing_text header.now listing.now) ≤ limit
        → IsListingText limit header.now listing.now (listing_text header.now listing.now) }
{
    let mut writer = ListingWriter::new(header, listing);
    let mut text = Vec::new(alloc);
    let mut buffer = [0u8; BUFFER];
    'pieces: loop {
        let count = writer.fill(&mut buffer);
        if count == 0 {
            return Ok(Text::from_vec(text));
        }
        text.extend_from_slice(&buffer[..count])?;
    }
}

/// The length of the text of a header and a listing in bytes, or the greatest `u64` where it is
/// above that. It takes no memory. The text is read again under each limit that it does not pass.
pub fn text_len(header: &Header, listing: &Listing) -> u64
    requires { MayBeWritten header.now listing.now }
    ensures len { result ≡ min (length (listing_text header.now listing.now)) (2 ^ 64 - 1) }
    ensures read_again { (limit : ℕ) → length (listing_text header.now listing.now) ≤ limit
        → IsListingText limit header.now listing.now (listing_text header.now listing.now) }
{
    let mut writer = ListingWriter::new(header, listing);
    let mut buffer = [0u8; BUFFER];
    let mut len: u64 = 0;
    'pieces: loop {
        let count = writer.fill(&mut buffer);
        if count == 0 {
            return len;
        }
        len = len.saturating_add(count as u64);
    }
}
