//! A listing text that comes in pieces.

ghost use Rattle.std.specs.Prelude.{◌≡◌, ◌++◌, [], IfOk, IfErr, IfSome, OnOk};
ghost use Rattle.bisync_listing.specs.ListingText.{IsListingText};
ghost use Rattle.bisync_listing.specs.Answers.{IsFault, IsSettledFault, IsGoodSoFar};

use crate::progress::Progress;
use crate::{Header, ListingFault};
use bisync_text::OutOfMemory;
use bisync_tree::{Limits, Listing};
use std::alloc::Global;
use std::marker::Model;

/// Reads a listing text in pieces. It holds at most one line of it.
#[derive(Drop)]
pub struct ListingReader {
    progress: Progress,
}

impl Model for ListingReader {
    ghost use Rattle.bisync_listing.specs.Answers.{Reading};

    ghost Value = { Reading };

    ghost use Rattle.bisync_listing.specs.Progress.{reading_of, IsSound};

    ghost view = { λ reader. reading_of reader.progress };

    ghost invariant = { λ reader. IsSound reader.progress };
}

impl ListingReader {
    /// A reader of no text yet. Memory for one line is taken here.
    pub fn new(alloc: Global, limits: &Limits) -> Result<ListingReader, OutOfMemory>
        ensures { IfOk result (λ reader. reader ≡ record { limit = limits.now.listing; text = []; fault = None }) }
    {
        Ok(ListingReader {
            progress: Progress::new(alloc, limits.listing)?,
        })
    }

    /// Takes the next piece of the text. The answer is `BadLine(n)` exactly where n is the first bad
    /// line of the text so far, and that line is ended by its newline, or has more than 16,483 bytes,
    /// or holds the first byte past the limit. A fault stays.
    pub fn feed(&mut self, piece: &[u8]) -> Result<(), ListingFault>
        ensures limit { self.new.limit ≡ self.old.limit }
        ensures ok { OnOk result ((self.old.fault ≡ None) × (self.new.fault ≡ None)
            × (self.new.text ≡ self.old.text ++ piece.now) × IsGoodSoFar self.old.limit (self.old.text ++ piece.now)) }
        ensures err { IfErr result (λ fault. self.new.fault ≡ Some fault) }
        ensures new_fault { IfErr result (λ fault. self.old.fault ≡ None → IsSettledFault self.old.limit (self.old.text ++ piece.now) fault) }
        ensures old_fault { IfSome self.old.fault (λ fault. result ≡ Err fault) }
    {
        if let Some(fault) = self.progress.fault {
            return Err(fault);
        }
        self.progress.take(piece)
    }

    /// The header and the listing, where the text so far is a listing text within the limit, or else
    /// its first bad line. A fault stays.
    pub fn end(self) -> Result<(Header, Listing), ListingFault>
        ensures ok { IfOk result (λ x. (self.fault ≡ None) × IsListingText self.limit x.0 x.1 self.text) }
        ensures err { IfErr result (λ fault. self.fault ≡ None → IsFault self.limit self.text fault) }
        ensures old_fault { IfSome self.fault (λ fault. result ≡ Err fault) }
    {
        if let Some(fault) = self.progress.fault {
            return Err(fault);
        }
        self.progress.finish()
    }
}
