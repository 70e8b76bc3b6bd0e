//! How far a reader has come.

ghost use Rattle.std.specs.Prelude.{◌≡◌, ℕ, ◌+◌, ◌*◌, ◌<◌, ◌≤◌, ◌^◌, ◌↔◌, [], ◌∷◌, ◌++◌, length, None, IsTrue, IfOk, IfErr, OnOk};
ghost use Rattle.bisync_tree.specs.Rows.{PathBytes, Rows, keys, IsAboveLast};
ghost use Rattle.bisync_tree.specs.declared.entries.Entry.{Entry};
ghost use Rattle.bisync_listing.specs.Words.{Lacks};
ghost use Rattle.bisync_listing.specs.Spelling.{file_line};
ghost use Rattle.bisync_listing.specs.ListingText.{HasDigestFor, IsListed, IsListingText};
ghost use Rattle.bisync_listing.specs.declared.faults.ListingFault.{ListingFault};
ghost use Rattle.bisync_listing.specs.declared.faults.ListingFault.TheVariants.{BadLine};

use crate::file_lines::read_row;
use crate::lines::{Line, MAX_LINE, newline_in};
use crate::marked_lines::{read_end, read_header};
use crate::{Header, ListingFault};
use bisync_text::{OutOfMemory, Path};
use bisync_tree::{Entry, Listing};
use std::alloc::Global;

/// Which line comes next.
#[derive(Clone, Copy)]
pub(crate) enum Place {
    /// The first line.
    Start,
    /// A file line, or in version 2 the end line.
    Open,
    /// None: the end line was there.
    Closed,
}

/// What a reader knows of the text so far.
#[derive(Drop)]
pub(crate) struct Progress {
    pub alloc: Global,
    pub limit: u64,
    pub used: u64,
    pub lines: u64,
    pub place: Place,
    pub header: Header,
    pub rows: Listing,
    pub line: Line,
    pub fault: Option<ListingFault>,
}

// Whether an entry has a digest where a listing with that header wants one.
fn has_digest_for(header: &Header, entry: &Entry) -> bool
    ensures { IsTrue result ↔ HasDigestFor header.now.fields entry.now }
{
    match header.fields {
        None => true,
        Some(fields) => fields.hash == entry.hash.is_some(),
    }
}

impl Progress {
    ghost use Rattle.bisync_listing.specs.Progress.{IsReading, IsSound, Takes, IsWhole, IsUnended, text_so_far};

    /// No text yet, of at most that many bytes.
    pub fn new(alloc: Global, limit: u64) -> Result<Progress, OutOfMemory>
        ensures { IfOk result (λ p. IsReading p × (p.fault ≡ None) × (text_so_far p ≡ []) × (p.limit ≡ limit)) }
    {
        Ok(Progress {
            alloc,
            limit,
            used: 0,
            lines: 0,
            place: Place::Start,
            header: Header {
                stamp: 1,
                fields: None,
            },
            rows: Listing::new(alloc),
            line: Line::new(alloc)?,
            fault: None,
        })
    }

    fn fail(&mut self, fault: ListingFault) -> Result<(), ListingFault>
        ensures err { result ≡ Err fault }
        ensures kept { self.new ≡ record self.old { fault = Some fault } }
    {
        self.fault = Some(fault);
        Err(fault)
    }

    // The line that comes next, or that the reader is in, is bad.
    fn bad(&mut self) -> Result<(), ListingFault>
        requires { self.old.lines + 1 < 2 ^ 64 }
        ensures err { result ≡ Err (BadLine (self.old.lines + 1)) }
        ensures kept { self.new ≡ record self.old { fault = Some (BadLine (self.old.lines + 1)) } }
    {
        self.fail(ListingFault::BadLine(self.lines + 1))
    }

    // Begins the next line.
    fn next_line(&mut self)
        requires lines { self.old.lines + 1 < 2 ^ 64 }
        requires used { self.old.used + 1 < 2 ^ 64 }
        ensures { self.new ≡ record self.old { line = []; lines = self.old.lines + 1; used = self.old.used + 1 } }
    {
        self.line.clear();
        self.lines += 1;
        self.used += 1;
    }

    // The first line is ended.
    fn end_first(&mut self) -> Result<(), ListingFault>
        requires sound { IsReading self.old }
        requires clear { self.old.fault ≡ None }
        requires room { self.old.used < self.old.limit }
        requires place { self.old.place ≡ Place.Start }
        ensures sound { IsSound self.new }
        ensures limit { self.new.limit ≡ self.old.limit }
        ensures takes { Takes self.old (10 ∷ []) result self.new }
    {
        let Some(header) = read_header(self.line.as_bytes()) else {
            return self.bad();
        };
        self.header = header;
        self.place = Place::Open;
        self.next_line();
        Ok(())
    }

    // A line after the first is ended.
    fn end_other(&mut self) -> Result<(), ListingFault>
        requires sound { IsReading self.old }
        requires clear { self.old.fault ≡ None }
        requires room { self.old.used < self.old.limit }
        requires place { self.old.place ≡ Place.Open }
        ensures sound { IsSound self.new }
        ensures limit { self.new.limit ≡ self.old.limit }
        ensures takes { Takes self.old (10 ∷ []) result self.new }
    {
        match read_row(self.alloc, self.line.as_bytes()) {
            Err(OutOfMemory) => self.fail(ListingFault::OutOfMemory),
            Ok(Some((path, entry))) => self.end_row(path, entry),
            Ok(None) => self.end_last(),
        }
    }

    // Whether the file may be the next one.
    fn may_follow(&self, path: &Path, entry: &Entry) -> bool
        ensures { IsTrue result ↔ (HasDigestFor self.now.header.fields entry.now × IsAboveLast (keys self.now.rows) path.now) }
    {
        has_digest_for(&self.header, entry) && self.rows.may_push(path)
    }

    // A file line is ended.
    fn end_row(&mut self, path: Path, entry: Entry) -> Result<(), ListingFault>
        requires sound { IsReading self.old }
        requires clear { self.old.fault ≡ None }
        requires room { self.old.used < self.old.limit }
        requires place { self.old.place ≡ Place.Open }
        requires row { IsListed (path, entry) }
        requires line { self.old.line ≡ file_line (path, entry) }
        ensures sound { IsSound self.new }
        ensures limit { self.new.limit ≡ self.old.limit }
        ensures takes { Takes self.old (10 ∷ []) result self.new }
    {
        if !self.may_follow(&path, &entry) {
            return self.bad();
        }
        if self.rows.push(path, entry).is_err() {
            return self.fail(ListingFault::OutOfMemory);
        }
        self.next_line();
        Ok(())
    }

    // A line that isn't that of a file is ended.
    fn end_last(&mut self) -> Result<(), ListingFault>
        requires sound { IsReading self.old }
        requires clear { self.old.fault ≡ None }
        requires room { self.old.used < self.old.limit }
        requires place { self.old.place ≡ Place.Open }
        requires line { (row : PathBytes × Entry) → IsListed row → self.old.line ≡ file_line row → ⊥ }
        ensures sound { IsSound self.new }
        ensures limit { self.new.limit ≡ self.old.limit }
        ensures takes { Takes self.old (10 ∷ []) result self.new }
    {
        if self.header.fields.is_none() {
            return self.bad();
        }
        if read_end(self.line.as_bytes()) != Some(self.rows.len() as u64) {
            return self.bad();
        }
        self.place = Place::Closed;
        self.next_line();
        Ok(())
    }

    // Adds bytes without a newline.
    fn add(&mut self, bytes: &[u8]) -> Result<(), ListingFault>
        requires sound { IsReading self.old }
        requires clear { self.old.fault ≡ None }
        requires one { Lacks 10 bytes.now }
        ensures sound { IsSound self.new }
        ensures limit { self.new.limit ≡ self.old.limit }
        ensures takes { Takes self.old bytes.now result self.new }
    {
        if bytes.len() > MAX_LINE - self.line.len() {
            return self.bad();
        }
        if bytes.len() as u64 > self.limit - self.used {
            return self.bad();
        }
        if self.line.push_all(bytes).is_err() {
            return self.fail(ListingFault::OutOfMemory);
        }
        self.used += bytes.len() as u64;
        Ok(())
    }

    // The line is ended.
    fn newline(&mut self) -> Result<(), ListingFault>
        requires sound { IsReading self.old }
        requires clear { self.old.fault ≡ None }
        ensures sound { IsSound self.new }
        ensures limit { self.new.limit ≡ self.old.limit }
        ensures takes { Takes self.old (10 ∷ []) result self.new }
    {
        if self.used == self.limit {
            return self.bad();
        }
        match self.place {
            Place::Start => self.end_first(),
            Place::Open => self.end_other(),
            Place::Closed => self.bad(),
        }
    }

    /// Takes a piece, where no fault was met.
    pub fn take(&mut self, piece: &[u8]) -> Result<(), ListingFault>
        requires sound { IsReading self.old }
        requires clear { self.old.fault ≡ None }
        ensures sound { IsSound self.new }
        ensures limit { self.new.limit ≡ self.old.limit }
        ensures takes { Takes self.old piece.now result self.new }
    {
        let mut rest = piece;
        while let Some(at) = newline_in(rest) {
            if let Err(fault) = self.add(&rest[..at]) {
                return Err(fault);
            }
            if let Err(fault) = self.newline() {
                return Err(fault);
            }
            rest = &rest[at + 1..];
        }
        self.add(rest)
    }

    // Whether a text may end where the last line ended.
    fn is_whole(&self) -> bool
        ensures { IsTrue result ↔ IsWhole self.now.place self.now.header }
    {
        match self.place {
            Place::Start => false,
            Place::Open => self.header.fields.is_none(),
            Place::Closed => true,
        }
    }

    /// The header and the listing, where the text may end and no fault was met.
    pub fn finish(self) -> Result<(Header, Listing), ListingFault>
        requires sound { IsReading self }
        ensures ok { IfOk result (λ x. IsListingText self.limit x.0 x.1 (text_so_far self)) }
        ensures err { IfErr result (λ fault. (fault ≡ BadLine (self.lines + 1)) × IsUnended self) }
    {
        if !self.is_whole() || !self.line.is_empty() {
            return Err(ListingFault::BadLine(self.lines + 1));
        }
        Ok((self.header, self.rows))
    }
}
