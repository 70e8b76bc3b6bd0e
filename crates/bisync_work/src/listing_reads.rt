//! What stands under a name of a work folder, read in pieces.

ghost use Rattle.std.specs.Prelude.{◌≡◌, ◌+◌, ◌<◌, ◌≤◌, ◌^◌, ◌⊎◌, ◌++◌, [], length, true, None, IsTrue, IfOk, IfErr, OnOk};
ghost use Rattle.bisync_listing.specs.ListingText.{IsHeader, AreListed, IsListingText};
ghost use Rattle.bisync_listing.specs.Answers.{IsGoodSoFar};
ghost use Rattle.bisync_device.specs.WorkFolder.{at};
ghost use Rattle.bisync_device.specs.Work.{KeepsFolder};
ghost use Rattle.bisync_work.specs.WorkCalls.{AreWorkCalls, is_device_fault};
ghost use Rattle.bisync_work.specs.Standing.{IsStanding, IsListedWell, IsReadFault, is_read_failure, read_fault};

use crate::WorkFault;
use bisync_device::{Failed, Work, WorkName};
use bisync_listing::{Header, ListingFault, ListingReader};
use bisync_tree::{Limits, Listing};
use std::alloc::Global;

const PIECE: usize = 4096;

/// What stands under a name: nothing, a listing with its header, or a text whose first bad line is
/// this.
#[derive(Drop)]
pub enum Standing {
    Absent,
    Listed(Header, Listing),
    Bad(u64),
}

/// Why an open name gave no listing.
#[derive(Clone, Copy)]
enum ReadFault {
    Failed,
    OutOfMemory,
    Bad(u64),
}

impl From<Failed> for ReadFault {
    ghost use Rattle.std.specs.Prelude.{◌≡◌};
    ghost use Rattle.bisync_work.specs.declared.listing_reads.ReadFault.TheVariants.{Failed as FailedFault};

    ghost from_gives = { λ _ fault. fault ≡ FailedFault };

    fn from(_: Failed) -> Self {
        ReadFault::Failed
    }
}

fn fault_of(fault: ListingFault) -> ReadFault
    ensures { result ≡ read_fault fault }
{
    match fault {
        ListingFault::BadLine(line) => ReadFault::Bad(line),
        ListingFault::OutOfMemory => ReadFault::OutOfMemory,
    }
}

/// Reads the next bytes into the buffer and feeds them to the reader. 0 only at the end.
fn feed_next<W: Work>(
    work: &mut W,
    reader: &mut ListingReader,
    buffer: &mut [u8],
) -> Result<usize, ReadFault>
    requires opened { (W.state work.old).reading.opened ≡ true }
    requires room { 0 < length buffer.old }
    requires clear { reader.old.fault ≡ None }
    ensures limit { reader.new.limit ≡ reader.old.limit }
    ensures fed { IfOk result (λ count. (count ≤ length buffer.old) × (length reader.new.text ≡ length reader.old.text + count)) }
    ensures good { OnOk result ((reader.new.fault ≡ None) × IsGoodSoFar reader.old.limit reader.new.text) }
    ensures opened { OnOk result ((W.state work.new).reading.opened ≡ true) }
    ensures text { IsTrue W.tells → OnOk result (reader.old.text ++ (W.state work.old).reading.rest ≡ reader.new.text ++ (W.state work.new).reading.rest) }
    ensures end { IsTrue W.tells → IfOk result (λ count. count ≡ 0 → (W.state work.new).reading.rest ≡ []) }
    ensures bad { IsTrue W.tells → reader.old.limit < 2 ^ 64 → IfErr result (IsReadFault reader.old.limit (reader.old.text ++ (W.state work.old).reading.rest)) }
    ensures folder { KeepsFolder W.tells (W.state work.old) (W.state work.new) }
    ensures writing { (W.state work.new).writing ≡ (W.state work.old).writing }
    ensures calls { AreWorkCalls (is_read_failure result) (W.state work.old) (W.state work.new) }
{
    let count = work.read(buffer)?;
    if let Err(fault) = reader.feed(&buffer[..count]) {
        return Err(fault_of(fault));
    }
    Ok(count)
}

/// Feeds the reader to the end of the open name, or to the first byte past the limit.
fn feed_all<W: Work>(work: &mut W, reader: &mut ListingReader, limit: u64) -> Result<(), ReadFault>
    requires opened { (W.state work.old).reading.opened ≡ true }
    requires new { reader.old ≡ record { limit = limit; text = []; fault = None } }
    ensures limit { reader.new.limit ≡ limit }
    ensures good { OnOk result ((reader.new.fault ≡ None) × IsGoodSoFar limit reader.new.text) }
    ensures text { IsTrue W.tells → OnOk result (((W.state work.old).reading.rest ≡ reader.new.text) ⊎ (limit < length reader.new.text)) }
    ensures bad { IsTrue W.tells → IfErr result (IsReadFault limit (W.state work.old).reading.rest) }
    ensures folder { KeepsFolder W.tells (W.state work.old) (W.state work.new) }
    ensures writing { (W.state work.new).writing ≡ (W.state work.old).writing }
    ensures calls { AreWorkCalls (is_read_failure result) (W.state work.old) (W.state work.new) }
{
    let mut buffer = [0u8; PIECE];
    let mut left = limit;
    while left > 0 {
        let room = left.min(PIECE as u64) as usize;
        let count = feed_next(work, reader, &mut buffer[..room])?;
        if count == 0 {
            return Ok(());
        }
        left -= count as u64;
    }
    feed_next(work, reader, &mut buffer[..1])?;
    Ok(())
}

/// Reads the open name.
fn read_open<W: Work>(
    alloc: Global,
    work: &mut W,
    limits: &Limits,
) -> Result<(Header, Listing), ReadFault>
    requires opened { (W.state work.old).reading.opened ≡ true }
    ensures listed { IfOk result (λ x. IsHeader x.0 × AreListed x.0 x.1) }
    ensures text { IsTrue W.tells → IfOk result (λ x. IsListingText limits.now.listing x.0 x.1 (W.state work.old).reading.rest) }
    ensures bad { IsTrue W.tells → IfErr result (IsReadFault limits.now.listing (W.state work.old).reading.rest) }
    ensures folder { KeepsFolder W.tells (W.state work.old) (W.state work.new) }
    ensures writing { (W.state work.new).writing ≡ (W.state work.old).writing }
    ensures calls { AreWorkCalls (is_read_failure result) (W.state work.old) (W.state work.new) }
{
    let Ok(mut reader) = ListingReader::new(alloc, limits) else {
        return Err(ReadFault::OutOfMemory);
    };
    feed_all(work, &mut reader, limits.listing)?;
    match reader.end() {
        Ok(listed) => Ok(listed),
        Err(fault) => Err(fault_of(fault)),
    }
}

/// Reads what stands under a name.
pub fn read_name<W: Work>(
    alloc: Global,
    work: &mut W,
    name: WorkName,
    limits: &Limits,
) -> Result<Standing, WorkFault>
    ensures listed { IfOk result IsListedWell }
    ensures standing { IsTrue W.tells → IfOk result (IsStanding limits.now.listing (at (W.state work.old).folder name)) }
    ensures folder { KeepsFolder W.tells (W.state work.old) (W.state work.new) }
    ensures writing { (W.state work.new).writing ≡ (W.state work.old).writing }
    ensures calls { AreWorkCalls (is_device_fault result) (W.state work.old) (W.state work.new) }
{
    if !work.open(name)? {
        return Ok(Standing::Absent);
    }
    match read_open(alloc, work, limits) {
        Ok((header, rows)) => Ok(Standing::Listed(header, rows)),
        Err(ReadFault::Bad(line)) => Ok(Standing::Bad(line)),
        Err(ReadFault::Failed) => Err(WorkFault::Failed),
        Err(ReadFault::OutOfMemory) => Err(WorkFault::OutOfMemory),
    }
}
