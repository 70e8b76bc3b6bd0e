//! Names and a listing from rows in order.

ghost use Rattle.std.specs.Prelude.{◌≡◌, None, IfOk, IfErr, length};
ghost use Rattle.bisync_device.specs.Faults.{HasCause};
ghost use Rattle.bisync_filter.specs.Passing.{rules_pass};
ghost use Rattle.bisync_observe.specs.FileReading.{OnlyReads, is_failed_read};
ghost use Rattle.bisync_observe.specs.Listed.{AreInOrder, HaveNoDigests};
ghost use Rattle.bisync_observe.specs.Observing.{is_remote_fault};
ghost use Rattle.bisync_observe.specs.Seeing.{IsSeen, IsWhyUnseen, IsEntryFor, IsWhyNoEntry, IsRoom};

use crate::file_reading::{ReadFault, read_file};
use crate::listed_rows::Row;
use crate::path_filters::PathFilter;
use crate::{ObserveFault, Seen};
use bisync_device::Remote;
use bisync_filter::Rules;
use bisync_text::{OutOfMemory, Path};
use bisync_tree::{Compare, Entry, Listing, Names};
use std::alloc::Global;

/// The bytes of a file are read in pieces of this length.
const PIECE: usize = 65_536;

/// The names of rows, and the listing of those that pass. Of two rows with one path the first counts.
pub fn see_rows<R: Remote>(
    alloc: Global,
    remote: &mut R,
    rules: &Rules,
    compare: &Compare,
    rows: Vec<Row>,
) -> Result<Seen, ObserveFault>
    requires ordered { AreInOrder rows.items }
    requires no_digests { HaveNoDigests rows.items }
    ensures only_reads { OnlyReads R.tells (R.state remote.old) (R.state remote.new) }
    ensures cause { HasCause (is_remote_fault result) (R.state remote.old).faults (R.state remote.new).faults }
    ensures seen { IfOk result (λ seen. IsSeen R.tells (R.state remote.old).tree compare.now.hash (rules_pass rules.now) rows.items seen.names seen.listing) }
    ensures unseen { IfErr result (λ fault. IsWhyUnseen R.tells (R.state remote.old).tree compare.now (rules_pass rules.now) rows.items fault) }
{
    let mut filter = PathFilter::new(rules);
    let mut bytes = read_buffer(alloc, compare.hash)?;
    let buffer = bytes.as_mut_slice();
    let mut names = Names::new(alloc);
    let mut listing = Listing::new(alloc);
    for (path, listed) in rows {
        if !names.may_push(&path) {
            continue;
        }
        if filter.passes(&path) {
            let entry = match entry(remote, &path, listed, compare.hash, buffer) {
                Ok(entry) => entry,
                Err(ReadFault::Failed) => return Err(ObserveFault::RemoteFault),
                Err(ReadFault::Moved(read)) => return Err(ObserveFault::Moved(path, listed, read)),
            };
            listing.push(path.copy(alloc)?, entry)?;
        }
        names.push(path)?;
    }
    Ok(Seen { names, listing })
}

/// A buffer to read files with, where they are read at all.
fn read_buffer(alloc: Global, reads: bool) -> Result<Vec<u8>, OutOfMemory>
    ensures { IfOk result (λ buffer. IsRoom reads buffer.items) }
{
    if reads {
        Ok(vec![in alloc; 0; PIECE]?)
    } else {
        Ok(Vec::new(alloc))
    }
}

/// The entry of a listed file: as it is listed, or by its bytes where digests are compared.
fn entry<R: Remote>(
    remote: &mut R,
    path: &Path,
    listed: Entry,
    hash: bool,
    buffer: &mut [u8],
) -> Result<Entry, ReadFault>
    requires room { IsRoom hash buffer.old }
    requires no_digest { listed.hash ≡ None }
    ensures only_reads { OnlyReads R.tells (R.state remote.old) (R.state remote.new) }
    ensures cause { HasCause (is_failed_read result) (R.state remote.old).faults (R.state remote.new).faults }
    ensures entry { IfOk result (λ entry. IsEntryFor R.tells (R.state remote.old).tree hash path.now listed entry) }
    ensures none { IfErr result (λ fault. IsWhyNoEntry R.tells (R.state remote.old).tree hash path.now listed fault) }
    ensures buffer { length buffer.new ≡ length buffer.old }
{
    if hash {
        read_file(remote, path, &listed, buffer)
    } else {
        Ok(listed)
    }
}
