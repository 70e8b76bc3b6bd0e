ghost use Rattle.std.specs.Prelude.{◌≡◌, ◌+◌, ◌<◌, [], length, true, IsTrue};
ghost use Rattle.bisync_device.specs.Remote.{KeepsTree};
ghost use Rattle.bisync_transfer.specs.CallsMade.{MadeCalls};
ghost use Rattle.bisync_transfer.specs.FileCopy.{CopyEffect, ReadsAtMost, Streams, is_source, is_destination};

use crate::tallies::Tally;
use bisync_device::{Failed, Remote};
use bisync_text::Path;
use bisync_tree::Entry;

/// Why a copy wasn't made, or may not have been.
#[derive(Clone, Copy, Debug, PartialEq, Eq)]
pub enum CopyFault {
    /// A call of the source failed.
    Source,
    /// A call of the destination failed.
    Destination,
    /// The file isn't as it was listed.
    Moved(Option<Entry>),
}

/// Copies a file as it was listed, from one remote to another.
pub fn copy_file<A: Remote, B: Remote>(
    path: &Path,
    listed: &Entry,
    from: &mut A,
    to: &mut B,
    buffer: &mut [u8],
) -> Result<(), CopyFault>
    requires { 0 < length buffer.old }
    ensures source { MadeCalls (is_source result) (A.state from.old) (A.state from.new) }
    ensures destination { MadeCalls (is_destination result) (B.state to.old) (B.state to.new) }
    ensures kept { KeepsTree A.tells (A.state from.old) (A.state from.new) }
    ensures effect { CopyEffect A.tells B.tells path.now listed.now
        (A.state from.old) (B.state to.old) (B.state to.new) result }
    ensures limit { ReadsAtMost (listed.now.size + length buffer.old) result }
{
    match from.open(path) {
        Ok(true) => {}
        Ok(false) => return Err(CopyFault::Moved(None)),
        Err(Failed) => return Err(CopyFault::Source),
    }
    match to.begin() {
        Ok(()) => {}
        Err(Failed) => return Err(CopyFault::Destination),
    }
    let read = match stream(listed, from, to, buffer) {
        Ok(read) => read,
        Err(fault) => return Err(fault),
    };
    if read.size != listed.size || read.hash != listed.hash {
        return Err(CopyFault::Moved(Some(read)));
    }
    match to.commit(path, listed.time) {
        Ok(()) => Ok(()),
        Err(Failed) => Err(CopyFault::Destination),
    }
}

/// Reads a file to its end, and adds each piece to the part. Ends right after a read that goes past
/// the listed size.
fn stream<A: Remote, B: Remote>(
    listed: &Entry,
    from: &mut A,
    to: &mut B,
    buffer: &mut [u8],
) -> Result<Entry, CopyFault>
    requires room { 0 < length buffer.old }
    requires opened { (A.state from.old).reading.opened ≡ true }
    requires begun { (B.state to.old).begun ≡ true }
    requires part { IsTrue B.tells → (B.state to.old).part ≡ [] }
    ensures source { MadeCalls (is_source result) (A.state from.old) (A.state from.new) }
    ensures destination { MadeCalls (is_destination result) (B.state to.old) (B.state to.new) }
    ensures source_tree { KeepsTree A.tells (A.state from.old) (A.state from.new) }
    ensures destination_tree { KeepsTree B.tells (B.state to.old) (B.state to.new) }
    ensures streams { Streams A.tells B.tells listed.now
        (A.state from.old) (B.state to.old) (B.state to.new) result }
    ensures limit { ReadsAtMost (listed.now.size + length buffer.old) result }
{
    let size = listed.size;
    let mut tally = Tally::new(listed);
    'pieces: loop {
        let count = match from.read(buffer) {
            Ok(count) => count,
            Err(Failed) => return Err(CopyFault::Source),
        };
        if count == 0 {
            return Ok(tally.entry(listed));
        }
        let piece = &buffer[..count];
        if !tally.add(piece) {
            return Err(CopyFault::Moved(None));
        }
        if tally.size > size {
            return Err(CopyFault::Moved(Some(tally.entry(listed))));
        }
        match to.append(piece) {
            Ok(()) => {}
            Err(Failed) => return Err(CopyFault::Destination),
        }
    }
}
