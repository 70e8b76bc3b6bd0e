//! The entry of a listed file by its bytes.

ghost use Rattle.std.specs.Prelude.{◌≡◌, ◌<◌, length, true};
ghost use Rattle.bisync_device.specs.Faults.{HasCause};
ghost use Rattle.bisync_observe.specs.FileReading.{OnlyReads, ReadsFile, Streams, is_failed_read};

use crate::tallies::Tally;
use bisync_device::{Failed, Remote};
use bisync_text::Path;
use bisync_tree::Entry;

/// Why a file has no entry.
#[derive(Clone, Copy, Debug, PartialEq, Eq)]
pub enum ReadFault {
    /// A call failed.
    Failed,
    /// What was read differs in size from what was listed.
    Moved(Option<Entry>),
}

/// Opens a file, and reads it to its end.
pub fn read_file<R: Remote>(
    remote: &mut R,
    path: &Path,
    listed: &Entry,
    buffer: &mut [u8],
) -> Result<Entry, ReadFault>
    requires room { 0 < length buffer.old }
    ensures only_reads { OnlyReads R.tells (R.state remote.old) (R.state remote.new) }
    ensures cause { HasCause (is_failed_read result) (R.state remote.old).faults (R.state remote.new).faults }
    ensures reads { ReadsFile R.tells (R.state remote.old).tree path.now listed.now result }
    ensures buffer { length buffer.new ≡ length buffer.old }
{
    match remote.open(path) {
        Ok(true) => read_opened(remote, listed, buffer),
        Ok(false) => Err(ReadFault::Moved(None)),
        Err(Failed) => Err(ReadFault::Failed),
    }
}

/// Reads what is open to its end, or past the listed size.
fn read_opened<R: Remote>(
    remote: &mut R,
    listed: &Entry,
    buffer: &mut [u8],
) -> Result<Entry, ReadFault>
    requires room { 0 < length buffer.old }
    requires opened { (R.state remote.old).reading.opened ≡ true }
    ensures only_reads { OnlyReads R.tells (R.state remote.old) (R.state remote.new) }
    ensures cause { HasCause (is_failed_read result) (R.state remote.old).faults (R.state remote.new).faults }
    ensures streams { Streams R.tells (R.state remote.old).reading.rest listed.now result }
    ensures buffer { length buffer.new ≡ length buffer.old }
{
    let size = listed.size;
    let mut tally = Tally::new();
    'pieces: loop {
        let count = match remote.read(buffer) {
            Ok(count) => count,
            Err(Failed) => return Err(ReadFault::Failed),
        };
        if count == 0 {
            let same = tally.size == size;
            return if same {
                Ok(tally.entry(listed))
            } else {
                Err(ReadFault::Moved(Some(tally.counted(listed))))
            };
        }
        if !tally.add(&buffer[..count]) {
            return Err(ReadFault::Moved(None));
        }
        if tally.size > size {
            return Err(ReadFault::Moved(Some(tally.counted(listed))));
        }
    }
}
