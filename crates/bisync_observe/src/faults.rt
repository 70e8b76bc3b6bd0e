ghost use Rattle.std.specs.Prelude.{◌≡◌};
ghost use Rattle.bisync_observe.specs.declared.faults.ObserveFault.TheVariants.{OutOfMemory};

use bisync_text::{OutOfMemory, Path, Text};
use bisync_tree::Entry;
use std::alloc::{AllocError, AllocFailed};

/// Why a remote wasn't seen.
#[derive(Drop)]
pub enum ObserveFault {
    /// A call of the remote failed, and its count of faults rose.
    RemoteFault,
    /// The first listed text that is no path.
    BadPath(Text),
    /// The number of files listed and the bytes of their names, or the greatest `u64` where these
    /// are more. One number is over its limit.
    TooMany(u64, u64),
    /// A passing path, what was listed of it and what was read. The listed entry has the listed
    /// size and time, and no digest. The entry read has another size, the number of bytes read, up
    /// to the piece that went past the listed size, with the listed time and no digest either. None
    /// is read where no file is there, or the bytes read are more than the greatest `u64`.
    Moved(Path, Entry, Option<Entry>),
    /// Memory was refused.
    OutOfMemory,
}

impl From<OutOfMemory> for ObserveFault {
    ghost from_gives = { λ _ fault. fault ≡ OutOfMemory };

    fn from(_: OutOfMemory) -> Self {
        ObserveFault::OutOfMemory
    }
}

impl From<AllocError> for ObserveFault {
    ghost from_gives = { λ _ fault. fault ≡ OutOfMemory };

    fn from(_: AllocError) -> Self {
        ObserveFault::OutOfMemory
    }
}

impl<T: Drop> From<AllocFailed<T>> for ObserveFault {
    ghost from_gives = { λ _ fault. fault ≡ OutOfMemory };

    fn from(_: AllocFailed<T>) -> Self {
        ObserveFault::OutOfMemory
    }
}
