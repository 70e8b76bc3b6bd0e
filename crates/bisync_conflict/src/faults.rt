ghost use Rattle.std.specs.Prelude.{◌≡◌};

use bisync_text::{OutOfMemory, Path};
use bisync_tree::Side;
use std::alloc::{AllocError, AllocFailed};

/// Why a run has no names for its losers.
#[derive(Drop)]
pub enum NameFault {
    /// The name of this side's file at this path would have more than 4,096 bytes.
    TooLong(Side, Path),
    /// Memory was refused.
    OutOfMemory,
}

impl From<OutOfMemory> for NameFault {
    ghost use Rattle.bisync_conflict.specs.declared.faults.NameFault.TheVariants.{OutOfMemory};

    ghost from_gives = { λ _ fault. fault ≡ OutOfMemory };

    fn from(_: OutOfMemory) -> Self {
        NameFault::OutOfMemory
    }
}

impl From<AllocError> for NameFault {
    ghost use Rattle.bisync_conflict.specs.declared.faults.NameFault.TheVariants.{OutOfMemory};

    ghost from_gives = { λ _ fault. fault ≡ OutOfMemory };

    fn from(_: AllocError) -> Self {
        NameFault::OutOfMemory
    }
}

impl<T: Drop> From<AllocFailed<T>> for NameFault {
    ghost use Rattle.bisync_conflict.specs.declared.faults.NameFault.TheVariants.{OutOfMemory};

    ghost from_gives = { λ _ fault. fault ≡ OutOfMemory };

    fn from(_: AllocFailed<T>) -> Self {
        NameFault::OutOfMemory
    }
}
