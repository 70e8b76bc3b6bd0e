ghost use Rattle.std.specs.Prelude.{◌≡◌};
ghost use Rattle.bisync_opts.specs.declared.faults.OptFault.TheVariants as fault;

use bisync_text::OutOfMemory;
use std::alloc::{AllocError, AllocFailed};
use thiserror::Error;

/// Which text means nothing. The options are after rclone's manual page "bisync"; their spellings,
/// and the order in which they are judged, are this project's own.
#[derive(Clone, Copy, Debug, PartialEq, Eq)]
pub enum OptName {
    /// The first path.
    Path1,
    /// The second path.
    Path2,
    /// `--resync-mode`.
    ResyncMode,
    /// `--compare`.
    Compare,
    /// `--time-window`.
    TimeWindow,
    /// `--conflict-resolve`.
    ConflictResolve,
    /// `--conflict-loser`.
    ConflictLoser,
    /// `--conflict-suffix`.
    ConflictSuffix,
    /// `--max-delete`.
    MaxDelete,
    /// `--check-filename`.
    CheckFilename,
    /// `--check-sync`.
    CheckSync,
    /// `--filters-file`.
    FiltersFile,
    /// `--workdir`.
    Workdir,
    /// `--backup-dir1`.
    BackupDir1,
    /// `--backup-dir2`.
    BackupDir2,
    /// `--max-lock`.
    MaxLock,
    /// The number of files of the command `demo`.
    Number,
}

/// Why words are refused, in the order in which it is tested.
#[derive(Clone, Copy, Debug, PartialEq, Eq)]
pub enum UsageKind {
    /// There is no first word, or it is no command.
    Command,
    /// The words after the command aren't those that it takes, or one of them isn't UTF-8.
    Words,
    /// The first option, in the order of `OptName`, whose text means nothing.
    Value(OptName),
    /// Options are given that don't go together.
    Together,
}

/// Why no options were read.
#[derive(Clone, Copy, Debug, PartialEq, Eq, Error)]
pub enum OptFault {
    /// The words are refused.
    #[error("Usage")]
    Usage(UsageKind),
    /// Memory was refused.
    #[error("OutOfMemory")]
    OutOfMemory,
}

impl From<OutOfMemory> for OptFault {
    ghost from_gives = { λ _ e. e ≡ fault.OutOfMemory };

    fn from(_: OutOfMemory) -> Self {
        OptFault::OutOfMemory
    }
}

impl From<AllocError> for OptFault {
    ghost from_gives = { λ _ e. e ≡ fault.OutOfMemory };

    fn from(_: AllocError) -> Self {
        OptFault::OutOfMemory
    }
}

impl<T: Drop> From<AllocFailed<T>> for OptFault {
    ghost from_gives = { λ _ e. e ≡ fault.OutOfMemory };

    fn from(_: AllocFailed<T>) -> Self {
        OptFault::OutOfMemory
    }
}
