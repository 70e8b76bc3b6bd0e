use bisync_device::WorkName;
use bisync_opts::UsageKind;
use bisync_text::{Path, Text};
use bisync_tree::{Compare, Entry, Side, Until};

/// How a command ended. The answers, their order and their texts are this project's own.
#[derive(Drop)]
pub enum End {
    /// A run ended well, with these numbers of changes on Path1 and Path2.
    Done {
        one: u64,
        two: u64,
    },
    /// A resync ended well, with these numbers of changes on Path1 and Path2.
    Resynced {
        one: u64,
        two: u64,
    },
    /// A dry run ended well.
    DryRun,
    /// The listings of the base agree.
    InSync,
    /// The demonstration ended well.
    Demo,
    /// The words are refused.
    Usage(UsageKind),
    /// A call of the work folder failed.
    WorkFault,
    /// The filters file isn't there.
    NoFilters,
    /// The line of the filters file, counted from 1, that is the first that is no rule.
    BadRule(u64),
    /// A lock blocks the run.
    Locked(Until),
    /// The MD5 digest (RFC 1321) of the filters file isn't the stored one. `stored` is None where
    /// no digest can be read.
    FiltersChanged {
        now: [u8; 16],
        stored: Option<[u8; 16]>,
    },
    /// The first name of the base that is no listing, and its first bad line, counted from 1.
    BadListing(WorkName, u64),
    /// The run needs a resync.
    NeedResync(Need),
    /// The first path at which the listings of the base differ, and their entries.
    ListingsDiffer(Path, Option<Entry>, Option<Entry>),
    /// The base listing of the side has no passing path.
    EmptyPrior(Side),
    /// A call of the remote failed.
    RemoteFault(Side),
    /// The first listed text that is no path.
    BadPath(Side, Text),
    /// The remote has this many files, or folders where they are looked at, with this many bytes of
    /// names, and one number is over its limit.
    TooMany(Side, u64, u64),
    /// The side lacks this check file, or neither side has one.
    CheckAccess(Side, Option<Path>),
    /// No passing file is on the side.
    EmptyCurrent(Side),
    /// This many of that many base paths of the side are gone.
    TooManyDeletes(Side, u64, u64),
    /// All that many base paths of the side are there and changed.
    AllChanged(Side, u64),
    /// The name for the loser at this path would be too long.
    NameTooLong(Side, Path),
    /// The new listing of the side would have that many bytes.
    ListingTooLong(Side, u64),
    /// The first path at which the new listings differ, and their entries.
    OutOfSync(Path, Option<Entry>, Option<Entry>),
    /// The file isn't as it was listed. The entries are the listed one and what was read, which is
    /// None where no file was there or it had too many bytes to count.
    Moved(Side, Path, Entry, Option<Entry>),
    /// The output failed: after a good end where `done`, at the last line or the line on folders, and
    /// else before.
    SinkFault {
        done: bool,
    },
    /// The lock could not be removed after a good end.
    LockLeft,
    /// Folders could not be made or removed after a good end.
    FoldersLeft(FolderCause),
    /// A call of the side's backup folder failed.
    KeepFault(Side),
    /// A check ended, and that many paths differ.
    Checked {
        differ: u64,
    },
    /// The words ask for what this version does not do yet.
    NotBuilt,
    /// Memory was refused.
    OutOfMemory,
}

/// Why a run needs a resync.
#[derive(Clone, Copy, Debug, PartialEq, Eq)]
pub enum Need {
    /// No listings of a last good run are there.
    NoBase,
    /// The last run did not end, and `--recover` isn't given.
    NotRecovering,
    /// The listings were made with these compared fields.
    FieldsChanged(Compare),
}

/// Why folders were left.
#[derive(Clone, Copy, Debug, PartialEq, Eq)]
pub enum FolderCause {
    /// A call of the side failed.
    Side(Side),
    /// A call of the work folder failed.
    Work,
    /// A lock blocks the change of folders.
    Held(Until),
}
