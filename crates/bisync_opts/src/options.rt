use bisync_text::Text;
use bisync_tree::{Compare, ConflictRule, GuardRule, Prefer};

/// When the listings of the two sides are compared.
#[derive(Clone, Copy, Debug, PartialEq, Eq)]
pub enum CheckSync {
    /// The new listings, before the first change of a run.
    Always,
    /// They aren't compared.
    Never,
    /// The listings of the last good run, and nothing else is done.
    Only,
}

/// What becomes of folders that hold no file.
#[derive(Clone, Copy, Debug, PartialEq, Eq)]
pub enum FolderMode {
    /// A folder that is new on one side is made on the other, and one that is gone is removed.
    Create,
    /// Each folder that holds neither a file nor a folder is removed.
    Remove,
}

/// The options of a run. Their defaults and ranges are this project's own.
#[derive(Drop)]
pub struct Opts {
    /// The root of Path1.
    pub root1: Text,
    /// The root of Path2.
    pub root2: Text,
    /// The folder of the listings and the lock.
    pub workdir: Text,
    /// The filters file, where one is used.
    pub filters: Option<Text>,
    /// How a resync settles a path that differs, where the run is one.
    pub resync: Option<Prefer>,
    /// At least one field is compared.
    pub compare: Compare,
    /// How conflicts are settled.
    pub conflict: ConflictRule,
    /// What stops a run before its first change.
    pub guard: GuardRule,
    /// When the listings of the two sides are compared.
    pub check_sync: CheckSync,
    /// Whether the listings stay where a run ends badly.
    pub resilient: bool,
    /// Whether a run may begin from older listings, where those of the last run are incomplete.
    pub recover: bool,
    /// How long a lock holds, in nanoseconds, at least two minutes. None is for ever.
    pub max_lock: Option<i64>,
    /// Whether a run only tells what it would do.
    pub dry_run: bool,
    /// What becomes of folders that hold no file, where they are looked at.
    pub folders: Option<FolderMode>,
    /// The folder that keeps what a run replaces, deletes or renames on Path1, where there is one.
    pub backup1: Option<Text>,
    /// The same for Path2.
    pub backup2: Option<Text>,
    /// Whether renames on one side are made on the other.
    pub track_renames: bool,
}
