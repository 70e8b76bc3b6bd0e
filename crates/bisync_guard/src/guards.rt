use bisync_text::Path;
use bisync_tree::Side;

/// Why a run must not go on. Counts are of paths that pass the filter rules.
#[derive(PartialEq, Eq, Drop)]
pub enum Guard {
    /// The check files of the two sides aren't at the same paths: this side lacks this one, which
    /// is the first in byte order. Path1 and no path where neither side has a check file.
    CheckAccess(Side, Option<Path>),
    /// No file is on this side.
    EmptyCurrent(Side),
    /// On this side so many paths are gone of so many in the base, which is more than the limit.
    TooManyDeletes(Side, u64, u64),
    /// On this side so many paths of the base are still there, and each of them is new or changed.
    AllChanged(Side, u64),
}
