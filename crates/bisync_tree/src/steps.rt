use crate::{Entry, Side};
use bisync_text::Path;

/// One change that a run makes. Each step has the entry that was listed of its file.
#[derive(Drop)]
pub enum Step {
    /// Copies the file at the path from this side to the other.
    Copy {
        from: Side,
        path: Path,
        entry: Entry,
    },
    /// Moves a file on this side to another path.
    Rename {
        side: Side,
        from: Path,
        to: Path,
        entry: Entry,
    },
    /// Takes a file away from this side.
    Delete {
        side: Side,
        path: Path,
        entry: Entry,
    },
}

/// The name that the loser of a conflict gets.
#[derive(Drop)]
pub struct Given {
    /// The path in conflict.
    pub path: Path,
    /// The side whose file loses.
    pub side: Side,
    /// The name under which both sides hold that file afterwards.
    pub name: Path,
}
