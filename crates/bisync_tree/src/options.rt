use bisync_text::Text;

/// Which of two files that both changed wins.
#[derive(Clone, Copy, Debug, PartialEq, Eq)]
pub enum Prefer {
    /// There is no winner.
    Nobody,
    /// The one on Path1.
    Path1,
    /// The one on Path2.
    Path2,
    /// The one in the later window of time.
    Newer,
    /// The one in the earlier window of time.
    Older,
    /// The one with more bytes.
    Larger,
    /// The one with fewer bytes.
    Smaller,
}

/// What becomes of the file that loses a conflict.
#[derive(Clone, Copy, Debug, PartialEq, Eq)]
pub enum Loser {
    /// It gets a name with a number.
    Num,
    /// It gets a name with the mark of its side.
    Pathname,
    /// It is overwritten by the winner. Without a winner this is `Num`.
    Delete,
}

/// How conflicts are settled. Each suffix is UTF-8 of 1 to 64 bytes without `/`, `,` and NUL.
#[derive(Drop)]
pub struct ConflictRule {
    /// Which file wins.
    pub prefer: Prefer,
    /// What becomes of the other.
    pub loser: Loser,
    /// The suffix of the names that Path1's losers get.
    pub suffix1: Text,
    /// The suffix of the names that Path2's losers get.
    pub suffix2: Text,
}

/// What stops a run before its first change.
#[derive(Drop)]
pub struct GuardRule {
    /// The name of the files by which access is checked, where it is.
    pub check: Option<Text>,
    /// How many of a side's files may be gone, in percent: 0 to 100.
    pub max_delete: u8,
    /// Whether a run goes past the limit of deletes and past a side all of whose files changed.
    pub force: bool,
}

/// What a run takes at the most.
#[derive(Clone, Copy, Debug, PartialEq, Eq)]
pub struct Limits {
    /// Files listed on a side.
    pub files: u64,
    /// Bytes of the names listed on a side.
    pub names: u64,
    /// Bytes of a listing's text.
    pub listing: u64,
}

impl Limits {
    /// The limits of the program.
    pub const REAL: Limits = Limits {
        files: 1_000_000,
        names: 134_217_728,
        listing: 2_147_483_648,
    };
}
