/// How a path changed on a side since the last good run: the first that applies.
#[derive(Clone, Copy, Debug, PartialEq, Eq)]
pub enum Delta {
    /// It wasn't there.
    New,
    /// Times are compared, and its time is in a later window.
    Newer,
    /// Times are compared, and its time is in an earlier window.
    Older,
    /// Sizes are compared and differ.
    Size,
    /// Its digest differs.
    Hash,
    /// It is no longer there.
    Deleted,
}
