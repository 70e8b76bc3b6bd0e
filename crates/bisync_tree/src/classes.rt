use crate::Side;

/// What became of a path on one side since the last good run.
#[derive(Clone, Copy, Debug, PartialEq, Eq)]
pub enum Class {
    /// It is as it was, there or absent.
    Quiet,
    /// It is there, and is new or changed.
    Fresh,
    /// It was there, and is absent.
    Gone,
}

/// What a run does with a path.
#[derive(Clone, Copy, Debug, PartialEq, Eq)]
pub enum Rule {
    /// Each side keeps what it has.
    Nothing,
    /// The file of this side is copied to the other.
    Copy(Side),
    /// The file of this side is deleted.
    Delete(Side),
    /// Both sides changed, and their files differ.
    Conflict,
}
