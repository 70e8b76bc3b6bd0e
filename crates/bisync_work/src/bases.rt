/// The names of the two listings of a base.
#[derive(Clone, Copy, Debug, PartialEq, Eq)]
pub enum Pair {
    /// `1.lst` and `2.lst`.
    Current,
    /// `1.lst-old` and `2.lst`, as a set back leaves them that was not finished.
    Mixed,
    /// `1.lst-old` and `2.lst-old`.
    Old,
}
