use bisync_tree::Compare;

/// What a listing text says first.
#[derive(Clone, Copy, Debug, PartialEq, Eq)]
pub struct Header {
    /// The number of the writing: from 1 to 999,999,999,999,999,999.
    pub stamp: u64,
    /// The compared fields, at least one of them and with the window `Ns1`, in a text of version 2.
    /// None in a text of version 1.
    pub fields: Option<Compare>,
}
