use bisync_device::WorkName;
use bisync_opts::OptName;
use bisync_table::Delta;
use bisync_tree::{Compare, Side};

/// A part of a line.
#[derive(Clone, Copy)]
pub enum Part<'a> {
    /// These bytes as they are.
    Words(&'a [u8]),
    /// The quoted text of these bytes.
    Quoted(&'a [u8]),
    /// A decimal.
    Number(u64),
    /// The time text of a moment, in nanoseconds since 1970-01-01T00:00:00 UTC.
    Time(i64),
    /// The 32 hexadecimal digits of an MD5 digest.
    Digest(&'a [u8; 16]),
    /// The word for a side.
    Of(Side),
    /// The word for a change.
    Change(Delta),
    /// An option, with its dashes.
    Named(OptName),
    /// The name of a file of a work folder.
    Work(WorkName),
    /// The compared fields.
    Fields(&'a Compare),
}
