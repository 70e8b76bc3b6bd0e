/// Until when a lock blocks a run.
#[derive(Clone, Copy, Debug, PartialEq, Eq)]
pub enum Until {
    /// The lock file can't be read, and blocks until a user removes it.
    Unreadable,
    /// The lock has no expiry.
    Never,
    /// The moment of the expiry, in nanoseconds since 1970-01-01T00:00:00 UTC.
    At(i64),
}
