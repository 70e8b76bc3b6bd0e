use bisync_text::Text;

/// What a file holds: its bytes, and its time in nanoseconds since 1970-01-01T00:00:00 UTC.
#[derive(Drop)]
pub struct File {
    pub bytes: Text,
    pub time: i64,
}

/// A file as a remote lists it. Its path is any text, since a disk may hold a name that is no path.
#[derive(Drop)]
pub struct Item {
    pub path: Text,
    /// The number of its bytes.
    pub size: u64,
    /// In nanoseconds since 1970-01-01T00:00:00 UTC.
    pub time: i64,
}
