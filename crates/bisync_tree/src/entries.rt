use crate::Window;

/// What a listing keeps of a file.
#[derive(Clone, Copy, Debug, PartialEq, Eq)]
pub struct Entry {
    /// The number of its bytes.
    pub size: u64,
    /// In nanoseconds since 1970-01-01T00:00:00 UTC.
    pub time: i64,
    /// The MD5 digest (RFC 1321) of its bytes, where checksums are compared.
    pub hash: Option<[u8; 16]>,
}

/// The fields by which two entries are compared.
#[derive(Clone, Copy, Debug, PartialEq, Eq)]
pub struct Compare {
    /// Whether sizes are compared.
    pub size: bool,
    /// Whether times are compared.
    pub time: bool,
    /// Whether digests are compared.
    pub hash: bool,
    /// The window in which times are compared.
    pub window: Window,
}
