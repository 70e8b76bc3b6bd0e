//! The limits of what is listed.

ghost use Rattle.std.specs.Prelude.{◌≡◌, IfOk, IfErr, OnOk, length};
ghost use Rattle.bisync_tree.specs.Rows.{keys};
ghost use Rattle.bisync_observe.specs.Counting.{name_bytes, IsOver, IsWithin};

use crate::listed_rows::Row;
use bisync_tree::Limits;

/// How many names are listed, and how many bytes they have.
#[derive(Clone, Copy, Debug, PartialEq, Eq)]
pub struct Count {
    pub files: u64,
    pub bytes: u64,
}

/// An error is the number of rows and of the bytes of their paths, where one is over its limit.
pub fn check_limits(rows: &[Row], limits: &Limits) -> Result<(), Count>
    ensures ok { OnOk result (IsWithin limits.now (length rows.now) (name_bytes (keys rows.now))) }
    ensures over { IfErr result (λ count. IsOver limits.now count.files count.bytes) }
    ensures files { IfErr result (λ count. count.files ≡ length rows.now) }
    ensures bytes { IfErr result (λ count. count.bytes ≡ name_bytes (keys rows.now)) }
{
    let files = rows.len() as u64;
    let bytes = name_bytes(rows);
    if files > limits.files || bytes > limits.names {
        return Err(Count { files, bytes });
    }
    Ok(())
}

/// The bytes of the paths, or the greatest `u64` where they are more.
fn name_bytes(rows: &[Row]) -> u64
    ensures { result ≡ name_bytes (keys rows.now) }
{
    let mut bytes: u64 = 0;
    for row in rows {
        bytes = bytes.saturating_add(row.0.as_bytes().len() as u64);
    }
    bytes
}
