//! Standard streams that are closed.

use std::fs::File;
use std::rt::Files;

/// Opens `/dev/null` to be read, three times. The system gives a file the least number that is free, so
/// where a standard stream is closed, one of these has its number. Else the first file of a run would have
/// that of the standard output, and be given its lines. To write to these fails, as to a closed stream.
pub fn fill_closed<R: Files>(rt: &R) -> [Option<R::File>; 3] {
    [null(rt), null(rt), null(rt)]
}

fn null<R: Files>(rt: &R) -> Option<R::File> {
    File::open(rt, "/dev/null").ok()
}
