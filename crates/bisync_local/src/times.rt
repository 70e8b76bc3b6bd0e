use crate::names::text_of;
use bisync_text::time_text;
use std::fs::{FileTimes, Metadata, OpenFile};
use std::io;
use std::io::ErrorKind;
use std::os::unix::fs::MetadataExt;
use std::process::{Command, Processes};
use std::rt::Files;
use std::time::{Duration, UNIX_EPOCH};

/// The time of the last change in nanoseconds since 1970, also where it is before. A time that
/// isn't in `i64` is a fault.
pub fn time_of(metadata: &Metadata) -> io::Result<i64> {
    let seconds = i128::from(metadata.mtime());
    let nanoseconds = i128::from(metadata.mtime_nsec());
    match i64::try_from(seconds * 1_000_000_000 + nanoseconds) {
        Ok(time) => Ok(time),
        Err(_) => Err(io::Error::from(ErrorKind::InvalidData)),
    }
}

/// Sets the time of an open file, which has this name. What the disk makes of a time that it can't
/// hold is no fault.
pub fn set_time<R: Files + AllocGlobal + Processes>(
    rt: &R,
    file: &R::File,
    name: &str,
    time: i64,
) -> io::Result<()> {
    match u64::try_from(time) {
        Ok(nanoseconds) => {
            let moment = UNIX_EPOCH
                .checked_add(Duration::from_nanos(nanoseconds))
                .ok_or(ErrorKind::InvalidInput)?;
            file.set_times(FileTimes::new().set_modified(moment))
        }
        Err(_) => touch(rt, name, time),
    }
}

/// Has the program `touch` set a time before 1970, which std can't hold.
fn touch<R: AllocGlobal + Processes>(rt: &R, name: &str, time: i64) -> io::Result<()> {
    let text = time_text(time);
    let mut command = Command::new(rt.alloc(), "touch")?;
    command
        .arg("-d")?
        .arg(text_of(&text)?)?
        .arg("--")?
        .arg(name)?;
    if command.status(rt)?.success() {
        Ok(())
    } else {
        Err(io::Error::from(ErrorKind::Other))
    }
}
