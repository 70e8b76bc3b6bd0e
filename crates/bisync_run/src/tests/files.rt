//! Files as texts: `path=bytes@seconds`, or the path alone where no file is there. Between two files
//! is a space.

use bisync_device::{Edits, Remote};
use bisync_memory::MemRemote;
use bisync_text::{Path, Text};
use bisync_tree::File;
use std::alloc::Global;
use std::test::Fail;

const SECOND: i64 = 1_000_000_000;

/// The longest path, of letters `a`.
const LONGEST: [u8; 4096] = [b'a'; 4096];

/// A path. `LONGEST` is the longest one of letters `a`.
fn read_path(alloc: Global, text: &str) -> Result<Path, Fail> {
    if text == "LONGEST" {
        return Ok(Path::read(alloc, &LONGEST)?);
    }
    Ok(Path::read(alloc, text.as_bytes())?)
}

/// Nanoseconds, of a text of seconds with at most one digit behind a point.
fn read_seconds(text: &str) -> Result<i64, Fail> {
    let (whole, tenths) = text.split_once('.').unwrap_or((text, "0"));
    let whole = i64::from(whole.parse::<u32>()?);
    let tenths = i64::from(tenths.parse::<u8>()?);
    Ok(whole * SECOND + tenths * (SECOND / 10))
}

/// The path and the file of a text.
fn read_file(alloc: Global, text: &str) -> Result<(Path, Option<File>), Fail> {
    let Some((path, rest)) = text.split_once('=') else {
        return Ok((read_path(alloc, text)?, None));
    };
    let (bytes, seconds) = rest.split_once('@').unwrap_or((rest, "0"));
    let file = File {
        bytes: Text::from_bytes(alloc, bytes.as_bytes())?,
        time: read_seconds(seconds)?,
    };
    Ok((read_path(alloc, path)?, Some(file)))
}

/// Whether two files are the same, or both aren't there.
fn are_same(one: Option<&File>, two: Option<&File>) -> bool {
    match (one, two) {
        (Some(one), Some(two)) => {
            one.bytes.as_bytes() == two.bytes.as_bytes() && one.time == two.time
        }
        (None, None) => true,
        _ => false,
    }
}

/// Puts files with their times as they are, and takes files away.
pub fn set_files(alloc: Global, remote: &mut MemRemote, files: &str) -> Result<(), Fail> {
    for text in files.split_whitespace() {
        let (path, file) = read_file(alloc, text)?;
        remote.edit(&path, file.as_ref())?;
    }
    Ok(())
}

/// Whether a side has these files, and no others.
pub fn has_files(alloc: Global, remote: &mut MemRemote, files: &str) -> Result<bool, Fail> {
    let mut listed = Vec::new(alloc);
    remote.list(alloc, &mut listed)?;
    for text in files.split_whitespace() {
        let (path, file) = read_file(alloc, text)?;
        if !are_same(remote.get(&path), file.as_ref()) {
            return Ok(false);
        }
    }
    Ok(listed.len() == files.split_whitespace().count())
}

/// Whether the second side has each file of the first whose path ends so.
pub fn has_those_of(
    alloc: Global,
    one: &mut MemRemote,
    two: &MemRemote,
    end: &str,
) -> Result<bool, Fail> {
    let mut listed = Vec::new(alloc);
    one.list(alloc, &mut listed)?;
    for item in listed.iter() {
        let path = Path::read(alloc, item.path.as_bytes())?;
        if path.as_bytes().ends_with(end.as_bytes()) && !are_same(one.get(&path), two.get(&path)) {
            return Ok(false);
        }
    }
    Ok(true)
}

/// Whether a side has these bytes under a path that begins so.
pub fn has_bytes(
    alloc: Global,
    remote: &mut MemRemote,
    start: &str,
    bytes: &str,
) -> Result<bool, Fail> {
    let mut listed = Vec::new(alloc);
    remote.list(alloc, &mut listed)?;
    for item in listed.iter() {
        let path = Path::read(alloc, item.path.as_bytes())?;
        let held = remote.get(&path).map(|file| file.bytes.as_bytes());
        if path.as_bytes().starts_with(start.as_bytes()) && held == Some(bytes.as_bytes()) {
            return Ok(true);
        }
    }
    Ok(false)
}
