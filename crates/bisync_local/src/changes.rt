use crate::folders::{make_above, remove_empty};
use crate::names::folder_of;
use crate::openings::{is_file, sync_folder};
use std::io::ErrorKind;
use std::rt::Files;
use std::{fs, io};

/// Gives a file another name. Missing folders behind the first `start` bytes of that name are made,
/// and a folder of that name that holds no file makes way. True where one did.
pub fn move_file<R: Files + AllocGlobal + Clone + Drop>(
    rt: &R,
    start: usize,
    from: &str,
    to: &str,
) -> io::Result<bool> {
    let made_way = match fs::rename(rt, from, to) {
        Ok(()) => false,
        Err(e) if e.kind() == ErrorKind::NotFound => {
            make_above(rt, start, to)?;
            fs::rename(rt, from, to)?;
            false
        }
        Err(e) if e.kind() == ErrorKind::IsADirectory => {
            remove_empty(rt, to)?;
            fs::rename(rt, from, to)?;
            true
        }
        Err(e) => return Err(e),
    };
    Ok(made_way)
}

/// Removes a file. False where there is none.
pub fn remove_file<R: Files>(rt: &R, name: &str) -> io::Result<bool> {
    if !is_file(rt, name)? {
        return Ok(false);
    }
    fs::remove_file(rt, name)?;
    sync_folder(rt, folder_of(name))?;
    Ok(true)
}
