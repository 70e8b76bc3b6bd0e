use crate::names::folder_of;
use crate::openings::{standing, sync_folder};
use std::io::ErrorKind;
use std::rt::Files;
use std::{fs, io};

/// Makes a folder where it is missing, and syncs the folder that got its name. The folder that is
/// to hold it is there.
pub fn make_missing<R: Files>(rt: &R, folder: &str) -> io::Result<()> {
    match fs::metadata(rt, folder) {
        Ok(metadata) if metadata.is_dir() => Ok(()),
        Ok(_) => Err(io::Error::from(ErrorKind::NotADirectory)),
        Err(e) if e.kind() == ErrorKind::NotFound => {
            fs::create_dir(rt, folder)?;
            sync_folder(rt, folder_of(folder))
        }
        Err(e) => Err(e),
    }
}

/// Makes each missing folder above a name, from the first slash behind `start` bytes on.
pub fn make_above<R: Files>(rt: &R, start: usize, name: &str) -> io::Result<()> {
    for end in start..name.len() {
        if name.as_bytes().get(end) == Some(&b'/') {
            make_missing(rt, name.get(..end).unwrap_or(name))?;
        }
    }
    Ok(())
}

/// Removes a folder that holds nothing but folders of which each holds nothing else. Where anything
/// else is found, nothing is removed, and it is a fault.
pub fn remove_empty<R: Files + AllocGlobal + Clone + Drop>(rt: &R, name: &str) -> io::Result<()> {
    let alloc = rt.alloc();
    let mut folders = vec![in alloc; String::from_str(alloc, name)?]?;
    for next in 0..usize::MAX {
        let Some(folder) = folders.get(next) else {
            break;
        };
        let below = folders_in(rt, folder.as_str())?;
        for folder in below {
            folders.push(folder)?;
        }
    }
    for folder in folders.iter().rev() {
        fs::remove_dir(rt, folder)?;
    }
    Ok(())
}

fn folders_in<R: Files + AllocGlobal + Clone + Drop>(
    rt: &R,
    folder: &str,
) -> io::Result<Vec<String>> {
    let alloc = rt.alloc();
    let mut folders = Vec::new(alloc);
    for entry in fs::read_dir(rt, folder)? {
        let entry = entry?;
        if !entry.metadata()?.is_dir() {
            return Err(io::Error::from(ErrorKind::DirectoryNotEmpty));
        }
        folders.push(String::from_str(alloc, entry.path().as_str())?)?;
    }
    Ok(folders)
}

/// Makes a folder with those above it, behind the first `start` bytes of its name. False where a
/// folder or a file has the name.
pub fn make_folder<R: Files>(rt: &R, start: usize, name: &str) -> io::Result<bool> {
    if let Some(metadata) = standing(rt, name)? {
        if metadata.is_dir() || metadata.is_file() {
            return Ok(false);
        }
    }
    make_above(rt, start, name)?;
    fs::create_dir(rt, name)?;
    sync_folder(rt, folder_of(name))?;
    Ok(true)
}

/// Removes a folder. False where there is none, or the system says that it isn't empty.
pub fn remove_folder<R: Files>(rt: &R, name: &str) -> io::Result<bool> {
    match standing(rt, name)? {
        Some(metadata) if metadata.is_dir() => {}
        _ => return Ok(false),
    }
    match fs::remove_dir(rt, name) {
        Ok(()) => {
            sync_folder(rt, folder_of(name))?;
            Ok(true)
        }
        Err(e) if e.kind() == ErrorKind::DirectoryNotEmpty => Ok(false),
        Err(e) => Err(e),
    }
}
