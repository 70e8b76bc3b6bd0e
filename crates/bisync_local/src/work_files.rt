use crate::folders::{make_above, make_missing};
use crate::names::folder_of;
use crate::openings::{
    create_anew, create_new, followed, open_seen, standing, sync_folder, sync_renamed,
};
use std::fs::{OpenFile, OpenOptions};
use std::io::ErrorKind;
use std::rt::Files;
use std::{fs, io};

/// Makes a work folder with those above it, where they are missing.
pub fn make_work_folder<R: Files>(rt: &R, folder: &str) -> io::Result<()> {
    match fs::metadata(rt, folder) {
        Ok(metadata) if metadata.is_dir() => Ok(()),
        Ok(_) => Err(io::Error::from(ErrorKind::NotADirectory)),
        Err(e) if e.kind() == ErrorKind::NotFound => {
            make_above(rt, 1, folder)?;
            make_missing(rt, folder)
        }
        Err(e) => Err(e),
    }
}

/// Opens a name to be read, or answers None where it isn't there. What isn't a regular file, or a
/// link to one where links are followed, is a fault.
pub fn open_name<R: Files>(rt: &R, name: &str, follows: bool) -> io::Result<Option<R::File>> {
    let seen = if follows {
        followed(rt, name)?
    } else {
        standing(rt, name)?
    };
    match seen {
        Some(metadata) if metadata.is_file() => {
            let mut how = OpenOptions::new();
            how.read(true);
            Ok(Some(open_seen(rt, &how, name, &metadata)?))
        }
        Some(_) => Err(io::Error::from(ErrorKind::InvalidInput)),
        None => Ok(None),
    }
}

/// Makes a name that isn't there, or answers None where it is.
pub fn create_name<R: Files>(rt: &R, name: &str) -> io::Result<Option<R::File>> {
    let made = create_new(rt, name)?;
    if made.is_some() {
        sync_folder(rt, folder_of(name))?;
    }
    Ok(made)
}

/// Empties a name, or makes it. A link there is replaced, and what it names stays.
pub fn empty_name<R: Files>(rt: &R, name: &str) -> io::Result<R::File> {
    match standing(rt, name)? {
        Some(metadata) if metadata.is_file() => {
            let mut how = OpenOptions::new();
            how.write(true);
            let file = open_seen(rt, &how, name, &metadata)?;
            file.set_len(0)?;
            Ok(file)
        }
        _ => {
            let file = create_anew(rt, name)?;
            sync_folder(rt, folder_of(name))?;
            Ok(file)
        }
    }
}

/// Moves a name over another. False where it isn't there.
pub fn rename_name<R: Files>(rt: &R, from: &str, to: &str) -> io::Result<bool> {
    match fs::rename(rt, from, to) {
        Ok(()) => {}
        Err(e) => {
            return match standing(rt, from)? {
                Some(_) => Err(e),
                None => Ok(false),
            };
        }
    }
    sync_renamed(rt, from, to)?;
    Ok(true)
}

/// Takes a name away. False where it isn't there.
pub fn remove_name<R: Files>(rt: &R, name: &str) -> io::Result<bool> {
    match fs::remove_file(rt, name) {
        Ok(()) => {
            sync_folder(rt, folder_of(name))?;
            Ok(true)
        }
        Err(e) if e.kind() == ErrorKind::NotFound => Ok(false),
        Err(e) => Err(e),
    }
}
