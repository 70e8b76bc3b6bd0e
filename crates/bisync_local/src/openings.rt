use crate::names::folder_of;
use std::fs::{File, Metadata, OpenFile, OpenOptions};
use std::io::ErrorKind;
use std::os::unix::fs::MetadataExt;
use std::rt::Files;
use std::{fs, io};

/// What has the name, or None where nothing has it. A link is not followed.
pub fn standing<R: Files>(rt: &R, name: &str) -> io::Result<Option<Metadata>> {
    if_there(fs::symlink_metadata(rt, name))
}

/// What has the name at the end of the links there, or None where nothing has it.
pub fn followed<R: Files>(rt: &R, name: &str) -> io::Result<Option<Metadata>> {
    if_there(fs::metadata(rt, name))
}

fn if_there(looked: io::Result<Metadata>) -> io::Result<Option<Metadata>> {
    match looked {
        Ok(metadata) => Ok(Some(metadata)),
        Err(e) if e.kind() == ErrorKind::NotFound => Ok(None),
        Err(e) if e.kind() == ErrorKind::NotADirectory => Ok(None),
        Err(e) => Err(e),
    }
}

/// Whether a regular file has the name.
pub fn is_file<R: Files>(rt: &R, name: &str) -> io::Result<bool> {
    Ok(standing(rt, name)?.is_some_and(|metadata| metadata.is_file()))
}

/// Opens the regular file that was looked at. It is a fault where the name has another one now.
pub fn open_seen<R: Files>(
    rt: &R,
    how: &OpenOptions,
    name: &str,
    seen: &Metadata,
) -> io::Result<R::File> {
    let file = how.open(rt, name)?;
    let opened = file.metadata()?;
    if opened.dev() == seen.dev() && opened.ino() == seen.ino() {
        Ok(file)
    } else {
        Err(io::Error::from(ErrorKind::Other))
    }
}

/// Opens a regular file to be read, or answers None where none has the name. A link is not followed.
pub fn open_file<R: Files>(rt: &R, name: &str) -> io::Result<Option<R::File>> {
    match standing(rt, name)? {
        Some(metadata) if metadata.is_file() => {
            let mut how = OpenOptions::new();
            how.read(true);
            Ok(Some(open_seen(rt, &how, name, &metadata)?))
        }
        _ => Ok(None),
    }
}

/// Makes a file, or answers None where the name is taken, also by a link.
pub fn create_new<R: Files>(rt: &R, name: &str) -> io::Result<Option<R::File>> {
    let mut how = OpenOptions::new();
    how.write(true).create_new(true);
    match how.open(rt, name) {
        Ok(file) => Ok(Some(file)),
        Err(e) if e.kind() == ErrorKind::AlreadyExists => Ok(None),
        Err(e) => Err(e),
    }
}

/// Makes a file anew, in place of a file or a link of this name.
pub fn create_anew<R: Files>(rt: &R, name: &str) -> io::Result<R::File> {
    if let Some(file) = create_new(rt, name)? {
        return Ok(file);
    }
    fs::remove_file(rt, name)?;
    match create_new(rt, name)? {
        Some(file) => Ok(file),
        None => Err(io::Error::from(ErrorKind::AlreadyExists)),
    }
}

/// Has the system put a folder's names on the disk. Where it can't do that with folders, that is no
/// fault.
pub fn sync_folder<R: Files>(rt: &R, folder: &str) -> io::Result<()> {
    match File::open(rt, folder)?.sync_all() {
        Err(e) if e.kind() == ErrorKind::InvalidInput => Ok(()),
        outcome => outcome,
    }
}

/// Syncs the folders of the two names of a rename.
pub fn sync_renamed<R: Files>(rt: &R, from: &str, to: &str) -> io::Result<()> {
    sync_folder(rt, folder_of(to))?;
    if folder_of(from) != folder_of(to) {
        sync_folder(rt, folder_of(from))?;
    }
    Ok(())
}
