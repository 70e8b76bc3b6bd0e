use crate::names::folder_of;
use crate::openings::standing;
use std::alloc::Global;
use std::io;
use std::io::ErrorKind;
use std::rt::Files;

/// What stands above a path, from the root on.
#[derive(Clone, Copy, PartialEq, Eq)]
pub enum Way {
    /// Folders alone.
    Folders,
    /// Folders, and then nothing.
    Missing,
    /// Folders, and then a regular file.
    File,
    /// Folders, and then what is neither a folder nor a regular file.
    Special,
}

/// The last folder below the root above which, and at which, folders alone were found.
#[derive(Drop)]
pub struct Checked {
    folder: String,
}

impl Checked {
    pub fn new(alloc: Global) -> Checked {
        Checked {
            folder: String::new(alloc),
        }
    }

    /// What stands between a root, whose name has `start` bytes, and what the name names. A link is
    /// a fault. Folders that were found above the name before aren't looked at again.
    pub fn way_to<R: Files>(&mut self, rt: &R, start: usize, name: &str) -> io::Result<Way> {
        for end in start..name.len() {
            if name.as_bytes().get(end) == Some(&b'/') {
                let folder = name.get(..end).unwrap_or(name);
                if !self.covers(folder) {
                    let found = found_at(rt, folder)?;
                    if found != Way::Folders {
                        return Ok(found);
                    }
                }
            }
        }
        self.remember(folder_of(name))?;
        Ok(Way::Folders)
    }

    /// Forgets what was found, since a folder was taken away.
    pub fn forget(&mut self) {
        self.folder.clear();
    }

    fn covers(&self, folder: &str) -> bool {
        match self.folder.strip_prefix(folder) {
            Some(rest) => rest.is_empty() || rest.starts_with('/'),
            None => false,
        }
    }

    fn remember(&mut self, folder: &str) -> io::Result<()> {
        if self.folder.as_str() != folder {
            self.folder.clear();
            self.folder.push_str(folder)?;
        }
        Ok(())
    }
}

fn found_at<R: Files>(rt: &R, folder: &str) -> io::Result<Way> {
    match standing(rt, folder)? {
        None => Ok(Way::Missing),
        Some(metadata) if metadata.is_dir() => Ok(Way::Folders),
        Some(metadata) if metadata.is_file() => Ok(Way::File),
        Some(metadata) if metadata.is_symlink() => {
            Err(io::Error::from(ErrorKind::FilesystemLoop))
        }
        Some(_) => Ok(Way::Special),
    }
}
