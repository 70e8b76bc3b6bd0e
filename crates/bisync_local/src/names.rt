//! Texts as the names that the system takes.

use std::alloc::Global;
use std::io;
use std::io::ErrorKind;

/// The bytes as text. The system's calls take UTF-8 alone.
pub fn text_of(bytes: &[u8]) -> io::Result<&str> {
    match std::str::from_utf8(bytes) {
        Ok(text) => Ok(text),
        Err(_) => Err(io::Error::from(ErrorKind::InvalidFilename)),
    }
}

/// One text behind the other.
pub fn joined(alloc: Global, first: &str, second: &str) -> io::Result<String> {
    let mut name = String::from_str(alloc, first)?;
    name.push_str(second)?;
    Ok(name)
}

/// A folder's name with a slash at its end.
pub fn with_slash(alloc: Global, folder: &str) -> io::Result<String> {
    let mut name = String::from_str(alloc, folder)?;
    if !folder.ends_with('/') {
        name.push('/')?;
    }
    Ok(name)
}

/// The folder that holds what a name names.
pub fn folder_of(name: &str) -> &str {
    match name.rsplit_once('/') {
        Some((folder, _)) if folder.is_empty() => "/",
        Some((folder, _)) => folder,
        None => ".",
    }
}
