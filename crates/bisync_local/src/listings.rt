use crate::times::time_of;
use bisync_text::Text;
use bisync_tree::Item;
use std::alloc::Global;
use std::fs::Metadata;
use std::io::ErrorKind;
use std::rt::Files;
use std::{fs, io};

/// The name of a file in writing, at the root.
pub const PARTIAL_NAME: &str = ".bisync-partial";

/// What is to be listed below a root.
#[derive(Clone, Copy, PartialEq, Eq)]
enum Kind {
    Files,
    Folders,
}

/// What was listed, and the folders that are still to be looked into.
#[derive(Drop)]
struct Lister {
    alloc: Global,
    kind: Kind,
    /// The bytes of a name before its path.
    skip: usize,
    ahead: Vec<String>,
    files: Vec<Item>,
    folders: Vec<Text>,
}

/// One item for each regular file below a root at any depth, but a partial file at the root. Links
/// and special files are passed over and not followed. A name that isn't UTF-8, a time that isn't in
/// `i64`, and what goes away meanwhile, is a fault.
pub fn files_below<R: Files + AllocGlobal + Clone + Drop>(
    rt: &R,
    alloc: Global,
    base: &str,
) -> io::Result<Vec<Item>> {
    let mut lister = Lister::new(alloc, Kind::Files, base)?;
    lister.look(rt)?;
    Ok(lister.files)
}

/// The path of each folder below a root at any depth, but of one at the root that has the partial
/// file's name. Links are not followed.
pub fn folders_below<R: Files + AllocGlobal + Clone + Drop>(
    rt: &R,
    alloc: Global,
    base: &str,
) -> io::Result<Vec<Text>> {
    let mut lister = Lister::new(alloc, Kind::Folders, base)?;
    lister.look(rt)?;
    Ok(lister.folders)
}

impl Lister {
    fn new(alloc: Global, kind: Kind, base: &str) -> io::Result<Lister> {
        Ok(Lister {
            alloc,
            kind,
            skip: base.len(),
            ahead: vec![in alloc; String::from_str(alloc, base)?]?,
            files: Vec::new(alloc),
            folders: Vec::new(alloc),
        })
    }

    fn look<R: Files + AllocGlobal + Clone + Drop>(&mut self, rt: &R) -> io::Result<()> {
        for _ in 0..u64::MAX {
            let Some(folder) = self.ahead.pop() else {
                return Ok(());
            };
            self.look_into(rt, folder.as_str())?;
        }
        Err(io::Error::from(ErrorKind::Other))
    }

    fn look_into<R: Files + AllocGlobal + Clone + Drop>(
        &mut self,
        rt: &R,
        folder: &str,
    ) -> io::Result<()> {
        for entry in fs::read_dir(rt, folder)? {
            let entry = entry?;
            let metadata = entry.metadata()?;
            self.take(entry.path().as_str(), &metadata)?;
        }
        Ok(())
    }

    fn take(&mut self, name: &str, metadata: &Metadata) -> io::Result<()> {
        let path = name.get(self.skip..).unwrap_or("");
        if metadata.is_dir() {
            self.ahead.push(String::from_str(self.alloc, name)?)?;
        }
        if path == PARTIAL_NAME {
            return Ok(());
        }
        match self.kind {
            Kind::Files if metadata.is_file() => self.keep_file(path, metadata),
            Kind::Folders if metadata.is_dir() => self.keep_folder(path),
            _ => Ok(()),
        }
    }

    fn keep_file(&mut self, path: &str, metadata: &Metadata) -> io::Result<()> {
        self.files.push(Item {
            path: text_at(self.alloc, path)?,
            size: metadata.len(),
            time: time_of(metadata)?,
        })?;
        Ok(())
    }

    fn keep_folder(&mut self, path: &str) -> io::Result<()> {
        self.folders.push(text_at(self.alloc, path)?)?;
        Ok(())
    }
}

fn text_at(alloc: Global, path: &str) -> io::Result<Text> {
    match Text::from_bytes(alloc, path.as_bytes()) {
        Ok(text) => Ok(text),
        Err(_) => Err(io::Error::from(ErrorKind::OutOfMemory)),
    }
}
