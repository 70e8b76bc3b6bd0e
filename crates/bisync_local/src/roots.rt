use crate::changes::{move_file, remove_file};
use crate::folders::{make_folder, remove_folder};
use crate::listings::{PARTIAL_NAME, files_below, folders_below};
use crate::names::{folder_of, joined, text_of, with_slash};
use crate::openings::{create_anew, is_file, open_file, sync_folder, sync_renamed};
use crate::times::set_time;
use crate::ways::{Checked, Way};
use bisync_text::{Path, Text};
use bisync_tree::Item;
use std::alloc::Global;
use std::fs::OpenFile;
use std::io::ErrorKind;
use std::process::Processes;
use std::rt::Files;
use std::{fs, io};

/// The folder of a remote, once it is attached.
#[derive(Drop)]
pub struct Root {
    alloc: Global,
    /// Its name, with a slash at the end.
    base: Option<String>,
    checked: Checked,
}

impl Root {
    pub fn new(alloc: Global) -> Root {
        Root {
            alloc,
            base: None,
            checked: Checked::new(alloc),
        }
    }

    /// Takes the root of this name. It is a fault where that is no folder. A link there is followed.
    pub fn attach<R: Files>(&mut self, rt: &R, root: &Text) -> io::Result<()> {
        self.base = None;
        self.checked.forget();
        let folder = text_of(root.as_bytes())?;
        if !fs::metadata(rt, folder)?.is_dir() {
            return Err(io::Error::from(ErrorKind::NotADirectory));
        }
        self.base = Some(with_slash(self.alloc, folder)?);
        Ok(())
    }

    fn base(&self) -> io::Result<&str> {
        match &self.base {
            Some(base) => Ok(base.as_str()),
            None => Err(io::Error::from(ErrorKind::NotFound)),
        }
    }

    fn name_of(&self, path: &Path) -> io::Result<String> {
        joined(self.alloc, self.base()?, text_of(path.as_bytes())?)
    }

    fn partial_name(&self) -> io::Result<String> {
        joined(self.alloc, self.base()?, PARTIAL_NAME)
    }

    fn way_to<R: Files>(&mut self, rt: &R, name: &str) -> io::Result<Way> {
        let start = self.base()?.len();
        self.checked.way_to(rt, start, name)
    }

    pub fn list<R: Files + AllocGlobal + Clone + Drop>(
        &self,
        rt: &R,
        alloc: Global,
    ) -> io::Result<Vec<Item>> {
        files_below(rt, alloc, self.base()?)
    }

    pub fn list_folders<R: Files + AllocGlobal + Clone + Drop>(
        &self,
        rt: &R,
        alloc: Global,
    ) -> io::Result<Vec<Text>> {
        folders_below(rt, alloc, self.base()?)
    }

    /// The file at the path, or None where there is no regular file.
    pub fn open<R: Files>(&mut self, rt: &R, path: &Path) -> io::Result<Option<R::File>> {
        let name = self.name_of(path)?;
        match self.way_to(rt, name.as_str())? {
            Way::Folders => open_file(rt, name.as_str()),
            _ => Ok(None),
        }
    }

    /// A new file in writing.
    pub fn begin<R: Files>(&self, rt: &R) -> io::Result<R::File> {
        create_anew(rt, self.partial_name()?.as_str())
    }

    /// Gives the file in writing its time and its path. First its bytes and its time reach the disk.
    pub fn commit<R: Files + AllocGlobal + Processes + Clone + Drop>(
        &mut self,
        rt: &R,
        part: &R::File,
        path: &Path,
        time: i64,
    ) -> io::Result<()> {
        let partial = self.partial_name()?;
        let name = self.name_of(path)?;
        self.way_to(rt, name.as_str())?;
        set_time(rt, part, partial.as_str(), time)?;
        part.sync_all()?;
        self.move_to(rt, partial.as_str(), name.as_str())?;
        sync_folder(rt, folder_of(name.as_str()))
    }

    fn move_to<R: Files + AllocGlobal + Clone + Drop>(
        &mut self,
        rt: &R,
        from: &str,
        to: &str,
    ) -> io::Result<()> {
        let start = self.base()?.len();
        if move_file(rt, start, from, to)? {
            self.checked.forget();
        }
        Ok(())
    }

    /// Moves a file. False where there is none.
    pub fn rename<R: Files + AllocGlobal + Clone + Drop>(
        &mut self,
        rt: &R,
        from: &Path,
        to: &Path,
    ) -> io::Result<bool> {
        let from = self.name_of(from)?;
        let to = self.name_of(to)?;
        if self.way_to(rt, from.as_str())? != Way::Folders || !is_file(rt, from.as_str())? {
            return Ok(false);
        }
        self.way_to(rt, to.as_str())?;
        self.move_to(rt, from.as_str(), to.as_str())?;
        sync_renamed(rt, from.as_str(), to.as_str())?;
        Ok(true)
    }

    /// Removes a file. False where there is none.
    pub fn delete<R: Files>(&mut self, rt: &R, path: &Path) -> io::Result<bool> {
        let name = self.name_of(path)?;
        match self.way_to(rt, name.as_str())? {
            Way::Folders => remove_file(rt, name.as_str()),
            _ => Ok(false),
        }
    }

    /// Makes a folder with those above it. False where a folder or a file is at the path, or a file
    /// above it.
    pub fn make_folder<R: Files>(&mut self, rt: &R, path: &Path) -> io::Result<bool> {
        let name = self.name_of(path)?;
        let start = self.base()?.len();
        match self.way_to(rt, name.as_str())? {
            Way::File => Ok(false),
            _ => make_folder(rt, start, name.as_str()),
        }
    }

    /// Removes a folder that holds nothing. False where there is none, or it holds something.
    pub fn remove_folder<R: Files>(&mut self, rt: &R, path: &Path) -> io::Result<bool> {
        let name = self.name_of(path)?;
        match self.way_to(rt, name.as_str())? {
            Way::Folders => {
                self.checked.forget();
                remove_folder(rt, name.as_str())
            }
            _ => Ok(false),
        }
    }
}
