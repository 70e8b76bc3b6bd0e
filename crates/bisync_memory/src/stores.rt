ghost use Rattle.std.specs.Prelude.{◌≡◌, ◌&&◌, not, IsSome, OnOk, OnErr};
ghost use Rattle.std.specs.FinMap as finmap;
ghost use Rattle.bisync_tree.specs.Tree.{file_at, put};
ghost use Rattle.bisync_device.specs.FolderSet.{has_folder, has_above, has_for_file, holds_file};
ghost use Rattle.bisync_device.specs.RemoteFolders.{has_made};
ghost use Rattle.bisync_device.specs.Remote.{renamed};
ghost use Rattle.bisync_memory.specs.Store.{store_tree, store_folders, KeepsStore, Holds};

use crate::files::{self, Files};
use crate::folder_maps::{self, FolderMap};
use bisync_text::{OutOfMemory, Path, Text};
use bisync_tree::File;
use std::alloc::Global;

/// Files and folders. Where memory is refused, neither is changed.
#[derive(Drop)]
pub struct Store {
    pub files: Files,
    pub folders: FolderMap,
}

impl Store {
    pub fn new(alloc: Global) -> Store
        ensures tree { store_tree result ≡ finmap.empty }
        ensures folders { store_folders result ≡ finmap.empty }
    {
        Store {
            files: Files::new(alloc),
            folders: FolderMap::new(alloc),
        }
    }

    /// Puts a file, and adds the folders above it.
    pub fn put(&mut self, alloc: Global, path: &Path, file: File) -> Result<(), OutOfMemory>
        ensures ok { OnOk result
            (Holds self.new (put (store_tree self.old) path.now file)
            (has_above (store_folders self.old) path.now)) }
        ensures err { OnErr result (KeepsStore self.old self.new) }
    {
        let copy = path.copy(alloc)?;
        let grown = folder_maps::grown(&self.folders, alloc, path)?;
        files::put_file(&mut self.files, copy, file)?;
        if let Some(grown) = grown {
            self.folders = grown;
        }
        Ok(())
    }

    /// Whether a folder is at the path that holds no file.
    fn makes_way(&self, path: &Path) -> bool
        ensures { result ≡
            (has_folder (store_folders self.now) path.now && not
            (holds_file (store_tree self.now) path.now)) }
    {
        folder_maps::has(&self.folders, path.as_bytes()) && !files::holds_file(&self.files, path)
    }

    /// Puts a file, adds the folders above it, and takes a folder at its path away that holds no
    /// file.
    pub fn put_over(&mut self, alloc: Global, path: &Path, file: File) -> Result<(), OutOfMemory>
        ensures ok { OnOk result
            (Holds self.new (put (store_tree self.old) path.now file)
            (has_for_file (store_folders self.old) (store_tree self.old) path.now)) }
        ensures err { OnErr result (KeepsStore self.old self.new) }
    {
        let makes_way = self.makes_way(path);
        self.put(alloc, path, file)?;
        if !makes_way {
            return Ok(());
        }
        folder_maps::clear(&mut self.folders, path);
        Ok(())
    }

    /// Puts a file of these bytes and this time.
    pub fn commit(
        &mut self,
        alloc: Global,
        path: &Path,
        bytes: &[u8],
        time: i64,
    ) -> Result<(), OutOfMemory>
        ensures ok { OnOk result
            (Holds self.new
            (put (store_tree self.old) path.now (record { bytes = bytes.now; time = time }))
            (has_for_file (store_folders self.old) (store_tree self.old) path.now)) }
        ensures err { OnErr result (KeepsStore self.old self.new) }
    {
        let bytes = Text::from_bytes(alloc, bytes)?;
        self.put_over(alloc, path, File { bytes, time })
    }

    /// Moves the file at `from`, which is there, over `to`.
    pub fn rename(&mut self, alloc: Global, from: &Path, to: &Path) -> Result<(), OutOfMemory>
        requires there { IsSome (file_at (store_tree self.old) from.now) }
        ensures ok { OnOk result
            (Holds self.new (renamed (store_tree self.old) from.now to.now)
            (has_for_file (store_folders self.old) (store_tree self.old) to.now)) }
        ensures err { OnErr result (KeepsStore self.old self.new) }
    {
        let file = files::file(&self.files, from).unwrap();
        let file = files::copy_file(alloc, file)?;
        self.put_over(alloc, to, file)?;
        if from == to {
            return Ok(());
        }
        files::remove_file(&mut self.files, from);
        Ok(())
    }

    /// Makes a folder with those above it.
    pub fn put_folder(&mut self, alloc: Global, path: &Path) -> Result<(), OutOfMemory>
        ensures ok { OnOk result
            (Holds self.new (store_tree self.old) (has_made (store_folders self.old) path.now)) }
        ensures err { OnErr result (KeepsStore self.old self.new) }
    {
        self.folders = folder_maps::with_folder(&self.folders, alloc, path)?;
        Ok(())
    }
}
