ghost use Rattle.std.specs.Prelude.{◌≡◌, ◌++◌, ◌∷◌, [], OnOk, OnErr, None, option_copied, false};
ghost use Rattle.std.specs.FinMap as finmap;
ghost use Rattle.bisync_tree.specs.Tree.{file_at, put};
ghost use Rattle.bisync_tree.specs.declared.windows.Window.TheVariants.{Ns1};
ghost use Rattle.bisync_device.specs.FolderSet.{has_folder, has_above};
ghost use Rattle.bisync_device.specs.RemoteFolders.{has_made, is_taken, is_empty_folder};
ghost use Rattle.bisync_memory.specs.MemRemote.{remote_state, calls_of, failures_of, KeepsCounts, IsPut};

use crate::readings::Reading;
use crate::schedules::Schedule;
use crate::stores::Store;
use crate::{files, folder_maps};
use bisync_text::{OutOfMemory, Path};
use bisync_tree::{File, Window};
use std::alloc::Global;

/// A remote in memory, with its folders. Each call of `Remote` and of `Folders` but `window` is
/// counted, from 1.
#[derive(Drop)]
pub struct MemRemote {
    pub(crate) alloc: Global,
    pub(crate) store: Store,
    pub(crate) window: Window,
    pub(crate) opened: bool,
    pub(crate) reading: Reading,
    pub(crate) begun: bool,
    pub(crate) part: Vec<u8>,
    pub(crate) changes: u64,
    pub(crate) schedule: Schedule,
}

impl MemRemote {
    /// An empty remote that keeps times in nanoseconds, and of which no call is to fail. Takes no
    /// memory.
    pub fn new(alloc: Global) -> MemRemote
        ensures state { remote_state result ≡ record
            { tree = finmap.empty; folders = finmap.empty; changes = 0; reading = record { opened = false; rest = [] }; begun = false; part = []; faults = 0; left = None; window = Ns1 } }
        ensures calls { calls_of result ≡ 0 }
        ensures failures { failures_of result ≡ [] }
    {
        MemRemote {
            alloc,
            store: Store::new(alloc),
            window: Window::Ns1,
            opened: false,
            reading: Reading::new(Vec::new(alloc)),
            begun: false,
            part: Vec::new(alloc),
            changes: 0,
            schedule: Schedule {
                calls: 0,
                faults: 0,
                left: None,
                failures: Vec::new(alloc),
            },
        }
    }

    /// Puts a file with its time as given, and adds the folders above it. It isn't counted. Where
    /// memory is refused, nothing changes.
    pub fn put(&mut self, path: &Path, file: &File) -> Result<(), OutOfMemory>
        ensures ok { OnOk result
            (IsPut (remote_state self.old) (remote_state self.new)
            (put (remote_state self.old).tree path.now file.now)
            (has_above (remote_state self.old).folders path.now)) }
        ensures err { OnErr result (remote_state self.new ≡ remote_state self.old) }
        ensures counts { KeepsCounts self.old self.new }
    {
        let copy = files::copy_file(self.alloc, file)?;
        self.store.put(self.alloc, path, copy)
    }

    /// The file at a path, where it is there.
    pub fn get(&self, path: &Path) -> Option<&File>
        ensures { option_copied result ≡ file_at (remote_state self.now).tree path.now }
    {
        files::file(&self.store.files, path)
    }

    /// Sets the precision with which times are kept from now on. It isn't counted.
    pub fn set_window(&mut self, window: Window)
        ensures state { remote_state self.new ≡ record (remote_state self.old) { window = window } }
        ensures counts { KeepsCounts self.old self.new }
    {
        self.window = window;
    }

    /// Makes a folder with those above it. It isn't counted. Where memory is refused, nothing
    /// changes.
    pub fn put_folder(&mut self, path: &Path) -> Result<(), OutOfMemory>
        ensures ok { OnOk result
            (IsPut (remote_state self.old) (remote_state self.new) (remote_state self.old).tree
            (has_made (remote_state self.old).folders path.now)) }
        ensures err { OnErr result (remote_state self.new ≡ remote_state self.old) }
        ensures counts { KeepsCounts self.old self.new }
    {
        self.store.put_folder(self.alloc, path)
    }

    /// Whether a folder is there.
    pub fn has_folder(&self, path: &Path) -> bool
        ensures { result ≡ has_folder (remote_state self.now).folders path.now }
    {
        folder_maps::has(&self.store.folders, path.as_bytes())
    }

    /// Lets a counted call fail, with its effect done or not. Of two entries for one call the
    /// first holds. It isn't counted. Where memory is refused, nothing changes.
    pub fn fail_at(&mut self, call: u64, done: bool) -> Result<(), OutOfMemory>
        ensures state { remote_state self.new ≡ remote_state self.old }
        ensures ok { OnOk result
            (failures_of self.new ≡ failures_of self.old ++ (call, done) ∷ []) }
        ensures err { OnErr result (failures_of self.new ≡ failures_of self.old) }
        ensures calls { calls_of self.new ≡ calls_of self.old }
    {
        self.schedule.failures.push((call, done))?;
        Ok(())
    }

    /// How many calls were counted, or the greatest `u64` where they are more.
    pub fn calls(&self) -> u64
        ensures { result ≡ calls_of self.now }
    {
        self.schedule.calls
    }

    /// The count of faults, or the greatest `u64` where it is above that.
    pub fn faults(&self) -> u64
        ensures { result ≡ (remote_state self.now).faults }
    {
        self.schedule.faults
    }

    /// Whether a folder or a file is at the path, or a file is at a parent of it.
    pub(crate) fn is_taken(&self, path: &Path) -> bool
        ensures { result ≡ is_taken (remote_state self.now) path.now }
    {
        self.has_folder(path)
            || self.get(path).is_some()
            || files::has_file_above(&self.store.files, path)
    }

    /// Whether a folder is there that holds neither a file nor a folder.
    pub(crate) fn has_empty_folder(&self, path: &Path) -> bool
        ensures { result ≡ is_empty_folder (remote_state self.now) path.now }
    {
        self.has_folder(path)
            && !files::holds_file(&self.store.files, path)
            && !folder_maps::holds_folder(&self.store.folders, path)
    }
}
