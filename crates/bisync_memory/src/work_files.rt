ghost use Rattle.std.specs.Prelude.{◌≡◌, not, is_some, OnOk, OnErr};
ghost use Rattle.std.specs.Option.{option_copied};
ghost use Rattle.bisync_device.specs.WorkFolder.{Absent, Kept, at, with_held, is_there, bytes_of, appended, synced, renamed};
ghost use Rattle.bisync_device.specs.Work.{emptied};
ghost use Rattle.bisync_memory.specs.WorkFiles.{held, folder_of, no_names, created, woken_folder};

use crate::LooseMode;
use bisync_device::WorkName;
use std::alloc::{AllocError, Global};
use std::mem;

/// The bytes under a name, and whether they were synced.
#[derive(Drop)]
pub struct Stored {
    pub bytes: Vec<u8>,
    pub kept: bool,
}

/// What stands under each name of a work folder.
#[derive(Drop)]
pub struct WorkFiles {
    pub one: Option<Stored>,
    pub two: Option<Stored>,
    pub one_old: Option<Stored>,
    pub two_old: Option<Stored>,
    pub one_new: Option<Stored>,
    pub two_new: Option<Stored>,
    pub one_err: Option<Stored>,
    pub two_err: Option<Stored>,
    pub lock: Option<Stored>,
    pub lock_new: Option<Stored>,
    pub folders: Option<Stored>,
    pub folders_new: Option<Stored>,
    pub filters: Option<Stored>,
    pub filters_md5: Option<Stored>,
}

impl WorkFiles {
    pub fn new() -> WorkFiles
        ensures { folder_of result ≡ no_names }
    {
        WorkFiles {
            one: None,
            two: None,
            one_old: None,
            two_old: None,
            one_new: None,
            two_new: None,
            one_err: None,
            two_err: None,
            lock: None,
            lock_new: None,
            folders: None,
            folders_new: None,
            filters: None,
            filters_md5: None,
        }
    }

    /// What stands under a name.
    pub fn file(&self, name: WorkName) -> Option<&Stored>
        ensures { held (option_copied result) ≡ at (folder_of self.now) name }
    {
        let file = match name {
            WorkName::One => &self.one,
            WorkName::Two => &self.two,
            WorkName::OneOld => &self.one_old,
            WorkName::TwoOld => &self.two_old,
            WorkName::OneNew => &self.one_new,
            WorkName::TwoNew => &self.two_new,
            WorkName::OneErr => &self.one_err,
            WorkName::TwoErr => &self.two_err,
            WorkName::Lock => &self.lock,
            WorkName::LockNew => &self.lock_new,
            WorkName::Folders => &self.folders,
            WorkName::FoldersNew => &self.folders_new,
            WorkName::Filters => &self.filters,
            WorkName::FiltersMd5 => &self.filters_md5,
        };
        file.as_ref()
    }

    /// Puts something else under a name, and gives what stood there.
    fn exchange(&mut self, name: WorkName, next: Option<Stored>) -> Option<Stored>
        ensures folder { folder_of self.new ≡ with_held name (held next) (folder_of self.old) }
        ensures before { held result ≡ at (folder_of self.old) name }
    {
        match name {
            WorkName::One => mem::replace(&mut self.one, next),
            WorkName::Two => mem::replace(&mut self.two, next),
            WorkName::OneOld => mem::replace(&mut self.one_old, next),
            WorkName::TwoOld => mem::replace(&mut self.two_old, next),
            WorkName::OneNew => mem::replace(&mut self.one_new, next),
            WorkName::TwoNew => mem::replace(&mut self.two_new, next),
            WorkName::OneErr => mem::replace(&mut self.one_err, next),
            WorkName::TwoErr => mem::replace(&mut self.two_err, next),
            WorkName::Lock => mem::replace(&mut self.lock, next),
            WorkName::LockNew => mem::replace(&mut self.lock_new, next),
            WorkName::Folders => mem::replace(&mut self.folders, next),
            WorkName::FoldersNew => mem::replace(&mut self.folders_new, next),
            WorkName::Filters => mem::replace(&mut self.filters, next),
            WorkName::FiltersMd5 => mem::replace(&mut self.filters_md5, next),
        }
    }

    /// The bytes under a name.
    pub fn get(&self, name: WorkName) -> Option<&[u8]>
        ensures { option_copied result ≡ bytes_of (at (folder_of self.now) name) }
    {
        self.file(name).map(|stored| stored.bytes.as_slice())
    }

    /// Puts bytes under a name, as synced.
    pub fn put(&mut self, name: WorkName, bytes: Vec<u8>)
        ensures { folder_of self.new ≡ with_held name (Kept bytes.items) (folder_of self.old) }
    {
        let _ = self.exchange(name, Some(Stored { bytes, kept: true }));
    }

    /// Makes a name empty.
    pub fn begin(&mut self, alloc: Global, name: WorkName)
        ensures { folder_of self.new ≡ emptied name (folder_of self.old) }
    {
        let bytes = Vec::new(alloc);
        let _ = self.exchange(name, Some(Stored { bytes, kept: false }));
    }

    /// Makes a name that isn't there, empty. False where it is there.
    pub fn create(&mut self, alloc: Global, name: WorkName) -> bool
        ensures made { result ≡ not (is_there (at (folder_of self.old) name)) }
        ensures folder { folder_of self.new ≡ created name (folder_of self.old) }
    {
        let absent = self.file(name).is_none();
        if absent {
            self.begin(alloc, name);
        }
        absent
    }

    /// Adds bytes to a name. Where memory is refused, nothing changes.
    pub fn append(&mut self, name: WorkName, bytes: &[u8]) -> Result<(), AllocError>
        ensures ok { OnOk result (folder_of self.new ≡ with_held name (appended bytes.now (at (folder_of self.old) name)) (folder_of self.old)) }
        ensures err { OnErr result (folder_of self.new ≡ folder_of self.old) }
    {
        let Some(mut stored) = self.exchange(name, None) else {
            return Ok(());
        };
        match stored.bytes.extend_from_slice(bytes) {
            Ok(()) => {
                stored.kept = false;
                let _ = self.exchange(name, Some(stored));
                Ok(())
            }
            Err(refused) => {
                let _ = self.exchange(name, Some(stored));
                Err(refused)
            }
        }
    }

    /// Makes the bytes of a name last.
    pub fn sync(&mut self, name: WorkName)
        ensures { folder_of self.new ≡ with_held name (synced (at (folder_of self.old) name)) (folder_of self.old) }
    {
        if let Some(mut stored) = self.exchange(name, None) {
            stored.kept = true;
            let _ = self.exchange(name, Some(stored));
        }
    }

    /// Moves a name over another. False where it isn't there.
    pub fn rename(&mut self, from: WorkName, to: WorkName) -> bool
        ensures there { result ≡ is_there (at (folder_of self.old) from) }
        ensures folder { folder_of self.new ≡ renamed from to (folder_of self.old) }
    {
        match self.exchange(from, None) {
            Some(stored) => {
                let _ = self.exchange(to, Some(stored));
                true
            }
            None => false,
        }
    }

    /// Takes a name away. False where it isn't there.
    pub fn remove(&mut self, name: WorkName) -> bool
        ensures there { result ≡ is_there (at (folder_of self.old) name) }
        ensures folder { folder_of self.new ≡ with_held name Absent (folder_of self.old) }
    {
        self.exchange(name, None).is_some()
    }

    /// Leaves one image.
    pub fn wake(&mut self, mode: LooseMode)
        ensures { folder_of self.new ≡ woken_folder mode (folder_of self.old) }
    {
        mode.wake(&mut self.one);
        mode.wake(&mut self.two);
        mode.wake(&mut self.one_old);
        mode.wake(&mut self.two_old);
        mode.wake(&mut self.one_new);
        mode.wake(&mut self.two_new);
        mode.wake(&mut self.one_err);
        mode.wake(&mut self.two_err);
        mode.wake(&mut self.lock);
        mode.wake(&mut self.lock_new);
        mode.wake(&mut self.folders);
        mode.wake(&mut self.folders_new);
        mode.wake(&mut self.filters);
        mode.wake(&mut self.filters_md5);
    }
}
