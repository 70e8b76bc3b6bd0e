ghost use Rattle.std.specs.Prelude.{◌≡◌, ◌<◌, ◌-◌, ◌^◌, ◌++◌, ◌⊎◌, [], true, false, length, is_err, is_ok, IsTrue, IsSome, None, OnErr};
ghost use Rattle.bisync_tree.specs.Tree.{file_at, without};
ghost use Rattle.bisync_device.specs.Faults.{is_failed};
ghost use Rattle.bisync_device.specs.FolderSet.{has_folder, has_for_file};
ghost use Rattle.bisync_device.specs.Reading.{KeepsReading, Reads};
ghost use Rattle.bisync_device.specs.Remote.{IsCall, IsClosed, KeepsTree, KeepsWriting, Unchanged, Changed, Lists, Opens, Writes, Commits, ChangesFile, renamed};
ghost use Rattle.bisync_memory.specs.MemRemote.{remote_state, CountsCall, IsToFail, FailsUndone, FailsDone, IsFull};

use crate::readings::Reading;
use crate::schedules::Verdict;
use crate::{MemRemote, files};
use bisync_device::{Failed, ListFault, Remote};
use bisync_text::{OutOfMemory, Path, Text};
use bisync_tree::{Item, Window};
use std::alloc::Global;

impl Remote for MemRemote {
    ghost tells = { true };

    ghost state = { remote_state };

    fn window(&self) -> Window {
        self.window
    }

    fn attach(&mut self, _root: &Text) -> Result<(), Failed>
        ensures call { IsCall (is_err result) (remote_state self.old) (remote_state self.new) }
        ensures tree { KeepsTree true (remote_state self.old) (remote_state self.new) }
        ensures closed { IsClosed (remote_state self.new) }
        ensures counts { CountsCall (is_err result) self.old self.new }
        ensures why { OnErr result (IsToFail self.old) }
    {
        self.opened = false;
        self.begun = false;
        self.schedule.pass()
    }

    fn list(&mut self, alloc: Global, out: &mut Vec<Item>) -> Result<(), ListFault>
        ensures call { IsCall (is_failed result) (remote_state self.old) (remote_state self.new) }
        ensures tree { KeepsTree true (remote_state self.old) (remote_state self.new) }
        ensures reading { KeepsReading true (remote_state self.old).reading
            (remote_state self.new).reading }
        ensures writing { KeepsWriting true (remote_state self.old) (remote_state self.new) }
        ensures items { Lists true (remote_state self.old).tree out.old.items out.new.items
            (is_ok result) }
        ensures counts { CountsCall (is_failed result) self.old self.new }
        ensures why { IsTrue (is_failed result) → IsToFail self.old }
    {
        match self.schedule.pass() {
            Ok(()) => {}
            Err(Failed) => return Err(ListFault::Failed),
        }
        match files::list_files(&self.store.files, alloc, out) {
            Ok(()) => Ok(()),
            Err(OutOfMemory) => Err(ListFault::OutOfMemory),
        }
    }

    fn open(&mut self, path: &Path) -> Result<bool, Failed>
        ensures call { IsCall (is_err result) (remote_state self.old) (remote_state self.new) }
        ensures tree { KeepsTree true (remote_state self.old) (remote_state self.new) }
        ensures writing { KeepsWriting true (remote_state self.old) (remote_state self.new) }
        ensures opens { Opens true path.now (remote_state self.old) (remote_state self.new) result }
        ensures counts { CountsCall (is_err result) self.old self.new }
        ensures why { OnErr result
            (IsToFail self.old ⊎ IsSome (file_at (remote_state self.old).tree path.now)) }
    {
        self.opened = false;
        self.schedule.pass()?;
        let Some(file) = files::file(&self.store.files, path) else {
            return Ok(false);
        };
        match file.bytes.as_bytes().to_vec(self.alloc) {
            Ok(bytes) => {
                self.reading = Reading::new(bytes);
                self.opened = true;
                Ok(true)
            }
            Err(_) => {
                self.schedule.fault();
                Err(Failed)
            }
        }
    }

    fn read(&mut self, buffer: &mut [u8]) -> Result<usize, Failed>
        requires opened { (remote_state self.old).reading.opened ≡ true }
        requires room { 0 < length buffer.old }
        ensures call { IsCall (is_err result) (remote_state self.old) (remote_state self.new) }
        ensures tree { KeepsTree true (remote_state self.old) (remote_state self.new) }
        ensures writing { KeepsWriting true (remote_state self.old) (remote_state self.new) }
        ensures reads { Reads true buffer.new (remote_state self.old).reading
            (remote_state self.new).reading result }
        ensures counts { CountsCall (is_err result) self.old self.new }
        ensures why { OnErr result (IsToFail self.old) }
    {
        match self.schedule.pass() {
            Ok(()) => Ok(self.reading.take_into(buffer)),
            Err(Failed) => {
                self.opened = false;
                Err(Failed)
            }
        }
    }

    fn begin(&mut self) -> Result<(), Failed>
        ensures call { IsCall (is_err result) (remote_state self.old) (remote_state self.new) }
        ensures tree { KeepsTree true (remote_state self.old) (remote_state self.new) }
        ensures reading { KeepsReading true (remote_state self.old).reading
            (remote_state self.new).reading }
        ensures writes { Writes true [] (remote_state self.new) result }
        ensures counts { CountsCall (is_err result) self.old self.new }
        ensures why { OnErr result (IsToFail self.old) }
    {
        self.begun = false;
        self.schedule.pass()?;
        self.part.clear();
        self.begun = true;
        Ok(())
    }

    fn append(&mut self, bytes: &[u8]) -> Result<(), Failed>
        requires begun { (remote_state self.old).begun ≡ true }
        ensures call { IsCall (is_err result) (remote_state self.old) (remote_state self.new) }
        ensures tree { KeepsTree true (remote_state self.old) (remote_state self.new) }
        ensures reading { KeepsReading true (remote_state self.old).reading
            (remote_state self.new).reading }
        ensures writes { Writes true ((remote_state self.old).part ++ bytes.now)
            (remote_state self.new) result }
        ensures counts { CountsCall (is_err result) self.old self.new }
    {
        self.begun = false;
        self.schedule.pass()?;
        match self.part.extend_from_slice(bytes) {
            Ok(()) => {
                self.begun = true;
                Ok(())
            }
            Err(_) => {
                self.schedule.fault();
                Err(Failed)
            }
        }
    }

    fn commit(&mut self, path: &Path, time: i64) -> Result<(), Failed>
        requires begun { (remote_state self.old).begun ≡ true }
        ensures call { IsCall (is_err result) (remote_state self.old) (remote_state self.new) }
        ensures reading { KeepsReading true (remote_state self.old).reading
            (remote_state self.new).reading }
        ensures ended { (remote_state self.new).begun ≡ false }
        ensures commits { Commits true path.now time (remote_state self.old)
            (remote_state self.new) result }
        ensures counts { CountsCall (is_err result) self.old self.new }
        ensures undone { OnErr result
            (FailsDone self.old ⊎ Unchanged (remote_state self.old) (remote_state self.new)) }
        ensures full { (remote_state self.old).changes ≡ 2 ^ 64 - 1
            → Unchanged (remote_state self.old) (remote_state self.new) }
    {
        self.begun = false;
        let verdict = self.schedule.tick();
        if verdict == Verdict::Fail {
            return Err(Failed);
        }
        if self.changes == u64::MAX {
            self.schedule.fault();
            return Err(Failed);
        }
        let time = self.window.brought(time);
        match self.store.commit(self.alloc, path, &self.part, time) {
            Ok(()) => {
                self.changes += 1;
                verdict.done()
            }
            Err(OutOfMemory) => {
                self.schedule.fault();
                Err(Failed)
            }
        }
    }

    fn rename(&mut self, from: &Path, to: &Path) -> Result<bool, Failed>
        ensures call { IsCall (is_err result) (remote_state self.old) (remote_state self.new) }
        ensures reading { KeepsReading true (remote_state self.old).reading
            (remote_state self.new).reading }
        ensures writing { KeepsWriting true (remote_state self.old) (remote_state self.new) }
        ensures renames { ChangesFile true from.now
            (renamed (remote_state self.old).tree from.now to.now)
            (has_for_file (remote_state self.old).folders (remote_state self.old).tree to.now)
            (remote_state self.old) (remote_state self.new) result }
        ensures counts { CountsCall (is_err result) self.old self.new }
        ensures undone { OnErr result
            (FailsDone self.old ⊎ Unchanged (remote_state self.old) (remote_state self.new)) }
        ensures full { (remote_state self.old).changes ≡ 2 ^ 64 - 1
            → Unchanged (remote_state self.old) (remote_state self.new) }
        ensures absent { file_at (remote_state self.old).tree from.now ≡ None
            → OnErr result (IsToFail self.old) }
    {
        let verdict = self.schedule.tick();
        if verdict == Verdict::Fail {
            return Err(Failed);
        }
        if self.get(from).is_none() {
            return verdict.answer(false);
        }
        if self.changes == u64::MAX {
            self.schedule.fault();
            return Err(Failed);
        }
        match self.store.rename(self.alloc, from, to) {
            Ok(()) => {
                self.changes += 1;
                verdict.answer(true)
            }
            Err(OutOfMemory) => {
                self.schedule.fault();
                Err(Failed)
            }
        }
    }

    fn delete(&mut self, path: &Path) -> Result<bool, Failed>
        ensures call { IsCall (is_err result) (remote_state self.old) (remote_state self.new) }
        ensures reading { KeepsReading true (remote_state self.old).reading
            (remote_state self.new).reading }
        ensures writing { KeepsWriting true (remote_state self.old) (remote_state self.new) }
        ensures deletes { ChangesFile true path.now
            (without (remote_state self.old).tree path.now)
            (has_folder (remote_state self.old).folders) (remote_state self.old)
            (remote_state self.new) result }
        ensures counts { CountsCall (is_err result) self.old self.new }
        ensures undone { FailsUndone self.old
            → Unchanged (remote_state self.old) (remote_state self.new) }
        ensures full { (remote_state self.old).changes ≡ 2 ^ 64 - 1
            → Unchanged (remote_state self.old) (remote_state self.new) }
        ensures why { OnErr result (IsToFail self.old ⊎ IsFull (remote_state self.old) path.now) }
        ensures done { FailsDone self.old → (IsFull (remote_state self.old) path.now → ⊥) → IsSome
            (file_at (remote_state self.old).tree path.now) → Changed (remote_state self.old)
            (remote_state self.new) (without (remote_state self.old).tree path.now)
            (has_folder (remote_state self.old).folders) }
    {
        let verdict = self.schedule.tick();
        if verdict == Verdict::Fail {
            return Err(Failed);
        }
        if self.get(path).is_none() {
            return verdict.answer(false);
        }
        if self.changes == u64::MAX {
            self.schedule.fault();
            return Err(Failed);
        }
        files::remove_file(&mut self.store.files, path);
        self.changes += 1;
        verdict.answer(true)
    }
}
