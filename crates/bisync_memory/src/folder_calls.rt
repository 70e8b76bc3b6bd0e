ghost use Rattle.std.specs.Prelude.{◌≡◌, true, not, is_err, is_ok, IsTrue, OnErr, ◌⊎◌};
ghost use Rattle.bisync_device.specs.Faults.{is_failed};
ghost use Rattle.bisync_device.specs.Reading.{KeepsReading};
ghost use Rattle.bisync_device.specs.Remote.{IsCall, KeepsTree, KeepsWriting, Unchanged};
ghost use Rattle.bisync_device.specs.RemoteFolders.{ListsFolders, ChangesFolders, ChangesFoldersWhere, is_taken, is_empty_folder, has_made, has_left};
ghost use Rattle.bisync_memory.specs.MemRemote.{remote_state, CountsCall, IsToFail, FailsUndone, FailsDone};

use crate::schedules::Verdict;
use crate::{MemRemote, folder_maps};
use bisync_device::{Failed, Folders, ListFault};
use bisync_text::{OutOfMemory, Path, Text};
use std::alloc::Global;

impl Folders for MemRemote {
    fn list_folders(&mut self, alloc: Global, out: &mut Vec<Text>) -> Result<(), ListFault>
        ensures call { IsCall (is_failed result) (remote_state self.old) (remote_state self.new) }
        ensures tree { KeepsTree true (remote_state self.old) (remote_state self.new) }
        ensures reading { KeepsReading true (remote_state self.old).reading
            (remote_state self.new).reading }
        ensures writing { KeepsWriting true (remote_state self.old) (remote_state self.new) }
        ensures texts { ListsFolders true (remote_state self.old).folders out.old.items
            out.new.items (is_ok result) }
        ensures counts { CountsCall (is_failed result) self.old self.new }
        ensures why { IsTrue (is_failed result) → IsToFail self.old }
    {
        match self.schedule.pass() {
            Ok(()) => {}
            Err(Failed) => return Err(ListFault::Failed),
        }
        match folder_maps::list_folders(&self.store.folders, alloc, out) {
            Ok(()) => Ok(()),
            Err(OutOfMemory) => Err(ListFault::OutOfMemory),
        }
    }

    fn make_folder(&mut self, path: &Path) -> Result<bool, Failed>
        ensures call { IsCall (is_err result) (remote_state self.old) (remote_state self.new) }
        ensures reading { KeepsReading true (remote_state self.old).reading
            (remote_state self.new).reading }
        ensures writing { KeepsWriting true (remote_state self.old) (remote_state self.new) }
        ensures makes { ChangesFoldersWhere true (not (is_taken (remote_state self.old) path.now))
            (has_made (remote_state self.old).folders path.now) (remote_state self.old)
            (remote_state self.new) result }
        ensures counts { CountsCall (is_err result) self.old self.new }
        ensures undone { OnErr result
            (FailsDone self.old ⊎ Unchanged (remote_state self.old) (remote_state self.new)) }
        ensures taken { is_taken (remote_state self.old) path.now ≡ true
            → OnErr result (IsToFail self.old) }
    {
        let verdict = self.schedule.tick();
        if verdict == Verdict::Fail {
            return Err(Failed);
        }
        if self.is_taken(path) {
            return verdict.answer(false);
        }
        match self.store.put_folder(self.alloc, path) {
            Ok(()) => verdict.answer(true),
            Err(OutOfMemory) => {
                self.schedule.fault();
                Err(Failed)
            }
        }
    }

    fn remove_folder(&mut self, path: &Path) -> Result<bool, Failed>
        ensures call { IsCall (is_err result) (remote_state self.old) (remote_state self.new) }
        ensures reading { KeepsReading true (remote_state self.old).reading
            (remote_state self.new).reading }
        ensures writing { KeepsWriting true (remote_state self.old) (remote_state self.new) }
        ensures removes { ChangesFoldersWhere true
            (is_empty_folder (remote_state self.old) path.now)
            (has_left (remote_state self.old).folders path.now) (remote_state self.old)
            (remote_state self.new) result }
        ensures counts { CountsCall (is_err result) self.old self.new }
        ensures undone { FailsUndone self.old
            → Unchanged (remote_state self.old) (remote_state self.new) }
        ensures why { OnErr result (IsToFail self.old) }
        ensures done { FailsDone self.old → is_empty_folder (remote_state self.old) path.now ≡
            true → ChangesFolders (remote_state self.old) (remote_state self.new)
            (has_left (remote_state self.old).folders path.now) }
    {
        let verdict = self.schedule.tick();
        if verdict == Verdict::Fail {
            return Err(Failed);
        }
        if !self.has_empty_folder(path) {
            return verdict.answer(false);
        }
        folder_maps::remove(&mut self.store.folders, path);
        verdict.answer(true)
    }
}
