ghost use Rattle.std.specs.Prelude.{◌≡◌, true, Some, None, is_err, IsTrue, OnErr, option_copied};
ghost use Rattle.bisync_device.specs.Reading.{KeepsReading};
ghost use Rattle.bisync_device.specs.Remote.{IsEdit, KeepsTree, KeepsWriting, IsWoken, EditsFile};
ghost use Rattle.bisync_memory.specs.MemRemote.{remote_state, KeepsCounts};

use crate::{MemRemote, files};
use bisync_device::{Edits, Failed, Wakes};
use bisync_text::{OutOfMemory, Path};
use bisync_tree::File;

impl Wakes for MemRemote {
    fn arm(&mut self, calls: u64)
        ensures state { (remote_state self.new) ≡ record (remote_state self.old)
            { left = Some calls } }
        ensures counts { KeepsCounts self.old self.new }
    {
        self.schedule.left = Some(calls);
    }

    fn wake(&mut self)
        ensures wakes { IsWoken (remote_state self.old) (remote_state self.new) }
        ensures tree { KeepsTree true (remote_state self.old) (remote_state self.new) }
        ensures counts { KeepsCounts self.old self.new }
    {
        self.schedule.left = None;
        self.opened = false;
        self.begun = false;
    }
}

impl Edits for MemRemote {
    fn edit(&mut self, path: &Path, file: Option<&File>) -> Result<(), Failed>
        ensures call { IsEdit (is_err result) (remote_state self.old) (remote_state self.new) }
        ensures reading { KeepsReading true (remote_state self.old).reading
            (remote_state self.new).reading }
        ensures writing { KeepsWriting true (remote_state self.old) (remote_state self.new) }
        ensures edits { IsTrue true → EditsFile path.now (option_copied file.entry)
            (is_err result) (remote_state self.old) (remote_state self.new) }
        ensures counts { KeepsCounts self.old self.new }
        ensures taken { file.entry ≡ None → OnErr result ((remote_state self.old).left ≡ Some 0) }
    {
        if self.schedule.left == Some(0) {
            self.schedule.fault();
            return Err(Failed);
        }
        let Some(file) = file else {
            files::remove_file(&mut self.store.files, path);
            return Ok(());
        };
        match self.put(path, file) {
            Ok(()) => Ok(()),
            Err(OutOfMemory) => {
                self.schedule.fault();
                Err(Failed)
            }
        }
    }
}
