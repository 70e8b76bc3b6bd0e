ghost use Rattle.std.specs.Prelude.{◌≡◌, ◌∷◌, ◌++◌, [], OnOk, OnErr};
ghost use Rattle.std.specs.Option.{option_copied};
ghost use Rattle.bisync_device.specs.WorkFolder.{Kept, at, with_held, bytes_of};
ghost use Rattle.bisync_memory.specs.Acts.{KeepsCounts, calls_of, failures_of};
ghost use Rattle.bisync_memory.specs.MemWork.{work_state, work_schedule, loose_mode, IsNewWork};

mod calls;
#[cfg(test)]
mod tests;

use crate::LooseMode;
use crate::readings::Reading;
use crate::schedules::Schedule;
use crate::work_files::WorkFiles;
use bisync_device::WorkName;
use bisync_text::OutOfMemory;
use std::alloc::Global;

/// A work folder in memory. Its calls are counted from 1.
#[derive(Drop)]
pub struct MemWork {
    alloc: Global,
    files: WorkFiles,
    mode: LooseMode,
    opened: bool,
    reading: Reading,
    writing: Option<WorkName>,
    schedule: Schedule,
}

impl MemWork {
    /// A folder in which nothing is there, and whose stops leave all bytes.
    pub fn new(alloc: Global) -> MemWork
        ensures { IsNewWork result }
    {
        MemWork {
            alloc,
            files: WorkFiles::new(),
            mode: LooseMode::Keep,
            opened: false,
            reading: Reading::new(Vec::new(alloc)),
            writing: None,
            schedule: Schedule {
                calls: 0,
                faults: 0,
                left: None,
                failures: Vec::new(alloc),
            },
        }
    }

    /// Puts bytes under a name, as synced. It isn't counted.
    pub fn put(&mut self, name: WorkName, bytes: &[u8]) -> Result<(), OutOfMemory>
        ensures ok { OnOk result (work_state self.new ≡ record (work_state self.old) { folder = with_held name (Kept bytes.now) (work_state self.old).folder }) }
        ensures err { OnErr result (work_state self.new ≡ work_state self.old) }
        ensures counts { KeepsCounts (work_schedule self.old) (work_schedule self.new) }
        ensures mode { loose_mode self.new ≡ loose_mode self.old }
    {
        self.files.put(name, bytes.to_vec(self.alloc)?);
        Ok(())
    }

    /// The bytes under a name. None exactly where it isn't there.
    pub fn get(&self, name: WorkName) -> Option<&[u8]>
        ensures { option_copied result ≡ bytes_of (at (work_state self.now).folder name) }
    {
        self.files.get(name)
    }

    /// Says what a stop leaves of bytes that weren't synced.
    pub fn set_loose(&mut self, mode: LooseMode)
        ensures state { work_state self.new ≡ work_state self.old }
        ensures counts { KeepsCounts (work_schedule self.old) (work_schedule self.new) }
        ensures mode { loose_mode self.new ≡ mode }
    {
        self.mode = mode;
    }

    /// Lets the call of this number fail, with its effect done or not. The first failure that is
    /// listed for a call counts.
    pub fn fail_at(&mut self, call: u64, done: bool) -> Result<(), OutOfMemory>
        ensures state { work_state self.new ≡ work_state self.old }
        ensures ok { OnOk result (failures_of (work_schedule self.new) ≡ failures_of (work_schedule self.old) ++ (call, done) ∷ []) }
        ensures err { OnErr result (failures_of (work_schedule self.new) ≡ failures_of (work_schedule self.old)) }
        ensures calls { calls_of (work_schedule self.new) ≡ calls_of (work_schedule self.old) }
        ensures mode { loose_mode self.new ≡ loose_mode self.old }
    {
        self.schedule.failures.push((call, done))?;
        Ok(())
    }

    /// The calls so far, or the greatest `u64`.
    pub fn calls(&self) -> u64
        ensures { result ≡ calls_of (work_schedule self.now) }
    {
        self.schedule.calls
    }

    /// The faults so far, or the greatest `u64`.
    pub fn faults(&self) -> u64
        ensures { result ≡ (work_state self.now).faults }
    {
        self.schedule.faults
    }
}
