ghost use Rattle.std.specs.Prelude.{◌≡◌, ◌<◌, length, true, None, Some, is_some, is_err};
ghost use Rattle.bisync_device.specs.Reading.{KeepsReading, Reads};
ghost use Rattle.bisync_device.specs.WorkFolder.{Absent, at, with_held, is_there, appended, synced, renamed};
ghost use Rattle.bisync_device.specs.Work.{IsWorkCall, IsWorkClosed, KeepsFolder, OpensName, Creates, WritesName, ChangesName, IsWorkWoken, emptied};
ghost use Rattle.bisync_device.specs.declared.works.WorkName.{WorkName};
ghost use Rattle.bisync_memory.specs.Acts.{Acts, Counts, Goes, KeepsCounts, MayAct, MayGo};
ghost use Rattle.bisync_memory.specs.MemWork.{work_state, work_schedule, loose_mode};
ghost use Rattle.bisync_memory.specs.WorkFiles.{created, woken_folder};

use super::MemWork;
use crate::readings::Reading;
use crate::schedules::Verdict;
use bisync_device::{Failed, Work, WorkName, WorkWakes};
use bisync_text::Text;

impl Work for MemWork {
    ghost tells = { true };

    ghost state = { work_state };

    fn attach(
        &mut self,
        _folder: &Text,
        _session: &[u8; 32],
        _filters: Option<&Text>,
    ) -> Result<(), Failed>
        ensures call { IsWorkCall (is_err result) (work_state self.old) (work_state self.new) }
        ensures folder { KeepsFolder true (work_state self.old) (work_state self.new) }
        ensures closed { IsWorkClosed (work_state self.new) }
        ensures counts { Counts (work_schedule self.old) (work_schedule self.new) }
        ensures mode { loose_mode self.new ≡ loose_mode self.old }
        ensures goes { Goes (work_schedule self.old) result }
    {
        self.opened = false;
        self.writing = None;
        self.schedule.pass()
    }

    fn open(&mut self, name: WorkName) -> Result<bool, Failed>
        ensures call { IsWorkCall (is_err result) (work_state self.old) (work_state self.new) }
        ensures folder { KeepsFolder true (work_state self.old) (work_state self.new) }
        ensures writing { (work_state self.new).writing ≡ (work_state self.old).writing }
        ensures opens { OpensName true name (work_state self.old) (work_state self.new) result }
        ensures counts { Counts (work_schedule self.old) (work_schedule self.new) }
        ensures mode { loose_mode self.new ≡ loose_mode self.old }
        ensures goes { MayGo (work_schedule self.old) (is_there (at (work_state self.old).folder name)) result }
    {
        self.opened = false;
        self.schedule.pass()?;
        let Some(bytes) = self.files.get(name) else {
            return Ok(false);
        };
        let Ok(bytes) = bytes.to_vec(self.alloc) else {
            self.schedule.fault();
            return Err(Failed);
        };
        self.reading = Reading::new(bytes);
        self.opened = true;
        Ok(true)
    }

    fn read(&mut self, buffer: &mut [u8]) -> Result<usize, Failed>
        requires opened { (work_state self.old).reading.opened ≡ true }
        requires room { 0 < length buffer.old }
        ensures call { IsWorkCall (is_err result) (work_state self.old) (work_state self.new) }
        ensures folder { KeepsFolder true (work_state self.old) (work_state self.new) }
        ensures writing { (work_state self.new).writing ≡ (work_state self.old).writing }
        ensures reads { Reads true buffer.new (work_state self.old).reading (work_state self.new).reading result }
        ensures counts { Counts (work_schedule self.old) (work_schedule self.new) }
        ensures mode { loose_mode self.new ≡ loose_mode self.old }
        ensures goes { Goes (work_schedule self.old) result }
    {
        if self.schedule.pass().is_err() {
            self.opened = false;
            return Err(Failed);
        }
        Ok(self.reading.take_into(buffer))
    }

    fn create(&mut self, name: WorkName) -> Result<bool, Failed>
        ensures call { IsWorkCall (is_err result) (work_state self.old) (work_state self.new) }
        ensures reading { KeepsReading true (work_state self.old).reading (work_state self.new).reading }
        ensures creates { Creates true name (work_state self.old) (work_state self.new) result }
        ensures counts { Counts (work_schedule self.old) (work_schedule self.new) }
        ensures mode { loose_mode self.new ≡ loose_mode self.old }
        ensures acts { Acts (work_schedule self.old) (work_state self.old).folder (created name (work_state self.old).folder) (work_state self.new).folder result }
    {
        match self.schedule.tick() {
            Verdict::Go => {
                if !self.files.create(self.alloc, name) {
                    return Ok(false);
                }
                self.writing = Some(name);
                Ok(true)
            }
            Verdict::Fail => {
                self.writing = None;
                Err(Failed)
            }
            Verdict::FailDone => {
                let _ = self.files.create(self.alloc, name);
                self.writing = None;
                Err(Failed)
            }
        }
    }

    fn begin(&mut self, name: WorkName) -> Result<(), Failed>
        ensures call { IsWorkCall (is_err result) (work_state self.old) (work_state self.new) }
        ensures reading { KeepsReading true (work_state self.old).reading (work_state self.new).reading }
        ensures writes { WritesName true name (emptied name (work_state self.old).folder) (work_state self.old) (work_state self.new) result }
        ensures counts { Counts (work_schedule self.old) (work_schedule self.new) }
        ensures mode { loose_mode self.new ≡ loose_mode self.old }
        ensures acts { Acts (work_schedule self.old) (work_state self.old).folder (emptied name (work_state self.old).folder) (work_state self.new).folder result }
    {
        self.writing = None;
        let verdict = self.schedule.tick();
        if verdict == Verdict::Fail {
            return Err(Failed);
        }
        self.files.begin(self.alloc, name);
        if verdict == Verdict::Go {
            self.writing = Some(name);
        }
        verdict.done()
    }

    fn append(&mut self, bytes: &[u8]) -> Result<(), Failed>
        requires writing { is_some (work_state self.old).writing ≡ true }
        ensures call { IsWorkCall (is_err result) (work_state self.old) (work_state self.new) }
        ensures reading { KeepsReading true (work_state self.old).reading (work_state self.new).reading }
        ensures writes { (n : WorkName) → (work_state self.old).writing ≡ Some n → WritesName true n (with_held n (appended bytes.now (at (work_state self.old).folder n)) (work_state self.old).folder) (work_state self.old) (work_state self.new) result }
        ensures counts { Counts (work_schedule self.old) (work_schedule self.new) }
        ensures mode { loose_mode self.new ≡ loose_mode self.old }
        ensures acts { (n : WorkName) → (work_state self.old).writing ≡ Some n → MayAct (work_schedule self.old) (work_state self.old).folder (with_held n (appended bytes.now (at (work_state self.old).folder n)) (work_state self.old).folder) (work_state self.new).folder result }
    {
        let name = self.writing.unwrap();
        self.writing = None;
        let verdict = self.schedule.tick();
        if verdict == Verdict::Fail {
            return Err(Failed);
        }
        if self.files.append(name, bytes).is_err() {
            self.schedule.fault();
            return Err(Failed);
        }
        if verdict == Verdict::Go {
            self.writing = Some(name);
        }
        verdict.done()
    }

    fn sync(&mut self) -> Result<(), Failed>
        requires writing { is_some (work_state self.old).writing ≡ true }
        ensures call { IsWorkCall (is_err result) (work_state self.old) (work_state self.new) }
        ensures reading { KeepsReading true (work_state self.old).reading (work_state self.new).reading }
        ensures writes { (n : WorkName) → (work_state self.old).writing ≡ Some n → WritesName true n (with_held n (synced (at (work_state self.old).folder n)) (work_state self.old).folder) (work_state self.old) (work_state self.new) result }
        ensures counts { Counts (work_schedule self.old) (work_schedule self.new) }
        ensures mode { loose_mode self.new ≡ loose_mode self.old }
        ensures acts { (n : WorkName) → (work_state self.old).writing ≡ Some n → Acts (work_schedule self.old) (work_state self.old).folder (with_held n (synced (at (work_state self.old).folder n)) (work_state self.old).folder) (work_state self.new).folder result }
    {
        let name = self.writing.unwrap();
        self.writing = None;
        let verdict = self.schedule.tick();
        if verdict == Verdict::Fail {
            return Err(Failed);
        }
        self.files.sync(name);
        if verdict == Verdict::Go {
            self.writing = Some(name);
        }
        verdict.done()
    }

    fn rename(&mut self, from: WorkName, to: WorkName) -> Result<bool, Failed>
        ensures call { IsWorkCall (is_err result) (work_state self.old) (work_state self.new) }
        ensures reading { KeepsReading true (work_state self.old).reading (work_state self.new).reading }
        ensures writing { (work_state self.new).writing ≡ None }
        ensures renames { ChangesName true from (renamed from to (work_state self.old).folder) (work_state self.old) (work_state self.new) result }
        ensures counts { Counts (work_schedule self.old) (work_schedule self.new) }
        ensures mode { loose_mode self.new ≡ loose_mode self.old }
        ensures acts { Acts (work_schedule self.old) (work_state self.old).folder (renamed from to (work_state self.old).folder) (work_state self.new).folder result }
    {
        self.writing = None;
        let verdict = self.schedule.tick();
        if verdict == Verdict::Fail {
            return Err(Failed);
        }
        let found = self.files.rename(from, to);
        verdict.answer(found)
    }

    fn remove(&mut self, name: WorkName) -> Result<bool, Failed>
        ensures call { IsWorkCall (is_err result) (work_state self.old) (work_state self.new) }
        ensures reading { KeepsReading true (work_state self.old).reading (work_state self.new).reading }
        ensures writing { (work_state self.new).writing ≡ None }
        ensures removes { ChangesName true name (with_held name Absent (work_state self.old).folder) (work_state self.old) (work_state self.new) result }
        ensures counts { Counts (work_schedule self.old) (work_schedule self.new) }
        ensures mode { loose_mode self.new ≡ loose_mode self.old }
        ensures acts { Acts (work_schedule self.old) (work_state self.old).folder (with_held name Absent (work_state self.old).folder) (work_state self.new).folder result }
    {
        self.writing = None;
        let verdict = self.schedule.tick();
        if verdict == Verdict::Fail {
            return Err(Failed);
        }
        let found = self.files.remove(name);
        verdict.answer(found)
    }
}

impl WorkWakes for MemWork {
    fn arm(&mut self, calls: u64)
        ensures state { work_state self.new ≡ record (work_state self.old) { left = Some calls } }
        ensures counts { KeepsCounts (work_schedule self.old) (work_schedule self.new) }
        ensures mode { loose_mode self.new ≡ loose_mode self.old }
    {
        self.schedule.left = Some(calls);
    }

    fn wake(&mut self)
        ensures woken { IsWorkWoken true (work_state self.old) (work_state self.new) }
        ensures bytes { (work_state self.new).folder ≡ woken_folder (loose_mode self.old) (work_state self.old).folder }
        ensures counts { KeepsCounts (work_schedule self.old) (work_schedule self.new) }
        ensures mode { loose_mode self.new ≡ loose_mode self.old }
    {
        self.files.wake(self.mode);
        self.opened = false;
        self.writing = None;
        self.schedule.left = None;
    }
}
