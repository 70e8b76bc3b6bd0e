//! What a run is given, in memory.

ghost use Rattle.std.specs.Prelude.{IfOk};
ghost use Rattle.bisync_opts.specs.Ranges.{IsInRange};

use super::files::{has_files, set_files};
use crate::run;
use bisync_device::{Clock, Wakes, Work, WorkName, WorkWakes};
use bisync_memory::{FixedClock, MemRemote, MemSink, MemWork};
use bisync_opts::{OptFault, Opts, read_options};
use bisync_report::End;
use bisync_text::Text;
use bisync_tree::{Limits, Side};
use std::alloc::Global;
use std::test::Fail;

/// The moment of a run that is given no other one, ten minutes after the beginning of 1970.
pub const NOW: i64 = 600_000_000_000;

/// The words between single spaces.
fn words(alloc: Global, line: &str) -> Result<Vec<Text>, OptFault> {
    let mut words = Vec::new(alloc);
    for word in line.split(' ') {
        words.push(Text::from_bytes(alloc, word.as_bytes())?)?;
    }
    Ok(words)
}

/// The options that a line of words gives.
pub fn options(alloc: Global, line: &str) -> Result<Opts, OptFault>
    ensures { IfOk result IsInRange }
{
    let words = match words(alloc, line) {
        Ok(words) => words,
        Err(fault) => return Err(fault),
    };
    read_options(alloc, &words)
}

#[derive(Clone, Copy, Debug, PartialEq, Eq)]
pub enum Device {
    One,
    Two,
    Work,
    Sink,
}

/// Two sides, a work folder and a report.
#[derive(Drop)]
pub struct Devices {
    pub alloc: Global,
    pub one: MemRemote,
    pub two: MemRemote,
    pub work: MemWork,
    pub sink: MemSink,
}

impl Devices {
    pub fn new(alloc: Global) -> Devices {
        Devices {
            alloc,
            one: MemRemote::new(alloc),
            two: MemRemote::new(alloc),
            work: MemWork::new(alloc),
            sink: MemSink::new(alloc),
        }
    }

    /// Puts files on a side, and takes files away.
    pub fn set(&mut self, side: Side, files: &str) -> Result<(), Fail> {
        match side {
            Side::One => set_files(self.alloc, &mut self.one, files),
            Side::Two => set_files(self.alloc, &mut self.two, files),
        }
    }

    /// Whether a side has these files, and no others.
    pub fn has(&mut self, side: Side, files: &str) -> Result<bool, Fail> {
        match side {
            Side::One => has_files(self.alloc, &mut self.one, files),
            Side::Two => has_files(self.alloc, &mut self.two, files),
        }
    }

    /// Lets a call of a device fail.
    pub fn fail_at(&mut self, device: Device, call: u64, done: bool) -> Result<(), Fail> {
        match device {
            Device::One => self.one.fail_at(call, done)?,
            Device::Two => self.two.fail_at(call, done)?,
            Device::Work => self.work.fail_at(call, done)?,
            Device::Sink => self.sink.fail_at(call, done)?,
        }
        Ok(())
    }

    /// The calls of a device so far.
    pub fn calls(&self, device: Device) -> u64 {
        match device {
            Device::One => self.one.calls(),
            Device::Two => self.two.calls(),
            Device::Work => self.work.calls(),
            Device::Sink => self.sink.calls(),
        }
    }

    /// Stops the sides and the work folder after so many more calls of each.
    pub fn stop_after(&mut self, one: u64, two: u64, work: u64) {
        self.one.arm(one);
        self.two.arm(two);
        self.work.arm(work);
    }

    /// Wakes all devices after a stop, and removes the lock.
    pub fn wake(&mut self) -> Result<(), Fail> {
        self.one.wake();
        self.two.wake();
        self.work.wake();
        let _ = self.work.remove(WorkName::Lock)?;
        Ok(())
    }

    /// A run by these words, within these limits and by this clock.
    pub fn run_by<C: Clock>(
        &mut self,
        words: &str,
        limits: &Limits,
        clock: &mut C,
    ) -> Result<End, Fail> {
        let opts = options(self.alloc, words)?;
        Ok(run(
            self.alloc,
            &opts,
            limits,
            &mut self.one,
            &mut self.two,
            &mut self.work,
            clock,
            &mut self.sink,
        ))
    }

    /// A run by these words.
    pub fn run(&mut self, words: &str) -> Result<End, Fail> {
        self.run_by(words, &Limits::REAL, &mut FixedClock::new(NOW))
    }
}
