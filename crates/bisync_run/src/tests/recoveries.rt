//! Runs in which one call fails, or from which on all devices stop, and the run after them.

use super::devices::{Device, Devices};
use super::files::{has_bytes, has_those_of};
use bisync_memory::LooseMode;
use bisync_report::End;
use std::alloc::Global;
use std::test::Fail;

/// What is run, and what has to be there after a second run.
struct Case {
    /// A script that leads to the first run.
    start: &'static str,
    /// The words of both runs.
    words: &'static str,
    /// How the paths end that pass the filter rules.
    passing: &'static str,
    /// What was changed since the last good run: a path, and the bytes that it had.
    changed: &'static [(&'static str, &'static str)],
}

/// All rules but a conflict, and a change that wins over a delete.
const PLAIN: [Case; 2] = [
    Case {
        start: r#"both a.txt=a@10 b.txt=bb@10 c.txt=ccc@10 docs/d.txt=dddd@10 docs/e.txt=eeeee@10 k.txt=kkkkkk@10
base # bisync listing v2 stamp 1 fields size,modtime|- 1 - - 1970-01-01T00:00:10.000000000+0000 "a.txt"|- 2 - - 1970-01-01T00:00:10.000000000+0000 "b.txt"|- 3 - - 1970-01-01T00:00:10.000000000+0000 "c.txt"|- 4 - - 1970-01-01T00:00:10.000000000+0000 "docs/d.txt"|- 5 - - 1970-01-01T00:00:10.000000000+0000 "docs/e.txt"|- 6 - - 1970-01-01T00:00:10.000000000+0000 "k.txt"|# end 6 files|
one c.txt n.txt=new@20
two b.txt=BBB@30"#,
        words: "L R --resilient --recover --conflict-resolve newer --max-lock 2m",
        passing: "",
        changed: &[("n.txt", "new"), ("b.txt", "BBB")],
    },
    Case {
        start: r#"both a=0@1 k=k@1
base # bisync listing v2 stamp 1 fields size,modtime|- 1 - - 1970-01-01T00:00:01.000000000+0000 "a"|- 1 - - 1970-01-01T00:00:01.000000000+0000 "k"|# end 2 files|
one a
two a=22@9"#,
        words: "L R --resilient --recover",
        passing: "",
        changed: &[("a", "22")],
    },
];

/// Nobody wins, Path2 wins, and a conflict with names that don't pass.
const CONFLICTS: [Case; 3] = [
    Case {
        start: r#"both a.txt=0@1 k=k@1
base # bisync listing v2 stamp 1 fields size,modtime|- 1 - - 1970-01-01T00:00:01.000000000+0000 "a.txt"|- 1 - - 1970-01-01T00:00:01.000000000+0000 "k"|# end 2 files|
one a.txt=11@5
two a.txt=222@6"#,
        words: "L R --resilient --recover",
        passing: "",
        changed: &[("a.txt", "11"), ("a.txt", "222")],
    },
    Case {
        start: r#"both a=0@1 a.path1=p@1 k=k@1
base # bisync listing v2 stamp 1 fields size,modtime|- 1 - - 1970-01-01T00:00:01.000000000+0000 "a"|- 1 - - 1970-01-01T00:00:01.000000000+0000 "a.path1"|- 1 - - 1970-01-01T00:00:01.000000000+0000 "k"|# end 3 files|
one a=11@5
two a=222@6"#,
        words: "L R --resilient --recover --conflict-resolve larger --conflict-loser pathname --conflict-suffix path",
        passing: "",
        changed: &[("a", "11"), ("a", "222")],
    },
    Case {
        start: r#"both a.txt=0@1 k.txt=k@1
one raw.bin=r@1
hold filters + *.txt|- *|
hold filters.md5 b7c281083bb787666c108bf082744bc5
base # bisync listing v2 stamp 1 fields size,modtime|- 1 - - 1970-01-01T00:00:01.000000000+0000 "a.txt"|- 1 - - 1970-01-01T00:00:01.000000000+0000 "k.txt"|# end 2 files|
one a.txt=11@5
two a.txt=222@6"#,
        words: "L R --resilient --recover --filters-file F",
        passing: ".txt",
        changed: &[("a.txt", "11"), ("a.txt", "222")],
    },
];

impl Case {
    /// Devices before the first run, of which no call was made.
    fn started(&self, alloc: Global) -> Result<Devices, Fail> {
        let mut devices = Devices::new(alloc);
        match devices.play(self.start)? {
            None => Ok(devices),
            Some(line) => Err(Fail::new(line)),
        }
    }

    /// Devices after a run in which a call failed.
    fn failed(
        &self,
        alloc: Global,
        device: Device,
        call: u64,
        done: bool,
    ) -> Result<Devices, Fail> {
        let mut devices = self.started(alloc)?;
        devices.fail_at(device, call, done)?;
        let _ = devices.run(self.words)?;
        Ok(devices)
    }

    /// Devices after a run which all stopped before that call. The calls that were made are those of a
    /// run in which it fails, but for the last one of the work folder, which removes the lock.
    fn stopped(
        &self,
        failed: &Devices,
        device: Device,
        call: u64,
        mode: LooseMode,
    ) -> Result<Devices, Fail> {
        let mut devices = self.started(failed.alloc)?;
        let before = |other: Device, closing: u64| {
            let calls = failed.calls(other).saturating_sub(closing);
            if other == device {
                call.saturating_sub(1)
            } else {
                calls
            }
        };
        devices.work.set_loose(mode);
        devices.stop_after(
            before(Device::One, 0),
            before(Device::Two, 0),
            before(Device::Work, 1),
        );
        let _ = devices.run(self.words)?;
        Ok(devices)
    }

    /// Whether the next run ends well and nothing is lost.
    fn recovers(&self, devices: &mut Devices) -> Result<bool, Fail> {
        devices.wake()?;
        let is_done = matches!(devices.run(self.words)?, End::Done { .. });
        Ok(is_done && self.agrees(devices)? && self.has_kept(devices)?)
    }

    /// Whether the next run does so after one in which this call failed, with its effect done or not.
    fn outlives_failure(&self, alloc: Global, device: Device, call: u64) -> Result<bool, Fail> {
        for done in [false, true] {
            let mut devices = self.failed(alloc, device, call, done)?;
            if !self.recovers(&mut devices)? {
                return Ok(false);
            }
        }
        Ok(true)
    }

    /// Whether the next run does so after one which all stopped before this call. Only before a call of
    /// the work folder may a name hold bytes that aren't synced.
    fn outlives_stop(&self, alloc: Global, device: Device, call: u64) -> Result<bool, Fail> {
        let failed = self.failed(alloc, device, call, false)?;
        for mode in [LooseMode::Half, LooseMode::Keep, LooseMode::Empty] {
            let mut devices = self.stopped(&failed, device, call, mode)?;
            if !self.recovers(&mut devices)? {
                return Ok(false);
            }
            if device != Device::Work {
                break;
            }
        }
        Ok(true)
    }

    /// Whether both sides have the same files that pass.
    fn agrees(&self, devices: &mut Devices) -> Result<bool, Fail> {
        let alloc = devices.alloc;
        Ok(
            has_those_of(alloc, &mut devices.one, &devices.two, self.passing)?
                && has_those_of(alloc, &mut devices.two, &devices.one, self.passing)?,
        )
    }

    /// Whether all that was changed is on a side, under its path or a name of it.
    fn has_kept(&self, devices: &mut Devices) -> Result<bool, Fail> {
        let alloc = devices.alloc;
        for (path, bytes) in self.changed {
            if !has_bytes(alloc, &mut devices.one, path, bytes)?
                && !has_bytes(alloc, &mut devices.two, path, bytes)?
            {
                return Ok(false);
            }
        }
        Ok(true)
    }

    /// The first call of a device after which a run doesn't go well.
    fn first_wrong(&self, alloc: Global, device: Device) -> Result<Option<u64>, Fail> {
        let mut undisturbed = self.started(alloc)?;
        let _ = undisturbed.run(self.words)?;
        for call in 1..=undisturbed.calls(device) {
            let stops = device != Device::Sink;
            if !self.outlives_failure(alloc, device, call)?
                || stops && !self.outlives_stop(alloc, device, call)?
            {
                return Ok(Some(call));
            }
        }
        Ok(None)
    }
}

/// The first case and the first call of a device in it after which a run doesn't go well.
fn first_wrong(alloc: Global, cases: &[Case]) -> Result<Option<(&'static str, Device, u64)>, Fail> {
    for case in cases {
        for device in [Device::One, Device::Two, Device::Work, Device::Sink] {
            if let Some(call) = case.first_wrong(alloc, device)? {
                return Ok(Some((case.start, device, call)));
            }
        }
    }
    Ok(None)
}

#[test]
fn a_run_after_any_failed_or_stopped_call_loses_no_change(rt: HostRuntime) -> Result<(), Fail> {
    assert_eq!(rt; first_wrong(rt.alloc(), &PLAIN)?, None);
    Ok(())
}

#[test]
fn a_run_after_any_failed_or_stopped_call_loses_no_conflict(rt: HostRuntime) -> Result<(), Fail> {
    assert_eq!(rt; first_wrong(rt.alloc(), &CONFLICTS)?, None);
    Ok(())
}
