ghost use Rattle.std.specs.Prelude.{◌≡◌, ◌∷◌, ◌++◌, [], true, is_err, OnOk, OnErr};
ghost use Rattle.bisync_device.specs.Faults.{HasCause};
ghost use Rattle.bisync_device.specs.Sink.{Adds};
ghost use Rattle.bisync_memory.specs.Acts.{Counts, MayAct, calls_of, failures_of, left_of};
ghost use Rattle.bisync_memory.specs.MemSink.{sink_state, sink_schedule, IsNewSink};

use crate::schedules::{Schedule, Verdict};
use bisync_device::{Failed, Sink};
use bisync_text::OutOfMemory;
use std::alloc::Global;

/// A sink in memory. Its calls are counted from 1.
#[derive(Drop)]
pub struct MemSink {
    bytes: Vec<u8>,
    schedule: Schedule,
}

impl MemSink {
    pub fn new(alloc: Global) -> MemSink
        ensures { IsNewSink result }
    {
        MemSink {
            bytes: Vec::new(alloc),
            schedule: Schedule {
                calls: 0,
                faults: 0,
                left: None,
                failures: Vec::new(alloc),
            },
        }
    }

    /// The bytes so far.
    pub fn bytes(&self) -> &[u8]
        ensures { result.now ≡ (sink_state self.now).bytes }
    {
        &self.bytes
    }

    /// Lets the call of this number fail, with its bytes added or with none of them. The first
    /// failure that is listed for a call counts.
    pub fn fail_at(&mut self, call: u64, done: bool) -> Result<(), OutOfMemory>
        ensures state { sink_state self.new ≡ sink_state self.old }
        ensures ok { OnOk result (failures_of (sink_schedule self.new) ≡ failures_of (sink_schedule self.old) ++ (call, done) ∷ []) }
        ensures err { OnErr result (failures_of (sink_schedule self.new) ≡ failures_of (sink_schedule self.old)) }
        ensures calls { calls_of (sink_schedule self.new) ≡ calls_of (sink_schedule self.old) }
        ensures left { left_of (sink_schedule self.new) ≡ left_of (sink_schedule self.old) }
    {
        self.schedule.failures.push((call, done))?;
        Ok(())
    }

    /// The calls so far, or the greatest `u64`.
    pub fn calls(&self) -> u64
        ensures { result ≡ calls_of (sink_schedule self.now) }
    {
        self.schedule.calls
    }

    /// The faults so far, or the greatest `u64`.
    pub fn faults(&self) -> u64
        ensures { result ≡ (sink_state self.now).faults }
    {
        self.schedule.faults
    }
}

impl Sink for MemSink {
    ghost tells = { true };

    ghost state = { sink_state };

    fn write_all(&mut self, bytes: &[u8]) -> Result<(), Failed>
        ensures cause { HasCause (is_err result) (sink_state self.old).faults (sink_state self.new).faults }
        ensures bytes { Adds true bytes.now (sink_state self.old) (sink_state self.new) result }
        ensures counts { Counts (sink_schedule self.old) (sink_schedule self.new) }
        ensures acts { MayAct (sink_schedule self.old) (sink_state self.old).bytes ((sink_state self.old).bytes ++ bytes.now) (sink_state self.new).bytes result }
    {
        let verdict = self.schedule.tick();
        if verdict == Verdict::Fail {
            return Err(Failed);
        }
        if self.bytes.extend_from_slice(bytes).is_err() {
            self.schedule.fault();
            return Err(Failed);
        }
        verdict.done()
    }
}

#[cfg(test)]
mod tests {
    use super::*;
    use std::test::Fail;

    #[test]
    fn a_listed_write_fails_with_or_without_its_bytes(rt: HostRuntime) -> Result<(), Fail> {
        let cases = [(false, b"a".as_slice()), (true, b"abc".as_slice())];
        for (done, want) in cases {
            let mut sink = MemSink::new(rt.alloc());
            assert!(rt; sink.fail_at(2, done).is_ok());
            assert!(rt; sink.write_all(b"a") == Ok(()));
            assert!(rt; sink.write_all(b"bc") == Err(Failed));
            assert_eq!(rt; sink.bytes(), want);
            assert_eq!(rt; (sink.calls(), sink.faults()), (2, 1));
        }
        Ok(())
    }
}
