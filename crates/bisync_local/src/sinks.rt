ghost use Rattle.std.specs.Prelude.{◌≡◌, false};
ghost use Rattle.bisync_local.specs.Devices.{stdout_state};

use crate::faults::Faults;
use bisync_device::{Failed, Sink};

/// Standard output. What was written is out when a call returns.
#[derive(Drop)]
pub struct StdoutSink<'a, R> {
    rt: &'a R,
    faults: Faults,
}

impl<'a, R: Print> StdoutSink<'a, R> {
    pub fn new(rt: &'a R) -> StdoutSink<'a, R>
        ensures { (stdout_state result).faults ≡ 0 }
    {
        StdoutSink {
            rt,
            faults: Faults::new(),
        }
    }

    /// The faults so far, or the greatest `u64`.
    pub fn faults(&self) -> u64
        ensures { result ≡ (stdout_state self.now).faults }
    {
        self.faults.count
    }
}

impl<'a, R: Print> Sink for StdoutSink<'a, R> {
    ghost tells = { false };

    ghost state = { stdout_state };

    fn write_all(&mut self, bytes: &[u8]) -> Result<(), Failed> {
        let outcome = self.rt.write_all(bytes);
        self.faults.answer(outcome)
    }
}
