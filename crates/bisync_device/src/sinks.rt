ghost use Rattle.std.specs.Prelude.{Bool, is_err};
ghost use Rattle.bisync_device.specs.Faults.{HasCause};
ghost use Rattle.bisync_device.specs.Sink.{SinkState, Adds};

use crate::Failed;

/// Where a report goes.
pub trait Sink {
    /// Whether the type says which bytes it holds.
    ghost tells: { Bool };

    /// The bytes so far, and the count of faults.
    ghost state: { Self → SinkState };

    /// Adds the bytes to the bytes so far. A call that failed added a prefix of them.
    fn write_all(&mut self, bytes: &[u8]) -> Result<(), Failed>
        ensures cause { HasCause (is_err result) (state self.old).faults (state self.new).faults }
        ensures bytes { Adds tells bytes.now (state self.old) (state self.new) result };
}
