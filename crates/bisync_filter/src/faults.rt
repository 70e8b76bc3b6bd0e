ghost use Rattle.std.specs.Prelude.{◌≡◌};
ghost use Rattle.bisync_filter.specs.declared.faults.RuleFault.TheVariants.{OutOfMemory};

use bisync_text::OutOfMemory;
use thiserror::Error;

/// Why a text is no list of rules.
#[derive(Clone, Copy, Debug, PartialEq, Eq, Error)]
pub enum RuleFault {
    /// The number of the first line that is no rule, counted from 1.
    #[error("BadLine")]
    BadLine(u64),
    #[error("OutOfMemory")]
    OutOfMemory,
}

impl From<OutOfMemory> for RuleFault {
    ghost from_gives = { λ _ fault. fault ≡ OutOfMemory };

    fn from(_: OutOfMemory) -> Self {
        RuleFault::OutOfMemory
    }
}
