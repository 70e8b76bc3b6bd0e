use bisync_text::{OutOfMemory, Path};
use bisync_tree::{Entry, Side};

/// Why there is no plan.
#[derive(Drop)]
pub enum PlanFault {
    /// The name of this side's loser at this path would have more than 4,096 bytes.
    TooLong(Side, Path),
    /// The text of this side's final listing has so many bytes, more than the limit, or the greatest
    /// `u64` where it is longer.
    ListingTooLong(Side, u64),
    /// At this path, as the first in byte order, the final listings have these two entries, which
    /// aren't the same.
    OutOfSync(Path, Option<Entry>, Option<Entry>),
    /// Memory was refused.
    OutOfMemory,
}

impl From<OutOfMemory> for PlanFault {
    ghost use Rattle.std.specs.Prelude.{◌≡◌};
    ghost use Rattle.bisync_plan.specs.declared.faults.PlanFault.TheVariants.{OutOfMemory};

    ghost from_gives = { λ _ fault. fault ≡ OutOfMemory };

    fn from(_: OutOfMemory) -> Self {
        PlanFault::OutOfMemory
    }
}
