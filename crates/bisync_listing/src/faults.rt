use bisync_text::OutOfMemory;
use thiserror::Error;

/// Why a text gave no listing.
#[derive(Clone, Copy, Debug, PartialEq, Eq, Error)]
pub enum ListingFault {
    /// The text is no listing text. The number is that of its first bad line, counted from 1.
    #[error("BadLine")]
    BadLine(u64),
    /// Memory was refused.
    #[error("OutOfMemory")]
    OutOfMemory,
}

impl From<OutOfMemory> for ListingFault {
    ghost use Rattle.std.specs.Prelude.{◌≡◌};
    ghost use Rattle.bisync_listing.specs.declared.faults.ListingFault.TheVariants.{OutOfMemory};

    ghost from_gives = { λ _ fault. fault ≡ OutOfMemory };

    fn from(_: OutOfMemory) -> Self {
        ListingFault::OutOfMemory
    }
}
