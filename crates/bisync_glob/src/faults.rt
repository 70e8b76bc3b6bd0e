ghost use Rattle.std.specs.Prelude.{◌≡◌};
ghost use Rattle.bisync_glob.specs.declared.faults.PatternFault.TheVariants.{OutOfMemory};

use bisync_text::OutOfMemory;
use thiserror::Error;

/// Why a text is no pattern.
#[derive(Clone, Copy, Debug, PartialEq, Eq, Error)]
pub enum PatternFault {
    /// The place of the fault, a byte offset from 0 in the whole text, and its kind.
    #[error("At")]
    At(u64, FaultKind),
    #[error("OutOfMemory")]
    OutOfMemory,
}

/// The kinds of faults. The first three are tested in this order; of the others the leftmost is told.
#[derive(Clone, Copy, Debug, PartialEq, Eq)]
pub enum FaultKind {
    /// The text has over 1,024 bytes. The place is 1024.
    Long,
    /// The text is not UTF-8. The place is 0.
    NotUtf8,
    /// Nothing is left after a leading `/` was taken off. The place is 0.
    Empty,
    /// Three or more stars in a row. The place is that of the first.
    Stars,
    /// A `[` that begins no class.
    Class,
    /// A `{` inside braces or that no `}` closes, or a `}` outside braces.
    Brace,
    /// A `\` that no `\` escapes, at the end of the text or before an ASCII letter or digit, outside a
    /// class.
    Backslash,
}

impl From<OutOfMemory> for PatternFault {
    ghost from_gives = { λ _ fault. fault ≡ OutOfMemory };

    fn from(_: OutOfMemory) -> Self {
        PatternFault::OutOfMemory
    }
}
