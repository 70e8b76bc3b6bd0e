ghost use Rattle.std.specs.Prelude.{◌≡◌};
ghost use Rattle.bisync_memory.specs.WorkFiles.{held, woken};

use crate::work_files::Stored;

/// What a stop leaves of bytes that were written and not synced. The name stays there, and its
/// bytes are still not synced.
#[derive(Clone, Copy, Debug, PartialEq, Eq)]
pub enum LooseMode {
    /// All the bytes.
    Keep,
    /// No byte.
    Empty,
    /// The first half, rounded down.
    Half,
}

impl LooseMode {
    pub(crate) fn wake(self, file: &mut Option<Stored>)
        ensures { held file.new ≡ woken self (held file.old) }
    {
        let Some(stored) = file else {
            return;
        };
        if stored.kept {
            return;
        }
        match self {
            LooseMode::Keep => {}
            LooseMode::Empty => stored.bytes.clear(),
            LooseMode::Half => stored.bytes.truncate(stored.bytes.len() / 2),
        }
    }
}
