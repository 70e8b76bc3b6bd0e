//! What a test or a list of events does to devices between runs.

ghost use Rattle.std.specs.Prelude.{◌≡◌, Some, IsTrue, is_err, option_copied};
ghost use Rattle.bisync_device.specs.Reading.{KeepsReading};
ghost use Rattle.bisync_device.specs.Remote.{IsEdit, KeepsTree, KeepsWriting, IsWoken, EditsFile};
ghost use Rattle.bisync_device.specs.Work.{IsWorkWoken};

use crate::{Failed, Remote, Work};
use bisync_text::Path;
use bisync_tree::File;

/// A remote that can be made to stop, and woken.
pub trait Wakes: Remote {
    /// Lets it stop after this many more calls. It isn't counted.
    fn arm(&mut self, calls: u64)
        ensures { Self.state self.new ≡ record (Self.state self.old) { left = Some calls } };

    /// Ends the stop. The tree is as it was, and what was open or in writing is closed. It isn't
    /// counted.
    fn wake(&mut self)
        ensures wakes { IsWoken (Self.state self.old) (Self.state self.new) }
        ensures tree { KeepsTree Self.tells (Self.state self.old) (Self.state self.new) };
}

/// A work folder that can be made to stop, and woken.
pub trait WorkWakes: Work {
    /// Lets it stop after this many more calls. It isn't counted.
    fn arm(&mut self, calls: u64)
        ensures { Self.state self.new ≡ record (Self.state self.old) { left = Some calls } };

    /// Ends the stop, and leaves one image: any bytes where some were not synced, and else what
    /// was there. What was open or in writing is closed. It isn't counted.
    fn wake(&mut self)
        ensures { IsWorkWoken Self.tells (Self.state self.old) (Self.state self.new) };
}

/// A remote on which a user edits between runs.
pub trait Edits: Remote {
    /// Puts a file with its time as given, or takes it away where `file` is None. It isn't counted,
    /// and fails in a stop.
    fn edit(&mut self, path: &Path, file: Option<&File>) -> Result<(), Failed>
        ensures call { IsEdit (is_err result) (Self.state self.old) (Self.state self.new) }
        ensures reading { KeepsReading Self.tells (Self.state self.old).reading (Self.state self.new).reading }
        ensures writing { KeepsWriting Self.tells (Self.state self.old) (Self.state self.new) }
        ensures edits { IsTrue Self.tells → EditsFile path.now (option_copied file.entry) (is_err result) (Self.state self.old) (Self.state self.new) };
}
