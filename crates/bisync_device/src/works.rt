ghost use Rattle.std.specs.Prelude.{◌≡◌, ◌<◌, Bool, length, true, None, Some, is_some, is_err};
ghost use Rattle.bisync_device.specs.Reading.{KeepsReading, Reads};
ghost use Rattle.bisync_device.specs.WorkFolder.{Absent, at, with_held, appended, synced, renamed};
ghost use Rattle.bisync_device.specs.Work.{WorkState, IsWorkCall, IsWorkClosed, KeepsFolder, OpensName, Creates, WritesName, ChangesName, emptied};

use crate::Failed;
use bisync_text::Text;

/// The names of a work folder.
#[derive(Clone, Copy, Debug, PartialEq, Eq)]
pub enum WorkName {
    /// `1.lst`, Path1's listing.
    One,
    /// `2.lst`, Path2's listing.
    Two,
    /// `1.lst-old`.
    OneOld,
    /// `2.lst-old`.
    TwoOld,
    /// `1.lst-new`.
    OneNew,
    /// `2.lst-new`.
    TwoNew,
    /// `1.lst-err`.
    OneErr,
    /// `2.lst-err`.
    TwoErr,
    /// `lock`.
    Lock,
    /// `lock-new`.
    LockNew,
    /// `folders`, the folders of the last good run.
    Folders,
    /// `folders-new`.
    FoldersNew,
    /// The filters file, wherever it lies.
    Filters,
    /// The digest of the filters file, beside it.
    FiltersMd5,
}

/// The folder in which runs keep their listings and their lock: a map from names to bytes, behind
/// calls of which each may fail.
///
/// Bytes that were written and not synced may be any after a stop. One name may be open to be read,
/// and one in writing.
pub trait Work {
    ghost use Rattle.bisync_device.specs.declared.works.WorkName.{WorkName};

    /// Whether the type says what it holds.
    ghost tells: { Bool };

    /// What it holds, its counts, and what is open or in writing.
    ghost state: { Self → WorkState };

    /// Names the folder, the session whose files these are, and the filters file where one is
    /// used, and closes what is open or in writing.
    fn attach(
        &mut self,
        folder: &Text,
        session: &[u8; 32],
        filters: Option<&Text>,
    ) -> Result<(), Failed>
        ensures call { IsWorkCall (is_err result) (state self.old) (state self.new) }
        ensures folder { KeepsFolder tells (state self.old) (state self.new) }
        ensures closed { IsWorkClosed (state self.new) };

    /// Opens a name to be read. True exactly where it is there.
    fn open(&mut self, name: WorkName) -> Result<bool, Failed>
        ensures call { IsWorkCall (is_err result) (state self.old) (state self.new) }
        ensures folder { KeepsFolder tells (state self.old) (state self.new) }
        ensures writing { (state self.new).writing ≡ (state self.old).writing }
        ensures opens { OpensName tells name (state self.old) (state self.new) result };

    /// Puts the next bytes of the open name at the front of the buffer, and answers their number,
    /// which is 0 only at the end. A call that failed closes the name.
    fn read(&mut self, buffer: &mut [u8]) -> Result<usize, Failed>
        requires opened { (state self.old).reading.opened ≡ true }
        requires room { 0 < length buffer.old }
        ensures call { IsWorkCall (is_err result) (state self.old) (state self.new) }
        ensures folder { KeepsFolder tells (state self.old) (state self.new) }
        ensures writing { (state self.new).writing ≡ (state self.old).writing }
        ensures reads { Reads tells buffer.new (state self.old).reading (state self.new).reading result };

    /// Makes a name that isn't there, empty and in writing. False exactly where it is there.
    fn create(&mut self, name: WorkName) -> Result<bool, Failed>
        ensures call { IsWorkCall (is_err result) (state self.old) (state self.new) }
        ensures reading { KeepsReading tells (state self.old).reading (state self.new).reading }
        ensures creates { Creates tells name (state self.old) (state self.new) result };

    /// Makes a name empty and puts it in writing.
    fn begin(&mut self, name: WorkName) -> Result<(), Failed>
        ensures call { IsWorkCall (is_err result) (state self.old) (state self.new) }
        ensures reading { KeepsReading tells (state self.old).reading (state self.new).reading }
        ensures writes { WritesName tells name (emptied name (state self.old).folder) (state self.old) (state self.new) result };

    /// Adds bytes to the name in writing. They aren't synced.
    fn append(&mut self, bytes: &[u8]) -> Result<(), Failed>
        requires writing { is_some (state self.old).writing ≡ true }
        ensures call { IsWorkCall (is_err result) (state self.old) (state self.new) }
        ensures reading { KeepsReading tells (state self.old).reading (state self.new).reading }
        ensures writes { (n : WorkName) → (state self.old).writing ≡ Some n → WritesName tells n (with_held n (appended bytes.now (at (state self.old).folder n)) (state self.old).folder) (state self.old) (state self.new) result };

    /// Makes the bytes of the name in writing last.
    fn sync(&mut self) -> Result<(), Failed>
        requires writing { is_some (state self.old).writing ≡ true }
        ensures call { IsWorkCall (is_err result) (state self.old) (state self.new) }
        ensures reading { KeepsReading tells (state self.old).reading (state self.new).reading }
        ensures writes { (n : WorkName) → (state self.old).writing ≡ Some n → WritesName tells n (with_held n (synced (at (state self.old).folder n)) (state self.old).folder) (state self.old) (state self.new) result };

    /// Moves a name with its bytes over another. False exactly where `from` isn't there. No name
    /// is in writing afterwards.
    fn rename(&mut self, from: WorkName, to: WorkName) -> Result<bool, Failed>
        ensures call { IsWorkCall (is_err result) (state self.old) (state self.new) }
        ensures reading { KeepsReading tells (state self.old).reading (state self.new).reading }
        ensures writing { (state self.new).writing ≡ None }
        ensures renames { ChangesName tells from (renamed from to (state self.old).folder) (state self.old) (state self.new) result };

    /// Takes a name away. False exactly where it isn't there. No name is in writing afterwards.
    fn remove(&mut self, name: WorkName) -> Result<bool, Failed>
        ensures call { IsWorkCall (is_err result) (state self.old) (state self.new) }
        ensures reading { KeepsReading tells (state self.old).reading (state self.new).reading }
        ensures writing { (state self.new).writing ≡ None }
        ensures removes { ChangesName tells name (with_held name Absent (state self.old).folder) (state self.old) (state self.new) result };
}
