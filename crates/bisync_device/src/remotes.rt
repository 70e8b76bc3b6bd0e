ghost use Rattle.std.specs.Prelude.{◌≡◌, ◌<◌, ◌++◌, [], Bool, length, true, false, is_err, is_ok};
ghost use Rattle.bisync_device.specs.Faults.{is_failed};
ghost use Rattle.bisync_device.specs.Reading.{KeepsReading, Reads};
ghost use Rattle.bisync_device.specs.FolderSet.{has_folder, has_for_file};
ghost use Rattle.bisync_device.specs.Remote.{RemoteState, IsCall, IsClosed, KeepsTree, KeepsWriting, Lists, Opens, Writes, Commits, ChangesFile, renamed};
ghost use Rattle.bisync_tree.specs.Tree.{without};

use crate::{Failed, ListFault};
use bisync_text::{Path, Text};
use bisync_tree::{Item, Window};
use std::alloc::Global;

/// A tree of files, behind calls of which each may fail.
///
/// Every call but `window` is counted: in a stop it fails and leaves the tree. One file may be open
/// to be read, and one part, which `commit` gives a path, may be in writing.
pub trait Remote {
    /// Whether the type says what it holds.
    ghost tells: { Bool };

    /// What it holds, its counts, and what is open or in writing.
    ghost state: { Self → RemoteState };

    /// The precision with which it keeps times.
    fn window(&self) -> Window
        ensures { result ≡ (state self.now).window };

    /// Names the root, and closes what is open or in writing.
    fn attach(&mut self, root: &Text) -> Result<(), Failed>
        ensures call { IsCall (is_err result) (state self.old) (state self.new) }
        ensures tree { KeepsTree tells (state self.old) (state self.new) }
        ensures closed { IsClosed (state self.new) };

    /// Adds one item a file to `out`, in any order.
    fn list(&mut self, alloc: Global, out: &mut Vec<Item>) -> Result<(), ListFault>
        ensures call { IsCall (is_failed result) (state self.old) (state self.new) }
        ensures tree { KeepsTree tells (state self.old) (state self.new) }
        ensures reading { KeepsReading tells (state self.old).reading (state self.new).reading }
        ensures writing { KeepsWriting tells (state self.old) (state self.new) }
        ensures items { Lists tells (state self.old).tree out.old.items out.new.items (is_ok result) };

    /// Opens a file to be read. True exactly where it is there.
    fn open(&mut self, path: &Path) -> Result<bool, Failed>
        ensures call { IsCall (is_err result) (state self.old) (state self.new) }
        ensures tree { KeepsTree tells (state self.old) (state self.new) }
        ensures writing { KeepsWriting tells (state self.old) (state self.new) }
        ensures opens { Opens tells path.now (state self.old) (state self.new) result };

    /// Puts the next bytes of the open file at the front of the buffer, and answers their number,
    /// which is 0 only at the end. A call that failed closes the file.
    fn read(&mut self, buffer: &mut [u8]) -> Result<usize, Failed>
        requires opened { (state self.old).reading.opened ≡ true }
        requires room { 0 < length buffer.old }
        ensures call { IsCall (is_err result) (state self.old) (state self.new) }
        ensures tree { KeepsTree tells (state self.old) (state self.new) }
        ensures writing { KeepsWriting tells (state self.old) (state self.new) }
        ensures reads { Reads tells buffer.new (state self.old).reading (state self.new).reading result };

    /// Begins a part, which is empty.
    fn begin(&mut self) -> Result<(), Failed>
        ensures call { IsCall (is_err result) (state self.old) (state self.new) }
        ensures tree { KeepsTree tells (state self.old) (state self.new) }
        ensures reading { KeepsReading tells (state self.old).reading (state self.new).reading }
        ensures writes { Writes tells [] (state self.new) result };

    /// Adds bytes to the part. A call that failed ends it.
    fn append(&mut self, bytes: &[u8]) -> Result<(), Failed>
        requires begun { (state self.old).begun ≡ true }
        ensures call { IsCall (is_err result) (state self.old) (state self.new) }
        ensures tree { KeepsTree tells (state self.old) (state self.new) }
        ensures reading { KeepsReading tells (state self.old).reading (state self.new).reading }
        ensures writes { Writes tells ((state self.old).part ++ bytes.now) (state self.new) result };

    /// Ends the part, and puts it with the time at the path, over what is there. The time is in
    /// nanoseconds since 1970, and is kept in whole windows.
    fn commit(&mut self, path: &Path, time: i64) -> Result<(), Failed>
        requires begun { (state self.old).begun ≡ true }
        ensures call { IsCall (is_err result) (state self.old) (state self.new) }
        ensures reading { KeepsReading tells (state self.old).reading (state self.new).reading }
        ensures ended { (state self.new).begun ≡ false }
        ensures commits { Commits tells path.now time (state self.old) (state self.new) result };

    /// Moves a file over what is at `to`. False exactly where `from` isn't there.
    fn rename(&mut self, from: &Path, to: &Path) -> Result<bool, Failed>
        ensures call { IsCall (is_err result) (state self.old) (state self.new) }
        ensures reading { KeepsReading tells (state self.old).reading (state self.new).reading }
        ensures writing { KeepsWriting tells (state self.old) (state self.new) }
        ensures renames { ChangesFile tells from.now (renamed (state self.old).tree from.now to.now) (has_for_file (state self.old).folders (state self.old).tree to.now) (state self.old) (state self.new) result };

    /// Takes a file away. False exactly where it isn't there.
    fn delete(&mut self, path: &Path) -> Result<bool, Failed>
        ensures call { IsCall (is_err result) (state self.old) (state self.new) }
        ensures reading { KeepsReading tells (state self.old).reading (state self.new).reading }
        ensures writing { KeepsWriting tells (state self.old) (state self.new) }
        ensures deletes { ChangesFile tells path.now (without (state self.old).tree path.now) (has_folder (state self.old).folders) (state self.old) (state self.new) result };
}
