ghost use Rattle.std.specs.Prelude.{not, is_err, is_ok};
ghost use Rattle.bisync_device.specs.Faults.{is_failed};
ghost use Rattle.bisync_device.specs.Reading.{KeepsReading};
ghost use Rattle.bisync_device.specs.Remote.{IsCall, KeepsTree, KeepsWriting};
ghost use Rattle.bisync_device.specs.RemoteFolders.{ListsFolders, ChangesFoldersWhere, is_taken, is_empty_folder, has_made, has_left};

use crate::{Failed, ListFault, Remote};
use bisync_text::{Path, Text};
use std::alloc::Global;

/// A remote whose folders can be listed, made and removed. The calls leave its files.
pub trait Folders: Remote {
    /// Adds one text a folder to `out`, in any order, and none for a folder `.bisync-partial` at
    /// the root.
    fn list_folders(&mut self, alloc: Global, out: &mut Vec<Text>) -> Result<(), ListFault>
        ensures call { IsCall (is_failed result) (Self.state self.old) (Self.state self.new) }
        ensures tree { KeepsTree Self.tells (Self.state self.old) (Self.state self.new) }
        ensures reading { KeepsReading Self.tells (Self.state self.old).reading (Self.state self.new).reading }
        ensures writing { KeepsWriting Self.tells (Self.state self.old) (Self.state self.new) }
        ensures texts { ListsFolders Self.tells (Self.state self.old).folders out.old.items out.new.items (is_ok result) };

    /// Makes a folder with those above it. False exactly where a folder or a file is at the path,
    /// or a file is at a parent of it.
    fn make_folder(&mut self, path: &Path) -> Result<bool, Failed>
        ensures call { IsCall (is_err result) (Self.state self.old) (Self.state self.new) }
        ensures reading { KeepsReading Self.tells (Self.state self.old).reading (Self.state self.new).reading }
        ensures writing { KeepsWriting Self.tells (Self.state self.old) (Self.state self.new) }
        ensures makes { ChangesFoldersWhere Self.tells (not (is_taken (Self.state self.old) path.now)) (has_made (Self.state self.old).folders path.now) (Self.state self.old) (Self.state self.new) result };

    /// Removes a folder. True exactly where it was there and held neither a file nor a folder.
    fn remove_folder(&mut self, path: &Path) -> Result<bool, Failed>
        ensures call { IsCall (is_err result) (Self.state self.old) (Self.state self.new) }
        ensures reading { KeepsReading Self.tells (Self.state self.old).reading (Self.state self.new).reading }
        ensures writing { KeepsWriting Self.tells (Self.state self.old) (Self.state self.new) }
        ensures removes { ChangesFoldersWhere Self.tells (is_empty_folder (Self.state self.old) path.now) (has_left (Self.state self.old).folders path.now) (Self.state self.old) (Self.state self.new) result };
}
