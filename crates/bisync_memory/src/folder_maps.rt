ghost use Rattle.std.specs.Prelude.{◌≡◌, ◌&&◌, ◌||◌, true, false, is_ok, IfOk, OnOk, MatchOption};
ghost use Rattle.std.specs.Ordering.{nat_cmp};
ghost use Rattle.std.specs.Cmp.Lexicographic.{slice_cmp};
ghost use Rattle.std.specs.BTreeMap.{IsOrdered};
ghost use Rattle.bisync_tree.specs.Rows.{PathBytes};
ghost use Rattle.bisync_device.specs.FolderSet.{has_folder, is_below, has_above, holds_folder};
ghost use Rattle.bisync_device.specs.RemoteFolders.{has_made, has_left};
ghost use Rattle.bisync_memory.specs.Store.{folder_set, HasFolders, has_cleared, AddsTexts};

use crate::folder_names::FolderName;
use bisync_text::{OutOfMemory, Path, Text};
use std::alloc::Global;
use std::collections::BTreeMap;

/// Folders in the order of their names.
pub type FolderMap = BTreeMap<FolderName, ()>;

const PARTIAL_NAME: &[u8] = b".bisync-partial";

/// Whether a path lies below a folder, at any depth.
pub fn is_below(folder: &[u8], path: &[u8]) -> bool
    ensures { result ≡ is_below folder.now path.now }
{
    if path.len() <= folder.len() {
        return false;
    }
    if path[folder.len()] != b'/' {
        return false;
    }
    path.starts_with(folder)
}

/// Whether a folder is there.
pub fn has(folders: &FolderMap, text: &[u8]) -> bool
    ensures { result ≡ has_folder (folder_set folders.now.entries) text.now }
{
    folders.keys().any(|name| name.as_bytes() == text)
}

/// Whether a folder lies below this one.
pub fn holds_folder(folders: &FolderMap, path: &Path) -> bool
    ensures { result ≡ holds_folder (folder_set folders.now.entries) path.now }
{
    let _ = folders.len();
    let path = path.as_bytes();
    folders.keys().any(|name| is_below(path, name.as_bytes()))
}

/// Whether a folder above the path is missing.
fn lacks_above(folders: &FolderMap, path: &Path) -> bool
    ensures { result ≡ false → HasFolders folders.now.entries
        (has_above (folder_set folders.now.entries) path.now) }
{
    let text = path.as_bytes();
    for (i, byte) in text.iter().enumerate() {
        if *byte != b'/' {
            continue;
        }
        if !has(folders, &text[..i]) {
            return true;
        }
    }
    false
}

fn copy(folders: &FolderMap, alloc: Global) -> Result<FolderMap, OutOfMemory>
    ensures { IfOk result
        (λ copy. HasFolders copy.entries (has_folder (folder_set folders.now.entries))) }
{
    let mut copy = BTreeMap::new(alloc);
    for name in folders.keys() {
        copy.insert(name.copy(alloc)?, ())?;
    }
    Ok(copy)
}

/// Adds the folders above the path. Where memory is refused, some of them may be added.
fn add_above(folders: &mut FolderMap, alloc: Global, path: &Path) -> Result<(), OutOfMemory>
    ensures { OnOk result
        (HasFolders folders.new.entries (has_above (folder_set folders.old.entries) path.now)) }
{
    let text = path.as_bytes();
    for (i, byte) in text.iter().enumerate() {
        if *byte != b'/' {
            continue;
        }
        folders.insert(FolderName::above(alloc, path, i)?, ())?;
    }
    Ok(())
}

/// The folders with those above the path, or None where none of these is missing.
pub fn grown(
    folders: &FolderMap,
    alloc: Global,
    path: &Path,
) -> Result<Option<FolderMap>, OutOfMemory>
    ensures { IfOk result
        (λ grown. MatchOption grown
        (HasFolders folders.now.entries (has_above (folder_set folders.now.entries) path.now))
        (λ map. HasFolders map.entries (has_above (folder_set folders.now.entries) path.now))) }
{
    if !lacks_above(folders, path) {
        return Ok(None);
    }
    let mut grown = copy(folders, alloc)?;
    add_above(&mut grown, alloc, path)?;
    Ok(Some(grown))
}

/// The folders with this one and those above it.
pub fn with_folder(
    folders: &FolderMap,
    alloc: Global,
    path: &Path,
) -> Result<FolderMap, OutOfMemory>
    ensures { IfOk result
        (λ made. HasFolders made.entries (has_made (folder_set folders.now.entries) path.now)) }
{
    let mut made = copy(folders, alloc)?;
    add_above(&mut made, alloc, path)?;
    made.insert(FolderName::at(alloc, path)?, ())?;
    Ok(made)
}

/// Takes a folder away.
pub fn remove(folders: &mut FolderMap, path: &Path)
    ensures { HasFolders folders.new.entries (has_left (folder_set folders.old.entries) path.now) }
{
    let path = path.as_bytes();
    folders.retain(|name, _| name.as_bytes() != path);
}

/// Takes a folder away with those below it.
pub fn clear(folders: &mut FolderMap, path: &Path)
    ensures { HasFolders folders.new.entries
        (has_cleared (folder_set folders.old.entries) path.now) }
{
    let path = path.as_bytes();
    folders.retain(|name, _| {
        let name = name.as_bytes();
        name != path && !is_below(path, name)
    });
}

/// Adds one text a folder, but none for the partial file's name.
pub fn list_folders(
    folders: &FolderMap,
    alloc: Global,
    out: &mut Vec<Text>,
) -> Result<(), OutOfMemory>
    ensures texts { AddsTexts folders.now.entries out.old.items out.new.items (is_ok result) }
    ensures ordered { IsOrdered (slice_cmp nat_cmp) folders.now }
{
    let _ = folders.len();
    for name in folders.keys() {
        let name = name.as_bytes();
        if name == PARTIAL_NAME {
            continue;
        }
        out.push(Text::from_bytes(alloc, name)?)?;
    }
    Ok(())
}
