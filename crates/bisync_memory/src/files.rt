ghost use Rattle.std.specs.Prelude.{◌≡◌, OnOk, OnErr, IfOk, is_ok, option_copied};
ghost use Rattle.std.specs.List.{list_any};
ghost use Rattle.std.specs.FinMap as finmap;
ghost use Rattle.std.specs.Ordering.{nat_cmp};
ghost use Rattle.std.specs.Cmp.Lexicographic.{slice_cmp};
ghost use Rattle.std.specs.BTreeMap.{IsOrdered};
ghost use Rattle.bisync_text.specs.Path.{IsPath};
ghost use Rattle.bisync_tree.specs.Tree.{file_at, put, without};
ghost use Rattle.bisync_tree.specs.Rows.{PathBytes, item_of};
ghost use Rattle.bisync_tree.specs.declared.files.File.{File};
ghost use Rattle.bisync_device.specs.FolderSet.{is_below, holds_file};
ghost use Rattle.bisync_memory.specs.Store.{tree_of, AddsItems};

use crate::folder_maps::is_below;
use bisync_text::{OutOfMemory, Path, Text};
use bisync_tree::{File, Item};
use std::alloc::Global;
use std::collections::BTreeMap;

/// Files in the order of their paths.
pub type Files = BTreeMap<Path, File>;

pub fn file<'a>(files: &'a Files, path: &Path) -> Option<&'a File>
    ensures { option_copied result ≡ file_at (tree_of files.now.entries) path.now }
{
    files.get(path)
}

pub fn copy_file(alloc: Global, file: &File) -> Result<File, OutOfMemory>
    ensures { IfOk result (λ copy. copy ≡ file.now) }
{
    Ok(File {
        bytes: file.bytes.copy(alloc)?,
        time: file.time,
    })
}

pub fn put_file(files: &mut Files, path: Path, file: File) -> Result<(), OutOfMemory>
    ensures ok { OnOk result
        (tree_of files.new.entries ≡ put (tree_of files.old.entries) path file) }
    ensures err { OnErr result (tree_of files.new.entries ≡ tree_of files.old.entries) }
{
    files.insert(path, file)?;
    Ok(())
}

pub fn remove_file(files: &mut Files, path: &Path)
    ensures { tree_of files.new.entries ≡ without (tree_of files.old.entries) path.now }
{
    files.remove(path);
}

/// Whether a file lies below the folder.
pub fn holds_file(files: &Files, folder: &Path) -> bool
    ensures { result ≡ holds_file (tree_of files.now.entries) folder.now }
{
    let _ = files.len();
    let folder = folder.as_bytes();
    files.keys().any(|path| is_below(folder, path.as_bytes()))
}

/// Whether a file is at a parent of the path.
pub fn has_file_above(files: &Files, path: &Path) -> bool
    ensures { result ≡ list_any (λ (e : PathBytes × File). is_below e.0 path.now)
        (finmap.entries (tree_of files.now.entries)) }
{
    let _ = files.len();
    let path = path.as_bytes();
    files.keys().any(|parent| is_below(parent.as_bytes(), path))
}

/// Adds one item a file.
pub fn list_files(files: &Files, alloc: Global, out: &mut Vec<Item>) -> Result<(), OutOfMemory>
    ensures items { AddsItems files.now.entries out.old.items out.new.items (is_ok result) }
    ensures ordered { IsOrdered (slice_cmp nat_cmp) files.now }
{
    let _ = files.len();
    for (path, file) in files {
        out.push(item(alloc, path, file)?)?;
    }
    Ok(())
}

fn item(alloc: Global, path: &Path, file: &File) -> Result<Item, OutOfMemory>
    ensures item { IfOk result (λ item. item ≡ item_of (path.now, file.now)) }
    ensures path { IsPath path.now }
{
    let text = path.as_bytes();
    Ok(Item {
        path: Text::from_bytes(alloc, text)?,
        size: file.bytes.as_bytes().len() as u64,
        time: file.time,
    })
}
