//! What a remote lists, as rows in byte order.

ghost use Rattle.std.specs.Prelude.{◌≡◌, IfOk, IfErr, OnOk};
ghost use Rattle.bisync_tree.specs.Rows.{PathBytes};
ghost use Rattle.bisync_observe.specs.Listed.{row_of, rows_of, IsWhyUnread, IsInOrder};

use crate::ObserveFault;
use bisync_text::{OutOfMemory, Path, PathFault};
use bisync_tree::{Entry, Item};
use std::alloc::Global;

/// A path with what was listed of it: an entry with no digest.
pub type Row = (Path, Entry);

/// The items as rows, in the order in which they are listed.
pub fn read_rows(alloc: Global, items: Vec<Item>) -> Result<Vec<Row>, ObserveFault>
    ensures ok { IfOk result (λ rows. rows.items ≡ rows_of items.items) }
    ensures err { IfErr result (λ fault. IsWhyUnread items.items fault) }
{
    let mut rows = Vec::new(alloc);
    for item in items {
        match Path::read(alloc, item.path.as_bytes()) {
            Ok(path) => rows.push((path, listed_entry(&item)))?,
            Err(PathFault::OutOfMemory) => return Err(ObserveFault::OutOfMemory),
            Err(_) => return Err(ObserveFault::BadPath(item.path)),
        }
    }
    Ok(rows)
}

fn listed_entry(item: &Item) -> Entry
    ensures { result ≡ (row_of item.now).1 }
{
    Entry {
        size: item.size,
        time: item.time,
        hash: None,
    }
}

/// Puts rows in byte order of their paths. Of two with one path the earlier stays first.
pub fn put_in_order(rows: &mut Vec<Row>) -> Result<(), OutOfMemory>
    ensures { OnOk result (IsInOrder rows.old.items rows.new.items) }
{
    rows.sort_by(|one, two| one.0.cmp(&two.0))?;
    Ok(())
}
