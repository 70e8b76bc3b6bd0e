//! Named rows, moved into a listing in their places.

ghost use Rattle.std.specs.Prelude.{◌≡◌, ◌++◌, ◌∷◌, [], true, false, OnOk, MatchOption};
ghost use Rattle.bisync_tree.specs.Rows.{keys, AreRising};
ghost use Rattle.bisync_plan.specs.MergedRows.{begins_before, rows_before, rows_from};

use bisync_text::{OutOfMemory, Path};
use bisync_tree::{Entry, Listing};
use std::collections::BTreeMap;

/// Rows in the order of their paths.
pub(crate) type RowMap = BTreeMap<Path, Entry>;

/// Takes the first row, if it comes before the path.
fn pop_before(rows: &mut RowMap, path: &Path) -> Option<(Path, Entry)>
    ensures row { MatchOption result (begins_before path.now rows.old.entries ≡ false) (λ row. begins_before path.now rows.old.entries ≡ true) }
    ensures rest { MatchOption result (rows.new.entries ≡ rows.old.entries) (λ row. rows.old.entries ≡ row ∷ rows.new.entries) }
{
    let is_before = match rows.first_key_value() {
        Some((first, _)) => first.cmp(path).is_lt(),
        None => false,
    };
    if is_before { rows.pop_first() } else { None }
}

/// Moves the rows that come before the path to the end of the listing.
pub(crate) fn push_before(
    listing: &mut Listing,
    rows: &mut RowMap,
    path: &Path,
) -> Result<(), OutOfMemory>
    requires rising { AreRising (keys (listing.old ++ rows_before path.now rows.old.entries)) }
    ensures listing { OnOk result (listing.new ≡ listing.old ++ rows_before path.now rows.old.entries) }
    ensures rest { OnOk result (rows.new.entries ≡ rows_from path.now rows.old.entries) }
{
    while let Some((first, entry)) = pop_before(rows, path) {
        listing.push(first, entry)?;
    }
    Ok(())
}

/// Moves all rows to the end of the listing.
pub(crate) fn push_rest(listing: &mut Listing, rows: &mut RowMap) -> Result<(), OutOfMemory>
    requires rising { AreRising (keys (listing.old ++ rows.old.entries)) }
    ensures listing { OnOk result (listing.new ≡ listing.old ++ rows.old.entries) }
{
    while let Some((first, entry)) = rows.pop_first() {
        listing.push(first, entry)?;
    }
    Ok(())
}
