//! The final listings of a resync.

ghost use Rattle.std.specs.Prelude.{◌≡◌, [], Bool, IfOk};
ghost use Rattle.bisync_tree.specs.Rows.{PathBytes};
ghost use Rattle.bisync_model.specs.Trees.{by_side};
ghost use Rattle.bisync_model.specs.Views.{resync_known_of};
ghost use Rattle.bisync_model.specs.Resync.{resync_entry};
ghost use Rattle.bisync_plan.specs.Conditions.{HasPassing};
ghost use Rattle.bisync_plan.specs.CellRows.{resynced_rows};
ghost use Rattle.bisync_plan.specs.Plans.{AreRowsOf};

use crate::carries::resynced;
use bisync_text::OutOfMemory;
use bisync_tree::{Compare, Listing, Prefer, Side, Walk, Window};
use std::alloc::Global;

/// The final listing of a side, which keeps times in this window.
pub(crate) fn resync_listing(
    alloc: Global,
    mode: Prefer,
    compare: &Compare,
    now1: &Listing,
    now2: &Listing,
    side: Side,
    window: Window,
) -> Result<Listing, OutOfMemory>
    ensures rows { IfOk result (λ listing. listing ≡ resynced_rows mode compare.now window side now1.now now2.now) }
    ensures entries { IfOk result (λ listing. (passes : PathBytes → Bool) (window1 window2 : Window) → by_side window1 window2 side ≡ window
        → HasPassing passes now1.now → HasPassing passes now2.now
        → AreRowsOf (resync_entry (resync_known_of mode compare.now passes window1 window2 now1.now now2.now)) side listing) }
{
    let none = Listing::new(alloc);
    let mut listing = Listing::new(alloc);
    let mut walk = Walk::over(&none, &none, now1, now2);
    while let Some(cell) = walk.next() {
        if let Some(entry) = resynced(mode, compare, &cell, side, window) {
            listing.push(cell.path.copy(alloc)?, entry)?;
        }
    }
    Ok(listing)
}
