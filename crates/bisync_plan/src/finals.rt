//! The final listings of a run.

ghost use Rattle.std.specs.Prelude.{◌≡◌, IfOk};
ghost use Rattle.bisync_tree.specs.Rows.{keys, AreRising};
ghost use Rattle.bisync_tree.specs.Walk.{listings_of, paths_of};
ghost use Rattle.bisync_model.specs.Trees.{by_side};
ghost use Rattle.bisync_model.specs.Names.{AreNames};
ghost use Rattle.bisync_model.specs.Finals.{final_entry};
ghost use Rattle.bisync_model.specs.Views.{known_of, IsNarrowed, IsComplete};
ghost use Rattle.bisync_filter.specs.Passing.{rules_pass};
ghost use Rattle.bisync_plan.specs.CellRows.{kept_rows};
ghost use Rattle.bisync_plan.specs.MergedRows.{merged};
ghost use Rattle.bisync_plan.specs.Plans.{AreRowsOf};

use crate::carries::kept;
use crate::merges::{RowMap, push_before, push_rest};
use crate::named_rows::named_rows;
use bisync_filter::Rules;
use bisync_table::laws::cells_have_the_rules_of_their_paths;
use bisync_text::OutOfMemory;
use bisync_tree::{Compare, ConflictRule, Given, Listing, Side, View, Walk, Window};
use std::alloc::Global;

/// The window in which a side keeps times.
fn window_of(side: Side, window1: Window, window2: Window) -> Window
    ensures { result ≡ by_side window1 window2 side }
{
    match side {
        Side::One => window1,
        Side::Two => window2,
    }
}

/// The rows of all cells, with the named rows in their places.
fn merged_listing(
    alloc: Global,
    conflict: &ConflictRule,
    compare: &Compare,
    view: &View,
    side: Side,
    window: Window,
    mut named: RowMap,
) -> Result<Listing, OutOfMemory>
    requires rising { AreRising (keys (merged named.entries (kept_rows conflict.now compare.now window side view.now))) }
    ensures { IfOk result (λ listing. listing ≡ merged named.entries (kept_rows conflict.now compare.now window side view.now)) }
{
    let mut listing = Listing::new(alloc);
    let mut walk = Walk::new(view);
    while let Some(cell) = walk.next() {
        if let Some(entry) = kept(conflict, compare, &cell, side, window) {
            push_before(&mut listing, &mut named, cell.path)?;
            listing.push(cell.path.copy(alloc)?, entry)?;
        }
    }
    push_rest(&mut listing, &mut named)?;
    Ok(listing)
}

/// The final listing of a side.
pub(crate) fn final_listing(
    alloc: Global,
    conflict: &ConflictRule,
    compare: &Compare,
    rules: &Rules,
    view: &View,
    given: &[Given],
    side: Side,
    window1: Window,
    window2: Window,
) -> Result<Listing, OutOfMemory>
    requires narrowed { IsNarrowed (rules_pass rules.now) view.now }
    requires complete { IsComplete view.now }
    requires names { AreNames (known_of conflict.now compare.now (rules_pass rules.now) window1 window2 view.now) (paths_of (listings_of view.now)) given.now }
    ensures { IfOk result (λ listing. AreRowsOf (final_entry (known_of conflict.now compare.now (rules_pass rules.now) window1 window2 view.now) given.now) side listing) }
{
    cells_have_the_rules_of_their_paths();
    let window = window_of(side, window1, window2);
    let named = named_rows(alloc, rules, view, given, side, window)?;
    merged_listing(alloc, conflict, compare, view, side, window, named)
}
