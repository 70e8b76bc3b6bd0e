//! What a cell of a walk says of its path.

ghost use Rattle.std.specs.Prelude.{◌≡◌, option_copied};
ghost use Rattle.bisync_tree.specs.Walk.{seen};
ghost use Rattle.bisync_plan.specs.CellSteps.{now_in, source_in};

use bisync_conflict::winners::winner;
use bisync_tree::{Cell, Compare, Entry, Prefer, Side, same};

/// The entry now of a side.
pub(crate) fn now<'a>(cell: &Cell<'a>, side: Side) -> Option<&'a Entry>
    ensures { option_copied result ≡ now_in (seen cell.now) side }
{
    match side {
        Side::One => cell.now1,
        Side::Two => cell.now2,
    }
}

/// The side whose file a resync copies.
pub(crate) fn source_of_cell(mode: Prefer, compare: &Compare, cell: &Cell<'_>) -> Option<Side>
    ensures { result ≡ source_in mode compare.now (seen cell.now) }
{
    match (cell.now1, cell.now2) {
        (None, None) => None,
        (Some(_), None) => Some(Side::One),
        (None, Some(_)) => Some(Side::Two),
        (Some(one), Some(two)) => {
            if same(compare, cell.now1, cell.now2) {
                None
            } else {
                Some(winner(mode, compare.window, one, two).unwrap_or(Side::One))
            }
        }
    }
}
