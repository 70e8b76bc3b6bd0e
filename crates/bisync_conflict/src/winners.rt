//! The file that wins a conflict.

ghost use Rattle.std.specs.Prelude.{◌≡◌, option_copied};
ghost use Rattle.bisync_tree.specs.Walk.{seen};
ghost use Rattle.bisync_model.specs.Conflict.{winner as winner_by, winner_of, ahead as ahead_of};
ghost use Rattle.bisync_conflict.specs.Cells.{winner_in};

use bisync_tree::{Cell, Compare, ConflictRule, Entry, Prefer, Side, Window};

/// The side whose file wins a conflict of these entries on Path1 and Path2. None exactly where
/// nobody is preferred or the preferred number doesn't differ. Takes no memory.
pub fn winner(prefer: Prefer, window: Window, one: &Entry, two: &Entry) -> Option<Side>
    ensures { result ≡ winner_by prefer window one.now two.now }
{
    let time1 = window.number(one.time);
    let time2 = window.number(two.time);
    match prefer {
        Prefer::Nobody => None,
        Prefer::Path1 => Some(Side::One),
        Prefer::Path2 => Some(Side::Two),
        Prefer::Newer => ahead(time2 < time1, time1 < time2),
        Prefer::Older => ahead(time1 < time2, time2 < time1),
        Prefer::Larger => ahead(two.size < one.size, one.size < two.size),
        Prefer::Smaller => ahead(one.size < two.size, two.size < one.size),
    }
}

/// The side whose file wins a conflict at a cell. None also where one of the files isn't there.
/// Takes no memory.
pub fn winner_of_cell(conflict: &ConflictRule, compare: &Compare, cell: &Cell<'_>) -> Option<Side>
    ensures { result ≡ winner_in conflict.now compare.now (seen cell.now) }
{
    winner_of_two(conflict.prefer, compare.window, cell.now1, cell.now2)
}

/// The same of entries that may be absent.
fn winner_of_two(
    prefer: Prefer,
    window: Window,
    one: Option<&Entry>,
    two: Option<&Entry>,
) -> Option<Side>
    ensures { result ≡ winner_of prefer window (option_copied one.entry) (option_copied two.entry) }
{
    match (one, two) {
        (Some(one), Some(two)) => winner(prefer, window, one, two),
        _ => None,
    }
}

/// The side that is ahead of the other, if one is.
fn ahead(one: bool, two: bool) -> Option<Side>
    ensures { result ≡ ahead_of one two }
{
    if one {
        Some(Side::One)
    } else if two {
        Some(Side::Two)
    } else {
        None
    }
}
