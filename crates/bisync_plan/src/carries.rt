//! What a final listing says of a path.

ghost use Rattle.std.specs.Prelude.{◌≡◌};
ghost use Rattle.bisync_tree.specs.Walk.{seen};
ghost use Rattle.bisync_model.specs.Finals.{brought_entry};
ghost use Rattle.bisync_plan.specs.CellRows.{carried_in, kept_in, resynced_in, carried_at};

use crate::cells::{now, source_of_cell};
use bisync_conflict::winners::winner_of_cell;
use bisync_table::table::rule_of_cell;
use bisync_tree::{Cell, Compare, ConflictRule, Entry, Given, Prefer, Rule, Side, View, Window};

/// The entry of a file that is brought to a side which keeps times in this window.
fn brought(window: Window, entry: &Entry) -> Entry
    ensures { result ≡ brought_entry window entry.now }
{
    Entry {
        size: entry.size,
        time: window.brought(entry.time),
        hash: entry.hash,
    }
}

/// What a side has of a file that the side `from` keeps and the other gets.
fn carried(cell: &Cell<'_>, from: Side, side: Side, window: Window) -> Option<Entry>
    ensures { result ≡ carried_in (seen cell.now) from side window }
{
    let entry = now(cell, from)?;
    if from == side {
        Some(*entry)
    } else {
        Some(brought(window, entry))
    }
}

/// What the final listing of a side says of a cell's path, where it is no given name.
pub(crate) fn kept(
    conflict: &ConflictRule,
    compare: &Compare,
    cell: &Cell<'_>,
    side: Side,
    window: Window,
) -> Option<Entry>
    ensures { result ≡ kept_in conflict.now compare.now window side (seen cell.now) }
{
    match rule_of_cell(compare, cell) {
        Rule::Nothing => now(cell, side).copied(),
        Rule::Copy(from) => carried(cell, from, side, window),
        Rule::Delete(_) => None,
        Rule::Conflict => {
            let winner = winner_of_cell(conflict, compare, cell)?;
            carried(cell, winner, side, window)
        }
    }
}

/// The same of a resync.
pub(crate) fn resynced(
    mode: Prefer,
    compare: &Compare,
    cell: &Cell<'_>,
    side: Side,
    window: Window,
) -> Option<Entry>
    ensures { result ≡ resynced_in mode compare.now window side (seen cell.now) }
{
    match source_of_cell(mode, compare, cell) {
        Some(from) => carried(cell, from, side, window),
        None => now(cell, side).copied(),
    }
}

/// What the final listing of a side says of the name that a loser gets.
pub(crate) fn carried_to(view: &View, given: &Given, side: Side, window: Window) -> Option<Entry>
    ensures { result ≡ carried_at view.now given.now side window }
{
    let listed = match given.side {
        Side::One => view.now1.get(&given.path),
        Side::Two => view.now2.get(&given.path),
    };
    let entry = listed?;
    if given.side == side {
        Some(entry)
    } else {
        Some(brought(window, &entry))
    }
}
