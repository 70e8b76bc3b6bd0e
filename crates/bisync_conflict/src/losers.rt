//! The files that lose a conflict and get a name.

ghost use Rattle.std.specs.Prelude.{◌≡◌, ◌++◌, ◌∷◌, [], flat_map, OnOk, IfOk, if◌then◌else◌};
ghost use Rattle.bisync_tree.specs.Walk.{cells, listings_of, seen};
ghost use Rattle.bisync_model.specs.Conflict.{gets_name as gets_name_by};
ghost use Rattle.bisync_conflict.specs.Cells.{loses_in, losers_in};

use crate::winners::winner_of_cell;
use bisync_table::table::rule_of_cell;
use bisync_text::{OutOfMemory, Path};
use bisync_tree::{Cell, Compare, ConflictRule, Loser, Rule, Side, View, Walk};
use std::alloc::Global;

/// The path and the side of a file that loses.
pub(crate) type NamedLoser = (Path, Side);

/// Whether the side's file at a cell is a loser that gets a name: the cell is in conflict, and
/// either nobody wins, or the other side does and losers aren't deleted. Takes no memory.
pub fn loses(conflict: &ConflictRule, compare: &Compare, cell: &Cell<'_>, side: Side) -> bool
    ensures { result ≡ loses_in conflict.now compare.now (seen cell.now) side }
{
    match rule_of_cell(compare, cell) {
        Rule::Conflict => {
            gets_name(
                conflict.loser,
                winner_of_cell(conflict, compare, cell),
                side,
            )
        }
        _ => false,
    }
}

/// Whether a side's file gets a name in a conflict with this winner: both get one where nobody wins,
/// and else the winner's opposite, unless losers are deleted. Takes no memory.
pub fn gets_name(loser: Loser, winner: Option<Side>, side: Side) -> bool
    ensures { result ≡ gets_name_by loser winner side }
{
    match (loser, winner) {
        (_, None) => true,
        (Loser::Delete, Some(_)) => false,
        (Loser::Num | Loser::Pathname, Some(winner)) => side == winner.other(),
    }
}

/// The losers of a view that get a name, in the order in which they get it. Takes no memory where
/// there are none.
pub(crate) fn named_losers(
    alloc: Global,
    conflict: &ConflictRule,
    compare: &Compare,
    view: &View,
) -> Result<Vec<NamedLoser>, OutOfMemory>
    ensures { IfOk result (λ losers. losers.items ≡ flat_map (losers_in conflict.now compare.now) (cells (listings_of view.now))) }
{
    let mut losers = Vec::new(alloc);
    let mut walk = Walk::new(view);
    while let Some(cell) = walk.next() {
        push_losers(alloc, &mut losers, conflict, compare, &cell)?;
    }
    Ok(losers)
}

/// Adds the losers of a cell that get a name.
fn push_losers(
    alloc: Global,
    losers: &mut Vec<NamedLoser>,
    conflict: &ConflictRule,
    compare: &Compare,
    cell: &Cell<'_>,
) -> Result<(), OutOfMemory>
    ensures { OnOk result (losers.new.items ≡ losers.old.items ++ losers_in conflict.now compare.now (seen cell.now)) }
{
    let one = loses(conflict, compare, cell, Side::One);
    push_where(alloc, losers, one, cell.path, Side::One)?;
    let two = loses(conflict, compare, cell, Side::Two);
    push_where(alloc, losers, two, cell.path, Side::Two)
}

/// Adds a side's file at a path, where it loses.
fn push_where(
    alloc: Global,
    losers: &mut Vec<NamedLoser>,
    loses: bool,
    path: &Path,
    side: Side,
) -> Result<(), OutOfMemory>
    ensures { OnOk result (losers.new.items ≡ losers.old.items ++ (if loses then (path.now, side) ∷ [] else [])) }
{
    if loses {
        losers.push((path.copy(alloc)?, side))?;
    }
    Ok(())
}
