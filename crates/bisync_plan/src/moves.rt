//! The steps of one path.

ghost use Rattle.std.specs.Prelude.{◌≡◌, ◌++◌, OnOk, IfOk, option_copied};
ghost use Rattle.bisync_tree.specs.Walk.{seen};
ghost use Rattle.bisync_table.specs.Cells.{rule_in};
ghost use Rattle.bisync_model.specs.Plan.{copied, deleted, moved};
ghost use Rattle.bisync_plan.specs.CellSteps.{deletes_in, copied_from, head_name, rest_names, lost_name, lost_rest};
ghost use Rattle.bisync_plan.specs.CellSteps.{both_rest, settling, moves_by, rest_by};

use crate::cells::now;
use bisync_conflict::losers::gets_name;
use bisync_conflict::winners::winner_of_cell;
use bisync_table::table::rule_of_cell;
use bisync_text::{OutOfMemory, Path};
use bisync_tree::{Cell, Compare, ConflictRule, Entry, Given, Rule, Side, Step};
use std::alloc::Global;

/// Adds a copy from this side, where the file is there.
fn push_copy(
    alloc: Global,
    steps: &mut Vec<Step>,
    from: Side,
    path: &Path,
    entry: Option<&Entry>,
) -> Result<(), OutOfMemory>
    ensures { OnOk result (steps.new.items ≡ steps.old.items ++ copied from path.now (option_copied entry.entry)) }
{
    if let Some(entry) = entry {
        steps.push(Step::Copy {
            from,
            path: path.copy(alloc)?,
            entry: *entry,
        })?;
    }
    Ok(())
}

/// Adds a delete on this side, where the file is there.
fn push_delete(
    alloc: Global,
    steps: &mut Vec<Step>,
    side: Side,
    path: &Path,
    entry: Option<&Entry>,
) -> Result<(), OutOfMemory>
    ensures { OnOk result (steps.new.items ≡ steps.old.items ++ deleted side path.now (option_copied entry.entry)) }
{
    if let Some(entry) = entry {
        steps.push(Step::Delete {
            side,
            path: path.copy(alloc)?,
            entry: *entry,
        })?;
    }
    Ok(())
}

/// Adds the rename of a loser and the copy of it, where it is there and has a name.
fn push_moved(
    alloc: Global,
    steps: &mut Vec<Step>,
    side: Side,
    path: &Path,
    name: Option<&Path>,
    entry: Option<&Entry>,
) -> Result<(), OutOfMemory>
    ensures { OnOk result (steps.new.items ≡ steps.old.items ++ moved side path.now (option_copied name.entry) (option_copied entry.entry)) }
{
    if let (Some(name), Some(entry)) = (name, entry) {
        steps.push(Step::Rename {
            side,
            from: path.copy(alloc)?,
            to: name.copy(alloc)?,
            entry: *entry,
        })?;
        steps.push(Step::Copy {
            from: side,
            path: name.copy(alloc)?,
            entry: *entry,
        })?;
    }
    Ok(())
}

/// Adds the copy of the file of this side, if there is one.
pub(crate) fn push_copy_from(
    alloc: Global,
    steps: &mut Vec<Step>,
    cell: &Cell<'_>,
    from: Option<Side>,
) -> Result<(), OutOfMemory>
    ensures { OnOk result (steps.new.items ≡ steps.old.items ++ copied_from (seen cell.now) from) }
{
    match from {
        Some(from) => push_copy(alloc, steps, from, cell.path, now(cell, from)),
        None => Ok(()),
    }
}

/// Adds the delete of a cell, if it has one.
pub(crate) fn push_deletes(
    alloc: Global,
    steps: &mut Vec<Step>,
    compare: &Compare,
    cell: &Cell<'_>,
) -> Result<(), OutOfMemory>
    ensures { OnOk result (steps.new.items ≡ steps.old.items ++ deletes_in compare.now (seen cell.now)) }
{
    match rule_of_cell(compare, cell) {
        Rule::Delete(side) => push_delete(alloc, steps, side, cell.path, now(cell, side)),
        _ => Ok(()),
    }
}

/// The name of this loser, where it stands first, and the names after it.
fn take_name<'a>(names: &'a [Given], path: &Path, side: Side) -> (Option<&'a Path>, &'a [Given])
    ensures name { option_copied result.0 ≡ head_name names.now path.now side }
    ensures rest { result.1.now ≡ rest_names names.now path.now side }
{
    match names.split_first() {
        Some((given, rest)) if *path == given.path && side == given.side => {
            (Some(&given.name), rest)
        }
        _ => (None, names),
    }
}

/// The name of the side's loser at a cell, if it gets one, and the names after it.
fn take_lost<'a>(
    names: &'a [Given],
    conflict: &ConflictRule,
    compare: &Compare,
    cell: &Cell<'_>,
    side: Side,
) -> (Option<&'a Path>, &'a [Given])
    ensures name { option_copied result.0 ≡ lost_name conflict.now compare.now (seen cell.now) side names.now }
    ensures rest { result.1.now ≡ lost_rest conflict.now compare.now (seen cell.now) side names.now }
{
    let winner = winner_of_cell(conflict, compare, cell);
    if gets_name(conflict.loser, winner, side) {
        take_name(names, cell.path, side)
    } else {
        (None, names)
    }
}

/// Adds the steps of a conflict, and answers the names that are left.
fn push_settling<'a>(
    alloc: Global,
    steps: &mut Vec<Step>,
    names: &'a [Given],
    conflict: &ConflictRule,
    compare: &Compare,
    cell: &Cell<'_>,
) -> Result<&'a [Given], OutOfMemory>
    ensures steps { OnOk result (steps.new.items ≡ steps.old.items ++ settling conflict.now compare.now (seen cell.now) names.now) }
    ensures rest { IfOk result (λ rest. rest.now ≡ both_rest conflict.now compare.now (seen cell.now) names.now) }
{
    let (one, others) = take_lost(names, conflict, compare, cell, Side::One);
    let (two, rest) = take_lost(others, conflict, compare, cell, Side::Two);
    let winner = winner_of_cell(conflict, compare, cell);
    push_moved(alloc, steps, Side::One, cell.path, one, cell.now1)?;
    push_moved(alloc, steps, Side::Two, cell.path, two, cell.now2)?;
    push_copy_from(alloc, steps, cell, winner)?;
    Ok(rest)
}

/// Adds the steps of a cell other than its delete, and answers the names that are left.
pub(crate) fn push_moves<'a>(
    alloc: Global,
    steps: &mut Vec<Step>,
    names: &'a [Given],
    conflict: &ConflictRule,
    compare: &Compare,
    cell: &Cell<'_>,
) -> Result<&'a [Given], OutOfMemory>
    ensures steps { OnOk result (steps.new.items ≡ steps.old.items ++ moves_by conflict.now compare.now (seen cell.now) names.now (rule_in compare.now (seen cell.now))) }
    ensures rest { IfOk result (λ rest. rest.now ≡ rest_by conflict.now compare.now (seen cell.now) names.now (rule_in compare.now (seen cell.now))) }
{
    match rule_of_cell(compare, cell) {
        Rule::Copy(from) => {
            push_copy(alloc, steps, from, cell.path, now(cell, from))?;
            Ok(names)
        }
        Rule::Conflict => push_settling(alloc, steps, names, conflict, compare, cell),
        Rule::Nothing | Rule::Delete(_) => Ok(names),
    }
}
