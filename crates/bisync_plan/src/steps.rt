//! The steps of a run.

ghost use Rattle.std.specs.Prelude.{◌≡◌, ◌++◌, [], Bool, OnOk, IfOk, flat_map};
ghost use Rattle.bisync_tree.specs.Rows.{PathBytes};
ghost use Rattle.bisync_tree.specs.Walk.{cells, listings, listings_of, paths_of};
ghost use Rattle.bisync_model.specs.Views.{known_of, resync_known_of, IsNarrowed};
ghost use Rattle.bisync_model.specs.Names.{AreNames};
ghost use Rattle.bisync_model.specs.Plan.{plan as plan_of};
ghost use Rattle.bisync_model.specs.Resync.{resync_plan};
ghost use Rattle.bisync_plan.specs.Conditions.{HasPassing};
ghost use Rattle.bisync_plan.specs.CellSteps.{deletes_in, moves_with, copies_in};

use crate::cells::source_of_cell;
use crate::moves::{push_copy_from, push_deletes, push_moves};
use bisync_table::laws::cells_have_the_rules_of_their_paths;
use bisync_text::OutOfMemory;
use bisync_tree::{Compare, ConflictRule, Given, Listing, Prefer, Step, View, Walk, Window};
use std::alloc::Global;

/// Adds all deletes of a run.
fn push_all_deletes(
    alloc: Global,
    steps: &mut Vec<Step>,
    compare: &Compare,
    view: &View,
) -> Result<(), OutOfMemory>
    ensures { OnOk result (steps.new.items ≡ steps.old.items ++ flat_map (deletes_in compare.now) (cells (listings_of view.now))) }
{
    let mut walk = Walk::new(view);
    while let Some(cell) = walk.next() {
        push_deletes(alloc, steps, compare, &cell)?;
    }
    Ok(())
}

/// Adds all other steps of a run.
fn push_all_moves(
    alloc: Global,
    steps: &mut Vec<Step>,
    conflict: &ConflictRule,
    compare: &Compare,
    view: &View,
    given: &[Given],
) -> Result<(), OutOfMemory>
    ensures { OnOk result (steps.new.items ≡ steps.old.items ++ moves_with conflict.now compare.now (cells (listings_of view.now)) given.now) }
{
    let mut names = given;
    let mut walk = Walk::new(view);
    while let Some(cell) = walk.next() {
        names = push_moves(alloc, steps, names, conflict, compare, &cell)?;
    }
    Ok(())
}

/// The steps of a run with these names: first all deletes, then the steps of all other paths, path
/// by path.
pub(crate) fn steps(
    alloc: Global,
    conflict: &ConflictRule,
    compare: &Compare,
    view: &View,
    given: &[Given],
) -> Result<Vec<Step>, OutOfMemory>
    ensures { IfOk result (λ steps. (passes : PathBytes → Bool) (window1 window2 : Window) → IsNarrowed passes view.now
        → AreNames (known_of conflict.now compare.now passes window1 window2 view.now) (paths_of (listings_of view.now)) given.now
        → steps.items ≡ plan_of (known_of conflict.now compare.now passes window1 window2 view.now) given.now (paths_of (listings_of view.now))) }
{
    cells_have_the_rules_of_their_paths();
    let mut steps = Vec::new(alloc);
    push_all_deletes(alloc, &mut steps, compare, view)?;
    push_all_moves(alloc, &mut steps, conflict, compare, view, given)?;
    Ok(steps)
}

/// The copies of a resync, path by path.
pub(crate) fn resync_steps(
    alloc: Global,
    mode: Prefer,
    compare: &Compare,
    now1: &Listing,
    now2: &Listing,
) -> Result<Vec<Step>, OutOfMemory>
    ensures copies { IfOk result (λ steps. steps.items ≡ flat_map (copies_in mode compare.now) (cells (listings [] [] now1.now now2.now))) }
    ensures plan { IfOk result (λ steps. (passes : PathBytes → Bool) (window1 window2 : Window)
        → HasPassing passes now1.now → HasPassing passes now2.now
        → steps.items ≡ resync_plan (resync_known_of mode compare.now passes window1 window2 now1.now now2.now) (paths_of (listings [] [] now1.now now2.now))) }
{
    let none = Listing::new(alloc);
    let mut steps = Vec::new(alloc);
    let mut walk = Walk::over(&none, &none, now1, now2);
    while let Some(cell) = walk.next() {
        let from = source_of_cell(mode, compare, &cell);
        push_copy_from(alloc, &mut steps, &cell, from)?;
    }
    Ok(steps)
}
