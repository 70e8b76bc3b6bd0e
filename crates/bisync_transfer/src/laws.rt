//! Laws on steps. Each is the contract of a function that does nothing.

ghost use Rattle.std.specs.Prelude.{◌≡◌, ◌+◌, [], List, Bool, IsTrue, Result};
ghost use Rattle.bisync_device.specs.Remote.{RemoteState};
ghost use Rattle.bisync_model.specs.Changes.{changes_of};
ghost use Rattle.bisync_model.specs.Finds.{FindsFile};
ghost use Rattle.bisync_model.specs.Trees.{Trees, SameTrees};
ghost use Rattle.bisync_transfer.specs.StepEffect.{HasStepFile, IsDone, Performs, source_of};
ghost use Rattle.bisync_transfer.specs.StepTrees.{AreDone, GoesOn, KeepsWindows, Leaves, trees_in};

use crate::StepFault;
use bisync_tree::{Compare, Side, Step};

/// Where both remotes tell what they hold, a step leaves its effect in the two trees, and its
/// changes are counted; or trees and counts are as they were, which they are after `Moved`.
pub fn a_step_leaves_its_effect_or_nothing()
    ensures { (tells : Side → Bool) (step : Step) (before after : Side → RemoteState) (answer : Result (Unit {0}) StepFault) →
        IsTrue (tells Side.One) → IsTrue (tells Side.Two) →
        Performs tells step before after answer → Leaves step before after answer }
{}

/// Each side that tells counts the changes of a step that was done.
pub fn a_step_done_counts_its_changes()
    ensures { (tells : Side → Bool) (step : Step) (before after : Side → RemoteState) →
        IsDone tells step before after → (side : Side) → IsTrue (tells side) →
        (after side).changes ≡ (before side).changes + changes_of side step }
{}

/// Steps that are done one after another leave what all of them together do. This is what a loop
/// over steps keeps.
pub fn steps_are_done_one_after_another()
    ensures none { (start : Side → RemoteState) → AreDone [] start start }
    ensures next { (tells : Side → Bool) (steps : List Step) (step : Step)
        (start before after : Side → RemoteState) (answer : Result (Unit {0}) StepFault) →
        IsTrue (tells Side.One) → IsTrue (tells Side.Two) →
        AreDone steps start before → KeepsWindows before after →
        Performs tells step before after answer → GoesOn steps step start after answer }
{}

/// A step that finds its file as it was listed in some trees finds it on remotes that hold these
/// trees, and so isn't answered `Moved` where the source tells what it holds.
pub fn a_listed_file_is_found()
    ensures { (c : Compare) (step : Step) (trees : Trees) (state : Side → RemoteState) →
        SameTrees (trees_in state) trees → FindsFile c step trees →
        HasStepFile step (state (source_of step)) }
{}
