//! An ordinary run from its first change on.

ghost use Rattle.std.specs.Prelude.{◌≡◌, ◌⊎◌, ◌<◌, ℕ, IsTrue, IsOk, IfOk, IfErr, OnOk, Some, None, is_err, length, sum_by};
ghost use Rattle.bisync_tree.specs.Ranges.{IsLongEnough};
ghost use Rattle.bisync_tree.specs.declared.entries.Compare.{Compare};
ghost use Rattle.bisync_model.specs.Trees.{by_side};
ghost use Rattle.bisync_model.specs.Changes.{changes_of};
ghost use Rattle.bisync_plan.specs.Plans.{AreWritable, header_of};
ghost use Rattle.bisync_device.specs.Faults.{Rose};
ghost use Rattle.bisync_device.specs.Remote.{KeepsTree};
ghost use Rattle.bisync_device.specs.WorkFolder.{WorkFolder, IsSynced, IsSettled};
ghost use Rattle.bisync_transfer.specs.StepTrees.{AreDone};
ghost use Rattle.bisync_work.specs.declared.bases.Pair.TheVariants.{Old};
ghost use Rattle.bisync_work.specs.Base.{Base, HasBaseIn, IsBase};
ghost use Rattle.bisync_work.specs.Moves.{KeepsBase, SameListings};
ghost use Rattle.bisync_work.specs.Stamps.{IsNewStamp};
ghost use Rattle.bisync_work.specs.WorkCalls.{AreWorkCalls};
ghost use Rattle.bisync_run.specs.CountedChanges.{HasCounted};
ghost use Rattle.bisync_run.specs.Counts.{counts, HasCauses};
ghost use Rattle.bisync_run.specs.EndKinds.{may_have_switched_after};
ghost use Rattle.bisync_run.specs.KeptNames.{IsSideEnd};
ghost use Rattle.bisync_run.specs.LeftNames.{FallsAs, KeepsOwnLock};
ghost use Rattle.bisync_run.specs.LockNew.{KeepsLockNew};
ghost use Rattle.bisync_run.specs.Ordinary.{but_ordinary};
ghost use Rattle.bisync_run.specs.OrdinaryChanges.{IsPrepared, IsSetBack, KeepsOrNext, KeepsOrSwitches, IsNextSet, but_listings};
ghost use Rattle.bisync_run.specs.OwnNames.{HoldsOwn};
ghost use Rattle.bisync_run.specs.ResyncWriting.{next_base};
ghost use Rattle.bisync_run.specs.Stepping.{IsPartDone, FindsAll, FindsTold, IsStepEnd, MovedDiffers, MovedIsRead};

use crate::prepared::Prepared;
use crate::steps::{Changes, Renewal, do_steps};
use bisync_device::{Clock, Failed, Remote, Work};
use bisync_plan::Plan;
use bisync_plan::planning::header;
use bisync_report::End;
use bisync_tree::Side;
use bisync_work::{Pair, set_back, switch, write_new};

/// Writes the new listings, and moves the base from these names to the `-old` names. Takes no memory.
fn write_ordinary<W: Work>(work: &mut W, prepared: &Prepared, pair: Pair) -> Result<(), Failed>
    requires writable { AreWritable (header_of prepared.now.stamp prepared.now.compare) prepared.now.plan }
    ensures keeps { IsTrue W.tells → (limit : ℕ) (before : Base) → HasBaseIn limit (W.state work.old).folder pair before → KeepsBase limit (W.state work.old).folder (W.state work.new).folder }
    ensures settled { IsTrue W.tells → IsSettled (W.state work.old).folder → IsSettled (W.state work.new).folder }
    ensures rest { IsTrue W.tells → but_listings (W.state work.new).folder ≡ but_listings (W.state work.old).folder }
    ensures set_back { IsTrue W.tells → (limit : ℕ) (before : Base) → IsPrepared limit (W.state work.old).folder pair before prepared.now → OnOk result (IsSetBack limit before prepared.now (W.state work.new).folder) }
    ensures names { IsTrue W.tells → (limit : ℕ) (compare : Compare) (k : WorkFolder) → SameListings k (W.state work.old).folder → HoldsOwn limit compare k (W.state work.new).folder }
    ensures falls_as { IsTrue W.tells → OnOk result (FallsAs (W.state work.old).folder (W.state work.new).folder) }
    ensures synced1 { IsTrue W.tells → OnOk result (IsSynced (W.state work.new).folder.one_new) }
    ensures synced2 { IsTrue W.tells → OnOk result (IsSynced (W.state work.new).folder.two_new) }
    ensures calls { AreWorkCalls (is_err result) (W.state work.old) (W.state work.new) }
{
    let header = header(prepared.stamp, &prepared.compare);
    write_new(work, &header, &prepared.plan.final1, &prepared.plan.final2)?;
    set_back(work, pair)?;
    Ok(())
}

/// Writes the new listings, sets the base back, does the steps and makes the new listings the base.
/// Takes no memory.
pub fn carry_out_ordinary<A: Remote, B: Remote, W: Work, C: Clock>(
    prepared: Prepared,
    pair: Pair,
    renewal: Renewal,
    one: &mut A,
    two: &mut B,
    work: &mut W,
    clock: &mut C,
    buffer: &mut [u8],
) -> Result<Changes, End>
    requires room { 0 < length buffer.old }
    requires long { IsLongEnough renewal.max_lock }
    requires writable { AreWritable (header_of prepared.stamp prepared.compare) prepared.plan }
    ensures base { IsTrue A.tells → IsTrue B.tells → IsTrue W.tells → (limit : ℕ) (before : Base) → IsPrepared limit (W.state work.old).folder pair before prepared
        → KeepsOrSwitches limit prepared (W.state work.old).folder (by_side (A.state one.old) (B.state two.old)) (W.state work.new).folder (by_side (A.state one.new) (B.state two.new)) }
    ensures settled { IsTrue W.tells → IsSettled (W.state work.old).folder → IsSettled (W.state work.new).folder }
    ensures rest { IsTrue W.tells → but_ordinary (W.state work.new).folder ≡ but_ordinary (W.state work.old).folder }
    ensures lock_new { IsTrue W.tells → IsOk result ⊎ (Rose (W.state work.old).faults (W.state work.new).faults → ⊥) → KeepsLockNew (W.state work.old).folder (W.state work.new).folder }
    ensures folder_base { IsTrue W.tells → (limit : ℕ) (before : Base) → IsPrepared limit (W.state work.old).folder pair before prepared → KeepsOrNext limit prepared (may_have_switched_after result) (W.state work.old).folder (W.state work.new).folder }
    ensures falls_as { IsTrue W.tells → (Rose (W.state work.old).faults (W.state work.new).faults → ⊥) → IfErr result (λ _. FallsAs (W.state work.old).folder (W.state work.new).folder) }
    ensures own_lock { IsTrue W.tells → KeepsOwnLock renewal.max_lock C.tells (C.moment clock.old) (W.state work.old).folder.lock (W.state work.new).folder.lock }
    ensures set_back { IsTrue W.tells → (limit : ℕ) (before : Base) → IsPrepared limit (W.state work.old).folder pair before prepared
        → (KeepsTree A.tells (A.state one.old) (A.state one.new) × KeepsTree B.tells (B.state two.old) (B.state two.new)) ⊎ (HasBaseIn limit (W.state work.new).folder Old before ⊎ IsBase limit (W.state work.new).folder (Some (next_base prepared))) }
    ensures names { IsTrue W.tells → (limit : ℕ) (before : Base) (k : WorkFolder) → IsPrepared limit (W.state work.old).folder pair before prepared → IsNewStamp limit k prepared.stamp
        → SameListings k (W.state work.old).folder → HoldsOwn limit prepared.compare k (W.state work.new).folder }
    ensures stands { IsTrue W.tells → (limit : ℕ) (before : Base) → IsPrepared limit (W.state work.old).folder pair before prepared → IfErr result (λ end. IsSideEnd end → HasBaseIn limit (W.state work.new).folder Old before) }
    ensures next_set { IsTrue W.tells → (limit : ℕ) (before : Base) → IsPrepared limit (W.state work.old).folder pair before prepared → OnOk result (IsNextSet limit before prepared (W.state work.new).folder) }
    ensures done { IsTrue A.tells → IsTrue B.tells → OnOk result (AreDone prepared.plan.steps.items (by_side (A.state one.old) (B.state two.old)) (by_side (A.state one.new) (B.state two.new))) }
    ensures part { IsTrue A.tells → IsTrue B.tells → IsPartDone prepared.plan.steps.items (by_side (A.state one.old) (B.state two.old)) (by_side (A.state one.new) (B.state two.new)) }
    ensures changes { IfOk result (λ changes. (changes.one ≡ sum_by (changes_of Side.One) prepared.plan.steps.items) × (changes.two ≡ sum_by (changes_of Side.Two) prepared.plan.steps.items)) }
    ensures counted { IfOk result (λ changes. HasCounted (by_side A.tells B.tells) (by_side (A.state one.old) (B.state two.old)) (by_side (A.state one.new) (B.state two.new)) changes.one changes.two) }
    ensures end { IfErr result IsStepEnd }
    ensures moved { IfErr result MovedDiffers }
    ensures read { IfErr result MovedIsRead }
    ensures found { FindsAll (by_side A.tells B.tells) prepared.plan.steps.items (by_side (A.state one.old) (B.state two.old)) → IfErr result (FindsTold (by_side A.tells B.tells)) }
    ensures moment { IsTrue C.tells → C.moment clock.new ≡ C.moment clock.old }
    ensures windows { ((A.state one.new).window ≡ (A.state one.old).window) × ((B.state two.new).window ≡ (B.state two.old).window) }
    ensures left1 { (A.state one.old).left ≡ None → (A.state one.new).left ≡ None }
    ensures left2 { (B.state two.old).left ≡ None → (B.state two.new).left ≡ None }
    ensures left { (W.state work.old).left ≡ None → (W.state work.new).left ≡ None }
    ensures causes { HasCauses (counts (A.state one.old).faults (B.state two.old).faults (W.state work.old).faults 0) (counts (A.state one.new).faults (B.state two.new).faults (W.state work.new).faults 0) result }
{
    match write_ordinary(work, &prepared, pair) {
        Ok(()) => {}
        Err(_) => return Err(End::WorkFault),
    }
    let Prepared { plan, .. } = prepared;
    let Plan { steps, .. } = plan;
    let changes = match do_steps(steps, renewal, one, two, work, clock, buffer) {
        Ok(changes) => changes,
        Err(end) => return Err(end),
    };
    match switch(work) {
        Ok(()) => Ok(changes),
        Err(_) => Err(End::WorkFault),
    }
}
