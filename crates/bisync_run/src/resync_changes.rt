//! A resync from its first change on.

ghost use Rattle.std.specs.Prelude.{◌≡◌, ◌⊎◌, ◌<◌, ◌^◌, ℕ, IsTrue, IsOk, IfOk, IfErr, OnOk, Option, Some, None, length, sum_by};
ghost use Rattle.bisync_tree.specs.Ranges.{IsLongEnough};
ghost use Rattle.bisync_model.specs.Trees.{by_side};
ghost use Rattle.bisync_model.specs.Changes.{changes_of};
ghost use Rattle.bisync_plan.specs.Plans.{AreWritable, header_of};
ghost use Rattle.bisync_device.specs.Faults.{Rose};
ghost use Rattle.bisync_device.specs.Remote.{KeepsTree};
ghost use Rattle.bisync_device.specs.WorkFolder.{WorkFolder, IsSettled};
ghost use Rattle.bisync_transfer.specs.StepTrees.{AreDone};
ghost use Rattle.bisync_work.specs.Base.{Base, IsBase, HasNoBase};
ghost use Rattle.bisync_work.specs.Moves.{IsFallen};
ghost use Rattle.bisync_work.specs.Stamps.{IsNewStamp};
ghost use Rattle.bisync_run.specs.CarryingOut.{AreWithin, LeavesOneBase, LosesOrNext, but_carried, AreCarriedOut};
ghost use Rattle.bisync_run.specs.CountedChanges.{HasCounted};
ghost use Rattle.bisync_run.specs.Counts.{counts, HasCauses};
ghost use Rattle.bisync_run.specs.EndKinds.{may_have_switched_after};
ghost use Rattle.bisync_run.specs.KeptNames.{IsSideEnd};
ghost use Rattle.bisync_run.specs.LeftNames.{FallsAs, FellWith, KeepsOwnLock};
ghost use Rattle.bisync_run.specs.LockNew.{KeepsLockNew};
ghost use Rattle.bisync_run.specs.OwnNames.{HoldsOwn};
ghost use Rattle.bisync_run.specs.ResyncWriting.{next_base, stored};
ghost use Rattle.bisync_run.specs.Stepping.{IsPartDone, FindsAll, FindsTold, IsStepEnd, MovedDiffers, MovedIsRead};

use crate::prepared::Prepared;
use crate::resync_writes::write_resync;
use crate::steps::{Changes, Renewal, do_steps};
use bisync_device::{Clock, Remote, Work};
use bisync_plan::Plan;
use bisync_report::End;
use bisync_tree::Side;
use bisync_work::switch;

/// Writes the new listings, does the steps and makes the new listings the base. Takes no memory.
pub fn carry_out<A: Remote, B: Remote, W: Work, C: Clock>(
    prepared: Prepared,
    digest: &Option<[u8; 16]>,
    renewal: Renewal,
    one: &mut A,
    two: &mut B,
    work: &mut W,
    clock: &mut C,
    buffer: &mut [u8],
) -> Result<Changes, End>
    requires room { 0 < length buffer.old }
    requires long { IsLongEnough renewal.max_lock }
    requires writable { AreWritable (header_of prepared.stamp prepared.compare) prepared.plan }
    ensures base { IsTrue A.tells → IsTrue B.tells → IsTrue W.tells → (limit : ℕ) → limit < 2 ^ 64 → AreWithin limit prepared
        → LeavesOneBase limit prepared (W.state work.old).folder (by_side (A.state one.old) (B.state two.old)) (W.state work.new).folder (by_side (A.state one.new) (B.state two.new)) }
    ensures settled { IsTrue W.tells → IsSettled (W.state work.old).folder → IsSettled (W.state work.new).folder }
    ensures rest { IsTrue W.tells → but_carried (W.state work.new).folder ≡ but_carried (W.state work.old).folder }
    ensures lock_new { IsTrue W.tells → IsOk result ⊎ (Rose (W.state work.old).faults (W.state work.new).faults → ⊥) → KeepsLockNew (W.state work.old).folder (W.state work.new).folder }
    ensures no_digest { IsTrue W.tells → digest.now ≡ None → (W.state work.new).folder.filters_md5 ≡ (W.state work.old).folder.filters_md5 }
    ensures folder_base { IsTrue W.tells → (limit : ℕ) → limit < 2 ^ 64 → AreWithin limit prepared → LosesOrNext limit prepared (may_have_switched_after result) (W.state work.old).folder (W.state work.new).folder }
    ensures falls_as { IsTrue W.tells → (Rose (W.state work.old).faults (W.state work.new).faults → ⊥) → IfErr result (λ _. FallsAs (W.state work.old).folder (W.state work.new).folder) }
    ensures fell { IsTrue W.tells → (Rose (W.state work.old).faults (W.state work.new).faults → ⊥) → IfErr result (λ _. FellWith digest.now (W.state work.old).folder (W.state work.new).folder) }
    ensures fell_before { IsTrue W.tells → IfErr result (λ end. IsSideEnd end → FellWith digest.now (W.state work.old).folder (W.state work.new).folder) }
    ensures own_lock { IsTrue W.tells → KeepsOwnLock renewal.max_lock C.tells (C.moment clock.old) (W.state work.old).folder.lock (W.state work.new).folder.lock }
    ensures names { IsTrue W.tells → (limit : ℕ) (k : WorkFolder) → AreWithin limit prepared → IsNewStamp limit k prepared.stamp
        → HoldsOwn limit prepared.compare k (W.state work.old).folder → HoldsOwn limit prepared.compare k (W.state work.new).folder }
    ensures digest_late { IsTrue W.tells → (limit : ℕ) → limit < 2 ^ 64 → AreWithin limit prepared → (base : Option Base) → IsBase limit (W.state work.old).folder base
        → (IsBase limit (W.state work.new).folder base × (KeepsTree A.tells (A.state one.old) (A.state one.new) × KeepsTree B.tells (B.state two.old) (B.state two.new)) × ((W.state work.new).folder.filters_md5 ≡ (W.state work.old).folder.filters_md5))
        ⊎ (HasNoBase limit (W.state work.new).folder ⊎ (IsBase limit (W.state work.new).folder (Some (next_base prepared)) × ((W.state work.new).folder.filters_md5 ≡ stored digest.now (W.state work.old).folder.filters_md5))) }
    ensures carried_out { IsTrue W.tells → (limit : ℕ) → limit < 2 ^ 64 → AreWithin limit prepared → OnOk result (AreCarriedOut limit prepared digest.now (W.state work.old).folder (W.state work.new).folder) }
    ensures done { IsTrue A.tells → IsTrue B.tells → OnOk result (AreDone prepared.plan.steps.items (by_side (A.state one.old) (B.state two.old)) (by_side (A.state one.new) (B.state two.new))) }
    ensures part { IsTrue A.tells → IsTrue B.tells → IsPartDone prepared.plan.steps.items (by_side (A.state one.old) (B.state two.old)) (by_side (A.state one.new) (B.state two.new)) }
    ensures changes { IfOk result (λ changes. (changes.one ≡ sum_by (changes_of Side.One) prepared.plan.steps.items) × (changes.two ≡ sum_by (changes_of Side.Two) prepared.plan.steps.items)) }
    ensures counted { IfOk result (λ changes. HasCounted (by_side A.tells B.tells) (by_side (A.state one.old) (B.state two.old)) (by_side (A.state one.new) (B.state two.new)) changes.one changes.two) }
    ensures end { IfErr result IsStepEnd }
    ensures moved { IfErr result MovedDiffers }
    ensures read { IfErr result MovedIsRead }
    ensures found { FindsAll (by_side A.tells B.tells) prepared.plan.steps.items (by_side (A.state one.old) (B.state two.old)) → IfErr result (FindsTold (by_side A.tells B.tells)) }
    ensures moment { IsTrue C.tells → C.moment clock.new ≡ C.moment clock.old }
    ensures windows { ((A.state one.new).window ≡ (A.state one.old).window) × ((B.state two.new).window ≡ (B.state two.old).window) }
    ensures left1 { (A.state one.old).left ≡ None → (A.state one.new).left ≡ None }
    ensures left2 { (B.state two.old).left ≡ None → (B.state two.new).left ≡ None }
    ensures left { (W.state work.old).left ≡ None → (W.state work.new).left ≡ None }
    ensures causes { HasCauses (counts (A.state one.old).faults (B.state two.old).faults (W.state work.old).faults 0) (counts (A.state one.new).faults (B.state two.new).faults (W.state work.new).faults 0) result }
{
    match write_resync(work, &prepared, digest) {
        Ok(()) => {}
        Err(_) => return Err(End::WorkFault),
    }
    let Prepared { plan, .. } = prepared;
    let Plan { steps, .. } = plan;
    let changes = match do_steps(steps, renewal, one, two, work, clock, buffer) {
        Ok(changes) => changes,
        Err(end) => return Err(end),
    };
    match switch(work) {
        Ok(()) => Ok(changes),
        Err(_) => Err(End::WorkFault),
    }
}
