//! A run that holds the lock.

ghost use Rattle.std.specs.Prelude.{◌≡◌, ◌⊎◌, ◌≢◌, ◌++◌, ℕ, List, IsTrue, IsOk, IfOk, IfErr, OnOk, Some, None, true, false};
ghost use Rattle.bisync_tree.specs.declared.options.Prefer.{Prefer};
ghost use Rattle.bisync_model.specs.Trees.{by_side};
ghost use Rattle.bisync_device.specs.Faults.{Rose};
ghost use Rattle.bisync_device.specs.WorkFolder.{IsSettled};
ghost use Rattle.bisync_device.specs.Remote.{KeepsTree};
ghost use Rattle.bisync_device.specs.Work.{KeepsFolder};
ghost use Rattle.bisync_opts.specs.Ranges.{IsInRange};
ghost use Rattle.bisync_work.specs.Moves.{IsFallen};
ghost use Rattle.bisync_run.specs.Beginnings.{AnswersBeginning, IsWellBegun};
ghost use Rattle.bisync_run.specs.CarryingOut.{AreSetAside, but_carried};
ghost use Rattle.bisync_run.specs.CountedChanges.{CountsChanges};
ghost use Rattle.bisync_run.specs.Counts.{counts, HasCauses};
ghost use Rattle.bisync_run.specs.EndKinds.{is_good, is_unlocked, may_have_changed, may_tell_plan};
ghost use Rattle.bisync_run.specs.FolderBases.{LeavesHeldBase, LeavesNextInPlace, Writes};
ghost use Rattle.bisync_run.specs.Grounds.{HasGrounds, IsTold};
ghost use Rattle.bisync_run.specs.HeldResyncs.{end_of, IsGoodEndOf, TellsPlan};
ghost use Rattle.bisync_run.specs.KeptNames.{IsSideEnd};
ghost use Rattle.bisync_run.specs.LeftNames.{FallsAs, FellWith, KeepsOwnLock, LeavesBaseSetBack, SameOrStands, StoresDigest};
ghost use Rattle.bisync_run.specs.LockNew.{KeepsLockNew};
ghost use Rattle.bisync_run.specs.Ordinary.{but_ordinary, IsOrdinaryDone, IsGoodOrdinaryEnd, KeepsBaseOrMakesNext, LeavesOrdinaryTrees, TellsCourse};
ghost use Rattle.bisync_run.specs.OrdinaryEnds.{IsOrdinaryEnd};
ghost use Rattle.bisync_run.specs.OrdinaryRefusals.{AnswersOrdinary, HasNoOrdinaryRefusal};
ghost use Rattle.bisync_run.specs.OwnNames.{HoldsOwn};
ghost use Rattle.bisync_run.specs.ResyncEnds.{IsResyncEnd};
ghost use Rattle.bisync_run.specs.ResyncRefusals.{AnswersResync, HasNoResyncRefusal};
ghost use Rattle.bisync_run.specs.Resyncs.{HasOutcome, IsResynced, LeavesMix, LeavesBase, LeavesTrees};
ghost use Rattle.bisync_run.specs.Sides.{compare_in, sides_of};

use crate::entering::Entered;
use crate::ordinary::ordinary;
use crate::resyncs::resync;
use bisync_device::{Clock, Remote, Sink, Work};
use bisync_opts::{CheckSync, Opts};
use bisync_report::End;
use bisync_tree::Limits;
use std::alloc::Global;

/// A run from its lock to the switch: a resync or an ordinary one.
pub fn held<A: Remote, B: Remote, W: Work, C: Clock, S: Sink>(
    alloc: Global,
    opts: &Opts,
    limits: &Limits,
    entered: &Entered,
    one: &mut A,
    two: &mut B,
    work: &mut W,
    clock: &mut C,
    sink: &mut S,
) -> Result<End, End>
    requires range { IsInRange opts.now }
    requires unfiltered { opts.now.filters ≡ None → entered.now.digest ≡ None }
    ensures base { (mode : Prefer) → opts.now.resync ≡ Some mode → IsTrue A.tells → IsTrue B.tells → IsTrue W.tells →
        LeavesBase mode limits.now (W.state work.old).folder (sides_of opts.now.compare entered.now.rules (A.state one.old) (B.state two.old)) (by_side (A.state one.old) (B.state two.old)) (W.state work.new).folder (by_side (A.state one.new) (B.state two.new)) }
    ensures trees { (mode : Prefer) → opts.now.resync ≡ Some mode → IsTrue A.tells → IsTrue B.tells → IsTrue W.tells →
        LeavesTrees mode limits.now (W.state work.old).folder (sides_of opts.now.compare entered.now.rules (A.state one.old) (B.state two.old)) (by_side (A.state one.old) (B.state two.old)) (W.state work.new).folder (by_side (A.state one.new) (B.state two.new)) }
    ensures resynced { (mode : Prefer) → opts.now.resync ≡ Some mode → IsTrue A.tells → IsTrue B.tells → IsTrue W.tells → opts.now.dry_run ≡ false → OnOk result
        (IsResynced mode limits.now (W.state work.old).folder (sides_of opts.now.compare entered.now.rules (A.state one.old) (B.state two.old)) entered.now.digest (by_side (A.state one.old) (B.state two.old)) (W.state work.new).folder (by_side (A.state one.new) (B.state two.new))) }
    ensures mixed { (mode : Prefer) → opts.now.resync ≡ Some mode → IsTrue A.tells → IsTrue B.tells → LeavesMix mode (sides_of opts.now.compare entered.now.rules (A.state one.old) (B.state two.old)) (by_side (A.state one.old) (B.state two.old)) (by_side (A.state one.new) (B.state two.new)) }
    ensures outcome { (mode : Prefer) → opts.now.resync ≡ Some mode → IsTrue A.tells → IsTrue B.tells → opts.now.dry_run ≡ false → OnOk result (HasOutcome mode (sides_of opts.now.compare entered.now.rules (A.state one.old) (B.state two.old)) (by_side (A.state one.old) (B.state two.old)) (by_side (A.state one.new) (B.state two.new))) }
    ensures good { (mode : Prefer) → opts.now.resync ≡ Some mode → IsTrue A.tells → IsTrue B.tells → IfOk result (IsGoodEndOf opts.now.dry_run mode (sides_of opts.now.compare entered.now.rules (A.state one.old) (B.state two.old))) }
    ensures answers { (mode : Prefer) → opts.now.resync ≡ Some mode → IsTrue A.tells → IsTrue B.tells → IsTrue W.tells →
        IfErr result (AnswersResync mode limits.now (W.state work.old).folder (sides_of opts.now.compare entered.now.rules (A.state one.old) (B.state two.old))) }
    ensures accepted { (mode : Prefer) → opts.now.resync ≡ Some mode → IsTrue A.tells → IsTrue B.tells → IsTrue W.tells →
        OnOk result (HasNoResyncRefusal mode limits.now (W.state work.old).folder (sides_of opts.now.compare entered.now.rules (A.state one.old) (B.state two.old))) }
    ensures kind { (mode : Prefer) → opts.now.resync ≡ Some mode → IsResyncEnd opts.now (end_of result) }
    ensures set_aside { (mode : Prefer) → opts.now.resync ≡ Some mode → IsTrue W.tells → opts.now.dry_run ≡ false → OnOk result (AreSetAside entered.now.digest (W.state work.old).folder (W.state work.new).folder) }
    ensures report { (mode : Prefer) → opts.now.resync ≡ Some mode → IsTrue A.tells → IsTrue B.tells → IsTrue S.tells →
        TellsPlan mode opts.now.dry_run (sides_of opts.now.compare entered.now.rules (A.state one.old) (B.state two.old)) (by_side (A.state one.old) (B.state two.old)) (by_side (A.state one.new) (B.state two.new)) (KeepsFolder W.tells (W.state work.old) (W.state work.new)) (IsTrue W.tells → HasNoResyncRefusal mode limits.now (W.state work.old).folder (sides_of opts.now.compare entered.now.rules (A.state one.old) (B.state two.old))) (λ end. IsTrue W.tells → IsSideEnd end → FellWith entered.now.digest (W.state work.old).folder (W.state work.new).folder) (S.state sink.old).bytes (S.state sink.new).bytes result }
    ensures run_base { opts.now.resync ≡ None → IsTrue A.tells → IsTrue B.tells → IsTrue W.tells →
        KeepsBaseOrMakesNext opts.now limits.now (W.state work.old).folder (sides_of opts.now.compare entered.now.rules (A.state one.old) (B.state two.old)) entered.now.digest (W.state work.new).folder (by_side (A.state one.new) (B.state two.new)) }
    ensures run_trees { opts.now.resync ≡ None → IsTrue A.tells → IsTrue B.tells → IsTrue W.tells →
        LeavesOrdinaryTrees opts.now limits.now (W.state work.old).folder (sides_of opts.now.compare entered.now.rules (A.state one.old) (B.state two.old)) entered.now.digest (by_side (A.state one.old) (B.state two.old)) (W.state work.new).folder (by_side (A.state one.new) (B.state two.new)) }
    ensures run_rest { opts.now.resync ≡ None → IsTrue W.tells → but_ordinary (W.state work.new).folder ≡ but_ordinary (W.state work.old).folder }
    ensures done { opts.now.resync ≡ None → IsTrue A.tells → IsTrue B.tells → IsTrue W.tells → opts.now.dry_run ≡ false → opts.now.check_sync ≢ CheckSync.Only → OnOk result
        (IsOrdinaryDone opts.now limits.now (W.state work.old).folder (sides_of opts.now.compare entered.now.rules (A.state one.old) (B.state two.old)) entered.now.digest (by_side (A.state one.old) (B.state two.old)) (W.state work.new).folder (by_side (A.state one.new) (B.state two.new))) }
    ensures run_good { opts.now.resync ≡ None → IsTrue A.tells → IsTrue B.tells → IsTrue W.tells → IfOk result (IsGoodOrdinaryEnd opts.now limits.now (W.state work.old).folder (sides_of opts.now.compare entered.now.rules (A.state one.old) (B.state two.old)) entered.now.digest) }
    ensures run_answers { opts.now.resync ≡ None → IsTrue A.tells → IsTrue B.tells → IsTrue W.tells →
        AnswersOrdinary opts.now limits.now (W.state work.old).folder (sides_of opts.now.compare entered.now.rules (A.state one.old) (B.state two.old)) entered.now.digest (end_of result) }
    ensures unrefused { opts.now.resync ≡ None → IsTrue A.tells → IsTrue B.tells → IsTrue W.tells →
        OnOk result (HasNoOrdinaryRefusal opts.now limits.now (W.state work.old).folder (sides_of opts.now.compare entered.now.rules (A.state one.old) (B.state two.old)) entered.now.digest) }
    ensures begins { opts.now.resync ≡ None → IsTrue W.tells → AnswersBeginning opts.now limits.now (W.state work.old).folder (sides_of opts.now.compare entered.now.rules (A.state one.old) (B.state two.old)) entered.now.digest (end_of result) }
    ensures begun { opts.now.resync ≡ None → IsTrue W.tells → OnOk result (IsWellBegun opts.now limits.now (W.state work.old).folder (sides_of opts.now.compare entered.now.rules (A.state one.old) (B.state two.old)) entered.now.digest) }
    ensures run_kind { opts.now.resync ≡ None → IsOrdinaryEnd opts.now (compare_in opts.now.compare (A.state one.old).window (B.state two.old).window) (end_of result) }
    ensures run_report { opts.now.resync ≡ None → IsTrue A.tells → IsTrue B.tells → IsTrue W.tells → IsTrue S.tells →
        TellsCourse opts.now limits.now (W.state work.old).folder (sides_of opts.now.compare entered.now.rules (A.state one.old) (B.state two.old)) entered.now.digest (by_side (A.state one.old) (B.state two.old)) (W.state work.new).folder (by_side (A.state one.new) (B.state two.new)) (S.state sink.old).bytes (S.state sink.new).bytes result }
    ensures compares_one { opts.now.resync ≡ None → opts.now.check_sync ≡ CheckSync.Only → KeepsTree A.tells (A.state one.old) (A.state one.new) }
    ensures compares_two { opts.now.resync ≡ None → opts.now.check_sync ≡ CheckSync.Only → KeepsTree B.tells (B.state two.old) (B.state two.new) }
    ensures compares { opts.now.resync ≡ None → opts.now.check_sync ≡ CheckSync.Only → KeepsFolder W.tells (W.state work.old) (W.state work.new) }
    ensures compares_sink { opts.now.resync ≡ None → opts.now.check_sync ≡ CheckSync.Only → S.state sink.new ≡ S.state sink.old }
    ensures folder_base { IsTrue W.tells → LeavesHeldBase opts.now limits.now (sides_of opts.now.compare entered.now.rules (A.state one.old) (B.state two.old)) entered.now.digest (end_of result) (W.state work.old).folder (W.state work.new).folder }
    ensures falls_as { IsTrue W.tells → (Rose (W.state work.old).faults (W.state work.new).faults → ⊥) → IfErr result (λ _. FallsAs (W.state work.old).folder (W.state work.new).folder) }
    ensures fell { (mode : Prefer) → opts.now.resync ≡ Some mode → IsTrue W.tells → (Rose (W.state work.old).faults (W.state work.new).faults → ⊥) → IfErr result (λ _. (((W.state work.new).folder ≡ (W.state work.old).folder) × (KeepsTree A.tells (A.state one.old) (A.state one.new) × KeepsTree B.tells (B.state two.old) (B.state two.new))) ⊎ FellWith entered.now.digest (W.state work.old).folder (W.state work.new).folder) }
    ensures own_lock { IsTrue W.tells → KeepsOwnLock opts.now.max_lock C.tells (C.moment clock.old) (W.state work.old).folder.lock (W.state work.new).folder.lock }
    ensures digest_late { (mode : Prefer) → opts.now.resync ≡ Some mode → IsTrue W.tells → StoresDigest limits.now (compare_in opts.now.compare (A.state one.old).window (B.state two.old).window) entered.now.digest (W.state work.old).folder (W.state work.new).folder (KeepsTree A.tells (A.state one.old) (A.state one.new) × KeepsTree B.tells (B.state two.old) (B.state two.new)) }
    ensures set_back { opts.now.resync ≡ None → IsTrue W.tells → LeavesBaseSetBack limits.now (compare_in opts.now.compare (A.state one.old).window (B.state two.old).window) (W.state work.old).folder (W.state work.new).folder (KeepsTree A.tells (A.state one.old) (A.state one.new) × KeepsTree B.tells (B.state two.old) (B.state two.new)) }
    ensures stands { opts.now.resync ≡ None → IsTrue W.tells → SameOrStands limits.now (end_of result) (W.state work.old).folder (W.state work.new).folder (KeepsTree A.tells (A.state one.old) (A.state one.new) × KeepsTree B.tells (B.state two.old) (B.state two.new)) }
    ensures names { IsTrue W.tells → HoldsOwn limits.now.listing (compare_in opts.now.compare (A.state one.old).window (B.state two.old).window) (W.state work.old).folder (W.state work.new).folder }
    ensures folder_next { IsTrue W.tells → Writes opts.now → OnOk result (LeavesNextInPlace opts.now limits.now (W.state work.old).folder (by_side (A.state one.old) (B.state two.old)) (W.state work.new).folder) }
    ensures settled { IsTrue W.tells → IsSettled (W.state work.old).folder → IsSettled (W.state work.new).folder }
    ensures rest { IsTrue W.tells → but_carried (W.state work.new).folder ≡ but_carried (W.state work.old).folder }
    ensures well { IfOk result (λ end. is_good end ≡ true) }
    ensures counted { IfOk result (CountsChanges (by_side A.tells B.tells) (by_side (A.state one.old) (B.state two.old)) (by_side (A.state one.new) (B.state two.new))) }
    ensures only { is_unlocked (end_of result) ≡ false }
    ensures lock_new { IsTrue W.tells → IsOk result ⊎ (Rose (W.state work.old).faults (W.state work.new).faults → ⊥) → KeepsLockNew (W.state work.old).folder (W.state work.new).folder }
    ensures no_digest { IsTrue W.tells → entered.now.digest ≡ None → (W.state work.new).folder.filters_md5 ≡ (W.state work.old).folder.filters_md5 }
    ensures quiet { IsTrue S.tells → (Rose (S.state sink.old).faults (S.state sink.new).faults → ⊥) → may_tell_plan (end_of result) ≡ false → (S.state sink.new).bytes ≡ (S.state sink.old).bytes }
    ensures lines { IsTrue S.tells → (lines : List ℕ) × ((S.state sink.new).bytes ≡ (S.state sink.old).bytes ++ lines) }
    ensures early_one { may_have_changed (end_of result) ≡ false → KeepsTree A.tells (A.state one.old) (A.state one.new) }
    ensures early_two { may_have_changed (end_of result) ≡ false → KeepsTree B.tells (B.state two.old) (B.state two.new) }
    ensures early { may_have_changed (end_of result) ≡ false → KeepsFolder W.tells (W.state work.old) (W.state work.new) }
    ensures dry_one { opts.now.dry_run ≡ true → KeepsTree A.tells (A.state one.old) (A.state one.new) }
    ensures dry_two { opts.now.dry_run ≡ true → KeepsTree B.tells (B.state two.old) (B.state two.new) }
    ensures dry { opts.now.dry_run ≡ true → KeepsFolder W.tells (W.state work.old) (W.state work.new) }
    ensures grounds { IfErr result (HasGrounds limits.now (by_side A.tells B.tells)) }
    ensures told { IsTold (by_side A.tells B.tells) (by_side (A.state one.old) (B.state two.old)) (end_of result) }
    ensures moment { IsTrue C.tells → C.moment clock.new ≡ C.moment clock.old }
    ensures windows { ((A.state one.new).window ≡ (A.state one.old).window) × ((B.state two.new).window ≡ (B.state two.old).window) }
    ensures left1 { (A.state one.old).left ≡ None → (A.state one.new).left ≡ None }
    ensures left2 { (B.state two.old).left ≡ None → (B.state two.new).left ≡ None }
    ensures left { (W.state work.old).left ≡ None → (W.state work.new).left ≡ None }
    ensures causes { HasCauses (counts (A.state one.old).faults (B.state two.old).faults (W.state work.old).faults (S.state sink.old).faults) (counts (A.state one.new).faults (B.state two.new).faults (W.state work.new).faults (S.state sink.new).faults) result }
{
    match opts.resync {
        Some(mode) => resync(
            alloc, mode, opts, limits, entered, one, two, work, clock, sink,
        ),
        None => ordinary(alloc, opts, limits, entered, one, two, work, clock, sink),
    }
}
