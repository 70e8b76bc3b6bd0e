//! A resync that holds the lock.

ghost use Rattle.std.specs.Prelude.{◌≡◌, ◌⊎◌, ◌++◌, ℕ, List, IsTrue, IsOk, IfOk, IfErr, OnOk, None, true, false};
ghost use Rattle.bisync_model.specs.Trees.{by_side};
ghost use Rattle.bisync_device.specs.Faults.{Rose};
ghost use Rattle.bisync_device.specs.WorkFolder.{IsSettled};
ghost use Rattle.bisync_device.specs.Remote.{KeepsTree};
ghost use Rattle.bisync_device.specs.Work.{KeepsFolder};
ghost use Rattle.bisync_opts.specs.Ranges.{IsInRange};
ghost use Rattle.bisync_run.specs.CarryingOut.{AreSetAside, but_carried};
ghost use Rattle.bisync_work.specs.Moves.{IsFallen};
ghost use Rattle.bisync_run.specs.CountedChanges.{CountsChanges};
ghost use Rattle.bisync_run.specs.Counts.{counts, HasCauses};
ghost use Rattle.bisync_run.specs.EndKinds.{is_good, is_unlocked, may_have_changed, may_tell_plan};
ghost use Rattle.bisync_run.specs.FolderBases.{HasNextInPlace, LosesOrTakesNext};
ghost use Rattle.bisync_run.specs.Grounds.{HasGrounds, IsTold};
ghost use Rattle.bisync_run.specs.HeldResyncs.{end_of, IsGoodEndOf, TellsPlan};
ghost use Rattle.bisync_run.specs.KeptNames.{IsSideEnd};
ghost use Rattle.bisync_run.specs.LeftNames.{FallsAs, FellWith, KeepsOwnLock, StoresDigest};
ghost use Rattle.bisync_run.specs.LockNew.{KeepsLockNew};
ghost use Rattle.bisync_run.specs.OwnNames.{HoldsOwn};
ghost use Rattle.bisync_run.specs.ResyncEnds.{IsResyncEnd};
ghost use Rattle.bisync_run.specs.ResyncRefusals.{AnswersResync, HasNoResyncRefusal};
ghost use Rattle.bisync_run.specs.Resyncs.{HasOutcome, LeavesMix, IsResynced, LeavesBase, LeavesTrees};
ghost use Rattle.bisync_run.specs.Sides.{compare_in, sides_of};

use crate::buffers::copy_buffer;
use crate::entering::Entered;
use crate::resync_changes::carry_out;
use crate::resync_looks::look_resync;
use crate::steps::Renewal;
use bisync_device::{Clock, Remote, Sink, Work};
use bisync_opts::Opts;
use bisync_report::{End, plan_lines};
use bisync_tree::{Limits, Prefer};
use std::alloc::Global;

/// A resync by this mode, from both sides' attaching to the switch.
pub fn resync<A: Remote, B: Remote, W: Work, C: Clock, S: Sink>(
    alloc: Global,
    mode: Prefer,
    opts: &Opts,
    limits: &Limits,
    entered: &Entered,
    one: &mut A,
    two: &mut B,
    work: &mut W,
    clock: &mut C,
    sink: &mut S,
) -> Result<End, End>
    requires { IsInRange opts.now }
    ensures base { IsTrue A.tells → IsTrue B.tells → IsTrue W.tells →
        LeavesBase mode limits.now (W.state work.old).folder (sides_of opts.now.compare entered.now.rules (A.state one.old) (B.state two.old)) (by_side (A.state one.old) (B.state two.old)) (W.state work.new).folder (by_side (A.state one.new) (B.state two.new)) }
    ensures trees { IsTrue A.tells → IsTrue B.tells → IsTrue W.tells →
        LeavesTrees mode limits.now (W.state work.old).folder (sides_of opts.now.compare entered.now.rules (A.state one.old) (B.state two.old)) (by_side (A.state one.old) (B.state two.old)) (W.state work.new).folder (by_side (A.state one.new) (B.state two.new)) }
    ensures mixed { IsTrue A.tells → IsTrue B.tells → LeavesMix mode (sides_of opts.now.compare entered.now.rules (A.state one.old) (B.state two.old)) (by_side (A.state one.old) (B.state two.old)) (by_side (A.state one.new) (B.state two.new)) }
    ensures outcome { IsTrue A.tells → IsTrue B.tells → opts.now.dry_run ≡ false → OnOk result (HasOutcome mode (sides_of opts.now.compare entered.now.rules (A.state one.old) (B.state two.old)) (by_side (A.state one.old) (B.state two.old)) (by_side (A.state one.new) (B.state two.new))) }
    ensures settled { IsTrue W.tells → IsSettled (W.state work.old).folder → IsSettled (W.state work.new).folder }
    ensures rest { IsTrue W.tells → but_carried (W.state work.new).folder ≡ but_carried (W.state work.old).folder }
    ensures resynced { IsTrue A.tells → IsTrue B.tells → IsTrue W.tells → opts.now.dry_run ≡ false → OnOk result
        (IsResynced mode limits.now (W.state work.old).folder (sides_of opts.now.compare entered.now.rules (A.state one.old) (B.state two.old)) entered.now.digest (by_side (A.state one.old) (B.state two.old)) (W.state work.new).folder (by_side (A.state one.new) (B.state two.new))) }
    ensures good { IsTrue A.tells → IsTrue B.tells → IfOk result (IsGoodEndOf opts.now.dry_run mode (sides_of opts.now.compare entered.now.rules (A.state one.old) (B.state two.old))) }
    ensures answers { IsTrue A.tells → IsTrue B.tells → IsTrue W.tells →
        IfErr result (AnswersResync mode limits.now (W.state work.old).folder (sides_of opts.now.compare entered.now.rules (A.state one.old) (B.state two.old))) }
    ensures accepted { IsTrue A.tells → IsTrue B.tells → IsTrue W.tells →
        OnOk result (HasNoResyncRefusal mode limits.now (W.state work.old).folder (sides_of opts.now.compare entered.now.rules (A.state one.old) (B.state two.old))) }
    ensures well { IfOk result (λ end. is_good end ≡ true) }
    ensures counted { IfOk result (CountsChanges (by_side A.tells B.tells) (by_side (A.state one.old) (B.state two.old)) (by_side (A.state one.new) (B.state two.new))) }
    ensures only { is_unlocked (end_of result) ≡ false }
    ensures kind { IsResyncEnd opts.now (end_of result) }
    ensures lock_new { IsTrue W.tells → IsOk result ⊎ (Rose (W.state work.old).faults (W.state work.new).faults → ⊥) → KeepsLockNew (W.state work.old).folder (W.state work.new).folder }
    ensures no_digest { IsTrue W.tells → entered.now.digest ≡ None → (W.state work.new).folder.filters_md5 ≡ (W.state work.old).folder.filters_md5 }
    ensures set_aside { IsTrue W.tells → opts.now.dry_run ≡ false → OnOk result (AreSetAside entered.now.digest (W.state work.old).folder (W.state work.new).folder) }
    ensures folder_base { IsTrue W.tells → LosesOrTakesNext limits.now (compare_in opts.now.compare (A.state one.old).window (B.state two.old).window) (end_of result) (W.state work.old).folder (W.state work.new).folder }
    ensures falls_as { IsTrue W.tells → (Rose (W.state work.old).faults (W.state work.new).faults → ⊥) → IfErr result (λ _. FallsAs (W.state work.old).folder (W.state work.new).folder) }
    ensures fell { IsTrue W.tells → (Rose (W.state work.old).faults (W.state work.new).faults → ⊥) → IfErr result (λ _. (((W.state work.new).folder ≡ (W.state work.old).folder) × (KeepsTree A.tells (A.state one.old) (A.state one.new) × KeepsTree B.tells (B.state two.old) (B.state two.new))) ⊎ FellWith entered.now.digest (W.state work.old).folder (W.state work.new).folder) }
    ensures own_lock { IsTrue W.tells → KeepsOwnLock opts.now.max_lock C.tells (C.moment clock.old) (W.state work.old).folder.lock (W.state work.new).folder.lock }
    ensures digest_late { IsTrue W.tells → StoresDigest limits.now (compare_in opts.now.compare (A.state one.old).window (B.state two.old).window) entered.now.digest (W.state work.old).folder (W.state work.new).folder (KeepsTree A.tells (A.state one.old) (A.state one.new) × KeepsTree B.tells (B.state two.old) (B.state two.new)) }
    ensures names { IsTrue W.tells → HoldsOwn limits.now.listing (compare_in opts.now.compare (A.state one.old).window (B.state two.old).window) (W.state work.old).folder (W.state work.new).folder }
    ensures folder_next { IsTrue W.tells → opts.now.dry_run ≡ false → OnOk result (HasNextInPlace limits.now (compare_in opts.now.compare (A.state one.old).window (B.state two.old).window) (W.state work.old).folder (W.state work.new).folder) }
    ensures quiet { IsTrue S.tells → (Rose (S.state sink.old).faults (S.state sink.new).faults → ⊥) → may_tell_plan (end_of result) ≡ false → (S.state sink.new).bytes ≡ (S.state sink.old).bytes }
    ensures lines { IsTrue S.tells → (lines : List ℕ) × ((S.state sink.new).bytes ≡ (S.state sink.old).bytes ++ lines) }
    ensures report { IsTrue A.tells → IsTrue B.tells → IsTrue S.tells →
        TellsPlan mode opts.now.dry_run (sides_of opts.now.compare entered.now.rules (A.state one.old) (B.state two.old)) (by_side (A.state one.old) (B.state two.old)) (by_side (A.state one.new) (B.state two.new)) (KeepsFolder W.tells (W.state work.old) (W.state work.new)) (IsTrue W.tells → HasNoResyncRefusal mode limits.now (W.state work.old).folder (sides_of opts.now.compare entered.now.rules (A.state one.old) (B.state two.old))) (λ end. IsTrue W.tells → IsSideEnd end → FellWith entered.now.digest (W.state work.old).folder (W.state work.new).folder) (S.state sink.old).bytes (S.state sink.new).bytes result }
    ensures early_one { may_have_changed (end_of result) ≡ false → KeepsTree A.tells (A.state one.old) (A.state one.new) }
    ensures early_two { may_have_changed (end_of result) ≡ false → KeepsTree B.tells (B.state two.old) (B.state two.new) }
    ensures early { may_have_changed (end_of result) ≡ false → KeepsFolder W.tells (W.state work.old) (W.state work.new) }
    ensures dry_one { opts.now.dry_run ≡ true → KeepsTree A.tells (A.state one.old) (A.state one.new) }
    ensures dry_two { opts.now.dry_run ≡ true → KeepsTree B.tells (B.state two.old) (B.state two.new) }
    ensures dry { opts.now.dry_run ≡ true → KeepsFolder W.tells (W.state work.old) (W.state work.new) }
    ensures grounds { IfErr result (HasGrounds limits.now (by_side A.tells B.tells)) }
    ensures told { IsTold (by_side A.tells B.tells) (by_side (A.state one.old) (B.state two.old)) (end_of result) }
    ensures moment { IsTrue C.tells → C.moment clock.new ≡ C.moment clock.old }
    ensures windows { ((A.state one.new).window ≡ (A.state one.old).window) × ((B.state two.new).window ≡ (B.state two.old).window) }
    ensures left1 { (A.state one.old).left ≡ None → (A.state one.new).left ≡ None }
    ensures left2 { (B.state two.old).left ≡ None → (B.state two.new).left ≡ None }
    ensures left { (W.state work.old).left ≡ None → (W.state work.new).left ≡ None }
    ensures causes { HasCauses (counts (A.state one.old).faults (B.state two.old).faults (W.state work.old).faults (S.state sink.old).faults) (counts (A.state one.new).faults (B.state two.new).faults (W.state work.new).faults (S.state sink.new).faults) result }
{
    // Read here, so that its range is known to the proof.
    let _limit = limits.listing;
    let rules = &entered.rules;
    let prepared = match look_resync(alloc, mode, opts, limits, rules, one, two, work) {
        Ok(prepared) => prepared,
        Err(end) => return Err(end),
    };
    let Ok(mut buffer) = copy_buffer(alloc) else {
        return Err(End::OutOfMemory);
    };
    match plan_lines(None, &prepared.compare, &prepared.plan, sink) {
        Ok(()) => {}
        Err(_) => return Err(End::SinkFault { done: false }),
    }
    if opts.dry_run {
        return Ok(End::DryRun);
    }
    let renewal = Renewal {
        max_lock: opts.max_lock,
        written_at: entered.locked_at,
    };
    match carry_out(
        prepared,
        &entered.digest,
        renewal,
        one,
        two,
        work,
        clock,
        &mut buffer,
    ) {
        Ok(changes) => Ok(End::Resynced {
            one: changes.one,
            two: changes.two,
        }),
        Err(end) => Err(end),
    }
}
