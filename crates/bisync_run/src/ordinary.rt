//! An ordinary run that holds the lock.

ghost use Rattle.std.specs.Prelude.{◌≡◌, ◌⊎◌, ◌≢◌, ◌++◌, ℕ, List, IsTrue, IsOk, IfOk, IfErr, OnOk, None, true, false};
ghost use Rattle.bisync_model.specs.Trees.{by_side};
ghost use Rattle.bisync_device.specs.Faults.{Rose};
ghost use Rattle.bisync_device.specs.WorkFolder.{IsSettled};
ghost use Rattle.bisync_device.specs.Remote.{KeepsTree};
ghost use Rattle.bisync_device.specs.Work.{KeepsFolder};
ghost use Rattle.bisync_opts.specs.Ranges.{IsInRange};
ghost use Rattle.bisync_run.specs.Beginnings.{AnswersBeginning, IsWellBegun};
ghost use Rattle.bisync_run.specs.CountedChanges.{CountsChanges};
ghost use Rattle.bisync_run.specs.Counts.{counts, HasCauses};
ghost use Rattle.bisync_run.specs.Courses.{is_only as is_only_of};
ghost use Rattle.bisync_run.specs.EndKinds.{is_good, is_unlocked, may_have_changed, may_tell_plan};
ghost use Rattle.bisync_run.specs.FolderBases.{HasNextInPlace, IsSetBackTo, KeepsOrTakesNext};
ghost use Rattle.bisync_run.specs.Grounds.{HasGrounds, IsTold};
ghost use Rattle.bisync_run.specs.HeldResyncs.{end_of};
ghost use Rattle.bisync_run.specs.LeftNames.{FallsAs, KeepsOwnLock, LeavesBaseSetBack, SameOrStands};
ghost use Rattle.bisync_run.specs.LockNew.{KeepsLockNew};
ghost use Rattle.bisync_run.specs.Ordinary.{but_ordinary, IsOrdinaryDone, IsGoodOrdinaryEnd, KeepsBaseOrMakesNext, LeavesOrdinaryTrees, TellsCourse};
ghost use Rattle.bisync_run.specs.OrdinaryEnds.{IsOrdinaryEnd};
ghost use Rattle.bisync_run.specs.OrdinaryRefusals.{AnswersOrdinary, HasNoOrdinaryRefusal};
ghost use Rattle.bisync_run.specs.OwnNames.{HoldsOwn};
ghost use Rattle.bisync_run.specs.Sides.{compare_in, sides_of};

use crate::buffers::copy_buffer;
use crate::entering::Entered;
use crate::looks::Look;
use crate::ordinary_changes::carry_out_ordinary;
use crate::ordinary_looks::look_ordinary;
use crate::prepared::Prepared;
use crate::starting::{compare_base, start};
use crate::steps::Renewal;
use bisync_device::{Clock, Remote, Sink, Work};
use bisync_opts::{CheckSync, Opts};
use bisync_report::{End, plan_lines};
use bisync_tree::Limits;
use std::alloc::Global;

/// A run that is no resync, from its base to the switch.
pub fn ordinary<A: Remote, B: Remote, W: Work, C: Clock, S: Sink>(
    alloc: Global,
    opts: &Opts,
    limits: &Limits,
    entered: &Entered,
    one: &mut A,
    two: &mut B,
    work: &mut W,
    clock: &mut C,
    sink: &mut S,
) -> Result<End, End>
    requires range { IsInRange opts.now }
    requires unfiltered { opts.now.filters ≡ None → entered.now.digest ≡ None }
    ensures base { IsTrue A.tells → IsTrue B.tells → IsTrue W.tells →
        KeepsBaseOrMakesNext opts.now limits.now (W.state work.old).folder (sides_of opts.now.compare entered.now.rules (A.state one.old) (B.state two.old)) entered.now.digest (W.state work.new).folder (by_side (A.state one.new) (B.state two.new)) }
    ensures trees { IsTrue A.tells → IsTrue B.tells → IsTrue W.tells →
        LeavesOrdinaryTrees opts.now limits.now (W.state work.old).folder (sides_of opts.now.compare entered.now.rules (A.state one.old) (B.state two.old)) entered.now.digest (by_side (A.state one.old) (B.state two.old)) (W.state work.new).folder (by_side (A.state one.new) (B.state two.new)) }
    ensures settled { IsTrue W.tells → IsSettled (W.state work.old).folder → IsSettled (W.state work.new).folder }
    ensures rest { IsTrue W.tells → but_ordinary (W.state work.new).folder ≡ but_ordinary (W.state work.old).folder }
    ensures done { IsTrue A.tells → IsTrue B.tells → IsTrue W.tells → opts.now.dry_run ≡ false → opts.now.check_sync ≢ CheckSync.Only → OnOk result
        (IsOrdinaryDone opts.now limits.now (W.state work.old).folder (sides_of opts.now.compare entered.now.rules (A.state one.old) (B.state two.old)) entered.now.digest (by_side (A.state one.old) (B.state two.old)) (W.state work.new).folder (by_side (A.state one.new) (B.state two.new))) }
    ensures good { IsTrue A.tells → IsTrue B.tells → IsTrue W.tells → IfOk result (IsGoodOrdinaryEnd opts.now limits.now (W.state work.old).folder (sides_of opts.now.compare entered.now.rules (A.state one.old) (B.state two.old)) entered.now.digest) }
    ensures answers { IsTrue A.tells → IsTrue B.tells → IsTrue W.tells →
        AnswersOrdinary opts.now limits.now (W.state work.old).folder (sides_of opts.now.compare entered.now.rules (A.state one.old) (B.state two.old)) entered.now.digest (end_of result) }
    ensures accepted { IsTrue A.tells → IsTrue B.tells → IsTrue W.tells →
        OnOk result (HasNoOrdinaryRefusal opts.now limits.now (W.state work.old).folder (sides_of opts.now.compare entered.now.rules (A.state one.old) (B.state two.old)) entered.now.digest) }
    ensures begins { IsTrue W.tells → AnswersBeginning opts.now limits.now (W.state work.old).folder (sides_of opts.now.compare entered.now.rules (A.state one.old) (B.state two.old)) entered.now.digest (end_of result) }
    ensures begun { IsTrue W.tells → OnOk result (IsWellBegun opts.now limits.now (W.state work.old).folder (sides_of opts.now.compare entered.now.rules (A.state one.old) (B.state two.old)) entered.now.digest) }
    ensures folder_base { IsTrue W.tells → KeepsOrTakesNext opts.now limits.now (sides_of opts.now.compare entered.now.rules (A.state one.old) (B.state two.old)) entered.now.digest (end_of result) (W.state work.old).folder (W.state work.new).folder }
    ensures falls_as { IsTrue W.tells → (Rose (W.state work.old).faults (W.state work.new).faults → ⊥) → IfErr result (λ _. FallsAs (W.state work.old).folder (W.state work.new).folder) }
    ensures own_lock { IsTrue W.tells → KeepsOwnLock opts.now.max_lock C.tells (C.moment clock.old) (W.state work.old).folder.lock (W.state work.new).folder.lock }
    ensures set_back { IsTrue W.tells → LeavesBaseSetBack limits.now (compare_in opts.now.compare (A.state one.old).window (B.state two.old).window) (W.state work.old).folder (W.state work.new).folder (KeepsTree A.tells (A.state one.old) (A.state one.new) × KeepsTree B.tells (B.state two.old) (B.state two.new)) }
    ensures stands { IsTrue W.tells → SameOrStands limits.now (end_of result) (W.state work.old).folder (W.state work.new).folder (KeepsTree A.tells (A.state one.old) (A.state one.new) × KeepsTree B.tells (B.state two.old) (B.state two.new)) }
    ensures names { IsTrue W.tells → HoldsOwn limits.now.listing (compare_in opts.now.compare (A.state one.old).window (B.state two.old).window) (W.state work.old).folder (W.state work.new).folder }
    ensures folder_next { IsTrue W.tells → opts.now.dry_run ≡ false → opts.now.check_sync ≢ CheckSync.Only → OnOk result (HasNextInPlace limits.now (compare_in opts.now.compare (A.state one.old).window (B.state two.old).window) (W.state work.old).folder (W.state work.new).folder × IsSetBackTo limits.now (W.state work.old).folder (W.state work.new).folder) }
    ensures well { IfOk result (λ end. is_good end ≡ true) }
    ensures counted { IfOk result (CountsChanges (by_side A.tells B.tells) (by_side (A.state one.old) (B.state two.old)) (by_side (A.state one.new) (B.state two.new))) }
    ensures only { is_unlocked (end_of result) ≡ false }
    ensures kind { IsOrdinaryEnd opts.now (compare_in opts.now.compare (A.state one.old).window (B.state two.old).window) (end_of result) }
    ensures lock_new { IsTrue W.tells → IsOk result ⊎ (Rose (W.state work.old).faults (W.state work.new).faults → ⊥) → KeepsLockNew (W.state work.old).folder (W.state work.new).folder }
    ensures quiet { IsTrue S.tells → (Rose (S.state sink.old).faults (S.state sink.new).faults → ⊥) → may_tell_plan (end_of result) ≡ false → (S.state sink.new).bytes ≡ (S.state sink.old).bytes }
    ensures lines { IsTrue S.tells → (lines : List ℕ) × ((S.state sink.new).bytes ≡ (S.state sink.old).bytes ++ lines) }
    ensures report { IsTrue A.tells → IsTrue B.tells → IsTrue W.tells → IsTrue S.tells →
        TellsCourse opts.now limits.now (W.state work.old).folder (sides_of opts.now.compare entered.now.rules (A.state one.old) (B.state two.old)) entered.now.digest (by_side (A.state one.old) (B.state two.old)) (W.state work.new).folder (by_side (A.state one.new) (B.state two.new)) (S.state sink.old).bytes (S.state sink.new).bytes result }
    ensures early_one { may_have_changed (end_of result) ≡ false → KeepsTree A.tells (A.state one.old) (A.state one.new) }
    ensures early_two { may_have_changed (end_of result) ≡ false → KeepsTree B.tells (B.state two.old) (B.state two.new) }
    ensures early { may_have_changed (end_of result) ≡ false → KeepsFolder W.tells (W.state work.old) (W.state work.new) }
    ensures dry_one { opts.now.dry_run ≡ true → KeepsTree A.tells (A.state one.old) (A.state one.new) }
    ensures dry_two { opts.now.dry_run ≡ true → KeepsTree B.tells (B.state two.old) (B.state two.new) }
    ensures dry { opts.now.dry_run ≡ true → KeepsFolder W.tells (W.state work.old) (W.state work.new) }
    ensures compares_one { opts.now.check_sync ≡ CheckSync.Only → KeepsTree A.tells (A.state one.old) (A.state one.new) }
    ensures compares_two { opts.now.check_sync ≡ CheckSync.Only → KeepsTree B.tells (B.state two.old) (B.state two.new) }
    ensures compares { opts.now.check_sync ≡ CheckSync.Only → KeepsFolder W.tells (W.state work.old) (W.state work.new) }
    ensures compares_sink { opts.now.check_sync ≡ CheckSync.Only → S.state sink.new ≡ S.state sink.old }
    ensures grounds { IfErr result (HasGrounds limits.now (by_side A.tells B.tells)) }
    ensures told { IsTold (by_side A.tells B.tells) (by_side (A.state one.old) (B.state two.old)) (end_of result) }
    ensures moment { IsTrue C.tells → C.moment clock.new ≡ C.moment clock.old }
    ensures windows { ((A.state one.new).window ≡ (A.state one.old).window) × ((B.state two.new).window ≡ (B.state two.old).window) }
    ensures left1 { (A.state one.old).left ≡ None → (A.state one.new).left ≡ None }
    ensures left2 { (B.state two.old).left ≡ None → (B.state two.new).left ≡ None }
    ensures left { (W.state work.old).left ≡ None → (W.state work.new).left ≡ None }
    ensures causes { HasCauses (counts (A.state one.old).faults (B.state two.old).faults (W.state work.old).faults (S.state sink.old).faults) (counts (A.state one.new).faults (B.state two.new).faults (W.state work.new).faults (S.state sink.new).faults) result }
{
    // Read here, so that its range is known to the proof.
    let _limit = limits.listing;
    let started = match start(alloc, opts, limits, &entered.digest, work) {
        Ok(started) => started,
        Err(end) => return Err(end),
    };
    if is_only(opts.check_sync) {
        return compare_base(alloc, opts, &started, one, two);
    }
    let (pair, stamp) = (started.pair, started.stamp);
    let Look {
        view,
        compare,
        plan,
    } = match look_ordinary(alloc, opts, limits, &entered.rules, started, one, two) {
        Ok(look) => look,
        Err(end) => return Err(end),
    };
    let Ok(mut buffer) = copy_buffer(alloc) else {
        return Err(End::OutOfMemory);
    };
    match plan_lines(Some(&view), &compare, &plan, sink) {
        Ok(()) => {}
        Err(_) => return Err(End::SinkFault { done: false }),
    }
    if opts.dry_run {
        return Ok(End::DryRun);
    }
    let prepared = Prepared {
        stamp,
        compare,
        plan,
    };
    let renewal = Renewal {
        max_lock: opts.max_lock,
        written_at: entered.locked_at,
    };
    match carry_out_ordinary(prepared, pair, renewal, one, two, work, clock, &mut buffer) {
        Ok(changes) => Ok(End::Done {
            one: changes.one,
            two: changes.two,
        }),
        Err(end) => Err(end),
    }
}

/// Whether a run only compares its base.
fn is_only(check_sync: CheckSync) -> bool
    ensures { result ≡ is_only_of check_sync }
{
    match check_sync {
        CheckSync::Only => true,
        CheckSync::Always | CheckSync::Never => false,
    }
}
