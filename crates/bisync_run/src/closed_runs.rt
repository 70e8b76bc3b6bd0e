//! A run but for its last line: it is entered, held and closed.

ghost use Rattle.std.specs.Prelude.{◌≡◌, ◌≢◌, ◌⊎◌, ◌++◌, ◌||◌, ℕ, List, [], IsTrue, None, Some, true, false};
ghost use Rattle.bisync_tree.specs.declared.options.Prefer.{Prefer};
ghost use Rattle.bisync_model.specs.Trees.{by_side};
ghost use Rattle.bisync_device.specs.Faults.{Rose};
ghost use Rattle.bisync_device.specs.Remote.{KeepsTree};
ghost use Rattle.bisync_device.specs.WorkFolder.{Absent, IsSettled};
ghost use Rattle.bisync_opts.specs.Ranges.{IsInRange};
ghost use Rattle.bisync_work.specs.Locks.{ChangesLock, IsFree, KeepsBlocking};
ghost use Rattle.bisync_work.specs.Moves.{IsFallen};
ghost use Rattle.bisync_run.specs.Beginnings.{AnswersBeginningOf, IsWellBegunOf};
ghost use Rattle.bisync_run.specs.CountedChanges.{CountsChanges};
ghost use Rattle.bisync_run.specs.Counts.{counts, IsCaused, Later};
ghost use Rattle.bisync_run.specs.EndKinds.{is_good, is_after_good, has_freed, is_before_lock, is_unlocked, lets_fall, may_have_changed, may_tell_plan};
ghost use Rattle.bisync_run.specs.Entering.{AtMoment, HasSomeRules, IsEntryEnd, IsHeldBack};
ghost use Rattle.bisync_run.specs.FilterRules.{KnowsRules};
ghost use Rattle.bisync_run.specs.FolderBases.{LeavesFolderBase, LeavesNextInPlace, Writes, compared};
ghost use Rattle.bisync_run.specs.Grounds.{HasGrounds, IsTold};
ghost use Rattle.bisync_run.specs.KeptNames.{KeepsOwn};
ghost use Rattle.bisync_run.specs.LeftNames.{LeavesBaseSetBack, LeavesOwnLock, StaysOrFell, StaysOrStands, StoresDigestOf};
ghost use Rattle.bisync_run.specs.LockNew.{KeepsLockNew};
ghost use Rattle.bisync_run.specs.Ordinary.{KeepsOrdinaryRest};
ghost use Rattle.bisync_run.specs.OrdinaryEnds.{IsOrdinaryEnd};
ghost use Rattle.bisync_run.specs.OrdinaryRuns.{AnswersOrdinaryRun, HasOrdinaryNumbers, IsDoneBy, IsUnrefused, KeepsOrdinaryBaseOf, LeavesOrdinaryBaseOf, LeavesOrdinaryTreesOf, TellsOrdinaryRun};
ghost use Rattle.bisync_run.specs.OwnNames.{HoldsOwnOf};
ghost use Rattle.bisync_run.specs.ResyncEnds.{IsResyncEnd};
ghost use Rattle.bisync_run.specs.ResyncRuns.{HasOutcomeOf, LeavesMixOf, AnswersRun, AreSetAsideBy, HasNoRefusal, IsResyncedBy, HasNumbers, LeavesBaseOf, LeavesTreesOf, TellsRun, LeavesLock, but_run};
ghost use Rattle.bisync_run.specs.Sides.{compare_in};

use crate::closing::close;
use crate::entering::enter;
use crate::held::held;
use bisync_device::{Clock, Remote, Sink, Work};
use bisync_opts::{CheckSync, Opts};
use bisync_report::End;
use bisync_tree::Limits;
use std::alloc::Global;

/// A run up to its last line.
pub fn run_to_close<A: Remote, B: Remote, W: Work, C: Clock, S: Sink>(
    alloc: Global,
    opts: &Opts,
    limits: &Limits,
    one: &mut A,
    two: &mut B,
    work: &mut W,
    clock: &mut C,
    sink: &mut S,
) -> End
    requires { IsInRange opts.now }
    ensures answers { (mode : Prefer) → opts.now.resync ≡ Some mode → IsTrue A.tells → IsTrue B.tells → IsTrue W.tells →
        AnswersRun mode opts.now limits.now (W.state work.old).folder (by_side (A.state one.old) (B.state two.old)) C.tells (C.moment clock.old) result }
    ensures accepted { (mode : Prefer) → opts.now.resync ≡ Some mode → IsTrue A.tells → IsTrue B.tells → IsTrue W.tells → is_after_good result ≡ true →
        HasNoRefusal mode opts.now limits.now (W.state work.old).folder (by_side (A.state one.old) (B.state two.old)) C.tells (C.moment clock.old) }
    ensures resynced { (mode : Prefer) → opts.now.resync ≡ Some mode → IsTrue A.tells → IsTrue B.tells → IsTrue W.tells → opts.now.dry_run ≡ false → is_after_good result ≡ true →
        IsResyncedBy mode opts.now limits.now (W.state work.old).folder (by_side (A.state one.old) (B.state two.old)) (W.state work.new).folder (by_side (A.state one.new) (B.state two.new)) }
    ensures set_aside { (mode : Prefer) → opts.now.resync ≡ Some mode → IsTrue W.tells → opts.now.dry_run ≡ false → is_after_good result ≡ true → AreSetAsideBy opts.now (W.state work.old).folder (W.state work.new).folder }
    ensures only { (mode : Prefer) → opts.now.resync ≡ Some mode → IsResyncEnd opts.now result }
    ensures numbers { (mode : Prefer) → opts.now.resync ≡ Some mode → IsTrue A.tells → IsTrue B.tells → KnowsRules W.tells opts.now.filters → is_good result ≡ true → HasNumbers mode opts.now (W.state work.old).folder (by_side (A.state one.old) (B.state two.old)) result }
    ensures base { (mode : Prefer) → opts.now.resync ≡ Some mode → IsTrue A.tells → IsTrue B.tells → IsTrue W.tells →
        LeavesBaseOf mode opts.now limits.now (W.state work.old).folder (by_side (A.state one.old) (B.state two.old)) (W.state work.new).folder (by_side (A.state one.new) (B.state two.new)) }
    ensures trees { (mode : Prefer) → opts.now.resync ≡ Some mode → IsTrue A.tells → IsTrue B.tells → IsTrue W.tells →
        LeavesTreesOf mode opts.now limits.now (W.state work.old).folder (by_side (A.state one.old) (B.state two.old)) C.tells (C.moment clock.old) result (W.state work.new).folder (by_side (A.state one.new) (B.state two.new)) }
    ensures mixed { (mode : Prefer) → opts.now.resync ≡ Some mode → IsTrue A.tells → IsTrue B.tells → KnowsRules W.tells opts.now.filters → LeavesMixOf mode opts.now (W.state work.old).folder (by_side (A.state one.old) (B.state two.old)) (by_side (A.state one.new) (B.state two.new)) }
    ensures outcome { (mode : Prefer) → opts.now.resync ≡ Some mode → IsTrue A.tells → IsTrue B.tells → KnowsRules W.tells opts.now.filters → opts.now.dry_run ≡ false → is_after_good result ≡ true → HasOutcomeOf mode opts.now (W.state work.old).folder (by_side (A.state one.old) (B.state two.old)) (by_side (A.state one.new) (B.state two.new)) }
    ensures resync_fell { (mode : Prefer) → opts.now.resync ≡ Some mode → IsTrue W.tells → (Rose (W.state work.old).faults (W.state work.new).faults → ⊥) → is_after_good result ≡ false → StaysOrFell opts.now result (W.state work.old).folder (W.state work.new).folder (KeepsTree A.tells (A.state one.old) (A.state one.new) × KeepsTree B.tells (B.state two.old) (B.state two.new)) }
    ensures run_answers { opts.now.resync ≡ None → IsTrue A.tells → IsTrue B.tells → IsTrue W.tells →
        AnswersOrdinaryRun opts.now limits.now (W.state work.old).folder (by_side (A.state one.old) (B.state two.old)) C.tells (C.moment clock.old) result }
    ensures unrefused { opts.now.resync ≡ None → IsTrue A.tells → IsTrue B.tells → IsTrue W.tells → is_after_good result ≡ true →
        IsUnrefused opts.now limits.now (W.state work.old).folder (by_side (A.state one.old) (B.state two.old)) C.tells (C.moment clock.old) }
    ensures begins { opts.now.resync ≡ None → IsTrue W.tells →
        AnswersBeginningOf opts.now limits.now (W.state work.old).folder (by_side (A.state one.old) (B.state two.old)) C.tells (C.moment clock.old) result }
    ensures begun { opts.now.resync ≡ None → IsTrue W.tells → is_after_good result ≡ true →
        IsWellBegunOf opts.now limits.now (W.state work.old).folder (by_side (A.state one.old) (B.state two.old)) C.tells (C.moment clock.old) }
    ensures done { opts.now.resync ≡ None → IsTrue A.tells → IsTrue B.tells → IsTrue W.tells → opts.now.dry_run ≡ false → opts.now.check_sync ≢ CheckSync.Only → is_after_good result ≡ true →
        IsDoneBy opts.now limits.now (W.state work.old).folder (by_side (A.state one.old) (B.state two.old)) (W.state work.new).folder (by_side (A.state one.new) (B.state two.new)) }
    ensures run_numbers { opts.now.resync ≡ None → IsTrue A.tells → IsTrue B.tells → IsTrue W.tells → is_good result ≡ true → HasOrdinaryNumbers opts.now limits.now (W.state work.old).folder (by_side (A.state one.old) (B.state two.old)) result }
    ensures run_base { opts.now.resync ≡ None → IsTrue A.tells → IsTrue B.tells → IsTrue W.tells →
        LeavesOrdinaryBaseOf opts.now limits.now (W.state work.old).folder (by_side (A.state one.old) (B.state two.old)) (W.state work.new).folder (by_side (A.state one.new) (B.state two.new)) }
    ensures resilient_base { opts.now.resync ≡ None → IsTrue A.tells → IsTrue B.tells → IsTrue W.tells → (opts.now.resilient || opts.now.dry_run) ≡ true →
        KeepsOrdinaryBaseOf opts.now limits.now (W.state work.old).folder (by_side (A.state one.old) (B.state two.old)) (W.state work.new).folder (by_side (A.state one.new) (B.state two.new)) }
    ensures run_trees { opts.now.resync ≡ None → IsTrue A.tells → IsTrue B.tells → IsTrue W.tells →
        LeavesOrdinaryTreesOf opts.now limits.now (W.state work.old).folder (by_side (A.state one.old) (B.state two.old)) C.tells (C.moment clock.old) result (W.state work.new).folder (by_side (A.state one.new) (B.state two.new)) }
    ensures set_back { opts.now.resync ≡ None → IsTrue W.tells → LeavesBaseSetBack limits.now (compared opts.now (by_side (A.state one.old) (B.state two.old))) (W.state work.old).folder (W.state work.new).folder (KeepsTree A.tells (A.state one.old) (A.state one.new) × KeepsTree B.tells (B.state two.old) (B.state two.new)) }
    ensures stands { opts.now.resync ≡ None → IsTrue W.tells → StaysOrStands opts.now limits.now result (W.state work.old).folder (W.state work.new).folder (KeepsTree A.tells (A.state one.old) (A.state one.new) × KeepsTree B.tells (B.state two.old) (B.state two.new)) }
    ensures names { IsTrue W.tells → HoldsOwnOf opts.now limits.now (W.state work.old).folder (by_side (A.state one.old) (B.state two.old)) (W.state work.new).folder }
    ensures run_rest { opts.now.resync ≡ None → IsTrue W.tells → KeepsOrdinaryRest (lets_fall opts.now.resilient opts.now.dry_run result) (W.state work.old).folder (W.state work.new).folder }
    ensures only_run { opts.now.resync ≡ None → IsOrdinaryEnd opts.now (compare_in opts.now.compare (A.state one.old).window (B.state two.old).window) result }
    ensures only_one { opts.now.resync ≡ None → opts.now.check_sync ≡ CheckSync.Only → KeepsTree A.tells (A.state one.old) (A.state one.new) }
    ensures only_two { opts.now.resync ≡ None → opts.now.check_sync ≡ CheckSync.Only → KeepsTree B.tells (B.state two.old) (B.state two.new) }
    ensures only_base { opts.now.resync ≡ None → opts.now.check_sync ≡ CheckSync.Only → IsTrue W.tells → KeepsOwn opts.now result (W.state work.old).folder (W.state work.new).folder }
    ensures only_sink { opts.now.resync ≡ None → opts.now.check_sync ≡ CheckSync.Only → S.state sink.new ≡ S.state sink.old }
    ensures entered { IsTrue W.tells → ((is_before_lock result ≡ true) × ChangesLock (W.state work.old).folder (W.state work.new).folder × KeepsTree A.tells (A.state one.old) (A.state one.new) × KeepsTree B.tells (B.state two.old) (B.state two.new)) ⊎ (AtMoment C.tells (C.moment clock.old) (λ now. IsFree now (W.state work.old).folder.lock) × HasSomeRules opts.now.filters (W.state work.old).folder) }
    ensures blocked { IsTrue W.tells → AtMoment C.tells (C.moment clock.old) (λ now. KeepsBlocking now (W.state work.old).folder (W.state work.new).folder) }
    ensures folder_base { IsTrue W.tells → LeavesFolderBase opts.now limits.now (W.state work.old).folder (by_side (A.state one.old) (B.state two.old)) result (W.state work.new).folder }
    ensures folder_next { IsTrue W.tells → Writes opts.now → is_after_good result ≡ true → LeavesNextInPlace opts.now limits.now (W.state work.old).folder (by_side (A.state one.old) (B.state two.old)) (W.state work.new).folder }
    ensures settled { IsTrue W.tells → IsSettled (W.state work.old).folder → IsSettled (W.state work.new).folder }
    ensures rest { IsTrue W.tells → but_run (W.state work.new).folder ≡ but_run (W.state work.old).folder }
    ensures untouched_one { may_have_changed result ≡ false → KeepsTree A.tells (A.state one.old) (A.state one.new) }
    ensures untouched_two { may_have_changed result ≡ false → KeepsTree B.tells (B.state two.old) (B.state two.new) }
    ensures kept { IsTrue W.tells → may_have_changed result ≡ false → KeepsOwn opts.now result (W.state work.old).folder (W.state work.new).folder }
    ensures fell { IsTrue W.tells → lets_fall opts.now.resilient opts.now.dry_run result ≡ true → (Rose (W.state work.old).faults (W.state work.new).faults → ⊥) → IsFallen (W.state work.old).folder (W.state work.new).folder }
    ensures dry_one { opts.now.dry_run ≡ true → KeepsTree A.tells (A.state one.old) (A.state one.new) }
    ensures dry_two { opts.now.dry_run ≡ true → KeepsTree B.tells (B.state two.old) (B.state two.new) }
    ensures dry { IsTrue W.tells → opts.now.dry_run ≡ true → ChangesLock (W.state work.old).folder (W.state work.new).folder }
    ensures lock { IsTrue W.tells → (Rose (W.state work.old).faults (W.state work.new).faults → ⊥) → LeavesLock result (W.state work.old).folder (W.state work.new).folder }
    ensures freed { IsTrue W.tells → has_freed result ≡ true → (W.state work.new).folder.lock ≡ Absent }
    ensures lock_new { IsTrue W.tells → (is_after_good result ≡ true) ⊎ (Rose (W.state work.old).faults (W.state work.new).faults → ⊥) → KeepsLockNew (W.state work.old).folder (W.state work.new).folder }
    ensures own_lock { IsTrue W.tells → LeavesOwnLock opts.now C.tells (C.moment clock.old) result (W.state work.old).folder (W.state work.new).folder (KeepsTree A.tells (A.state one.old) (A.state one.new) × KeepsTree B.tells (B.state two.old) (B.state two.new)) }
    ensures digest_late { (mode : Prefer) → opts.now.resync ≡ Some mode → IsTrue W.tells → StoresDigestOf opts.now limits.now (W.state work.old).folder (by_side (A.state one.old) (B.state two.old)) (W.state work.new).folder (KeepsTree A.tells (A.state one.old) (A.state one.new) × KeepsTree B.tells (B.state two.old) (B.state two.new)) }
    ensures no_digest { IsTrue W.tells → opts.now.filters ≡ None → (W.state work.new).folder.filters_md5 ≡ (W.state work.old).folder.filters_md5 }
    ensures entry { IsTrue W.tells → is_unlocked result ≡ true → IsEntryEnd opts.now.filters (W.state work.old).folder C.tells (C.moment clock.old) result }
    ensures unlocked { is_unlocked result ≡ true → (IsTrue W.tells → (W.state work.new).folder ≡ (W.state work.old).folder) × ((W.state work.new).faults ≡ (W.state work.old).faults) }
    ensures held_back { IsTrue C.tells → IsHeldBack (C.moment clock.old) result }
    ensures grounds { HasGrounds limits.now (by_side A.tells B.tells) result }
    ensures told { IsTold (by_side A.tells B.tells) (by_side (A.state one.old) (B.state two.old)) result }
    ensures counted { is_good result ≡ true → CountsChanges (by_side A.tells B.tells) (by_side (A.state one.old) (B.state two.old)) (by_side (A.state one.new) (B.state two.new)) result }
    ensures moment { IsTrue C.tells → C.moment clock.new ≡ C.moment clock.old }
    ensures windows { ((A.state one.new).window ≡ (A.state one.old).window) × ((B.state two.new).window ≡ (B.state two.old).window) }
    ensures left1 { (A.state one.old).left ≡ None → (A.state one.new).left ≡ None }
    ensures left2 { (B.state two.old).left ≡ None → (B.state two.new).left ≡ None }
    ensures left { (W.state work.old).left ≡ None → (W.state work.new).left ≡ None }
    ensures later { Later (counts (A.state one.old).faults (B.state two.old).faults (W.state work.old).faults (S.state sink.old).faults) (counts (A.state one.new).faults (B.state two.new).faults (W.state work.new).faults (S.state sink.new).faults) }
    ensures causes { IsCaused (counts (A.state one.old).faults (B.state two.old).faults (W.state work.old).faults (S.state sink.old).faults) (counts (A.state one.new).faults (B.state two.new).faults (W.state work.new).faults (S.state sink.new).faults) result }
    ensures quiet { IsTrue S.tells → (Rose (S.state sink.old).faults (S.state sink.new).faults → ⊥) → may_tell_plan result ≡ false → (S.state sink.new).bytes ≡ (S.state sink.old).bytes }
    ensures lines { IsTrue S.tells → (lines : List ℕ) × ((S.state sink.new).bytes ≡ (S.state sink.old).bytes ++ lines) }
    ensures built { result ≢ End.NotBuilt }
    ensures report { (mode : Prefer) → opts.now.resync ≡ Some mode → IsTrue A.tells → IsTrue B.tells → IsTrue S.tells → KnowsRules W.tells opts.now.filters →
        TellsRun mode opts.now limits.now W.tells (W.state work.old).folder (by_side (A.state one.old) (B.state two.old)) (W.state work.new).folder (by_side (A.state one.new) (B.state two.new)) (S.state sink.old).bytes [] (S.state sink.new).bytes result }
    ensures run_report { opts.now.resync ≡ None → IsTrue A.tells → IsTrue B.tells → IsTrue W.tells → IsTrue S.tells →
        TellsOrdinaryRun opts.now limits.now (W.state work.old).folder (by_side (A.state one.old) (B.state two.old)) (W.state work.new).folder (by_side (A.state one.new) (B.state two.new)) (S.state sink.old).bytes [] (S.state sink.new).bytes result }
{
    let entered = match enter(alloc, opts, work, clock) {
        Ok(entered) => entered,
        Err(end) => return end,
    };
    let ended = held(alloc, opts, limits, &entered, one, two, work, clock, sink);
    close(opts, work, ended)
}
