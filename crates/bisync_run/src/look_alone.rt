//! An ordinary run up to its plan, which changes no side and no listing.

ghost use Rattle.std.specs.Prelude.{◌≡◌, ◌≢◌, ◌≤◌, IsTrue, IfOk, IfErr, OnOk, None, true, false};
ghost use Rattle.bisync_model.specs.Trees.{by_side};
ghost use Rattle.bisync_device.specs.Faults.{Rose};
ghost use Rattle.bisync_device.specs.Remote.{KeepsTree};
ghost use Rattle.bisync_device.specs.Work.{KeepsFolder};
ghost use Rattle.bisync_device.specs.WorkFolder.{Absent};
ghost use Rattle.bisync_opts.specs.Ranges.{IsInRange};
ghost use Rattle.bisync_work.specs.Locks.{ChangesLock, KeepsBlocking};
ghost use Rattle.bisync_run.specs.Beginnings.{AnswersBeginning, AnswersBeginningOf, IsBegun, IsWellBegunOf};
ghost use Rattle.bisync_run.specs.Closing.{Unlocks};
ghost use Rattle.bisync_run.specs.Counts.{counts, HasCauses};
ghost use Rattle.bisync_run.specs.EndKinds.{is_unlocked};
ghost use Rattle.bisync_run.specs.Entering.{AtMoment, IsEntryEnd, IsHeldBack};
ghost use Rattle.bisync_run.specs.Grounds.{HasGrounds, IsTold};
ghost use Rattle.bisync_run.specs.Looking.{OnlyLooks};
ghost use Rattle.bisync_run.specs.LockNew.{KeepsLockNew};
ghost use Rattle.bisync_run.specs.LookRuns.{CountsFree, FreesWith, IsLookFrom, IsLookOf, IsPlannedLook, IsPlannedView};
ghost use Rattle.bisync_run.specs.OrdinaryEnds.{IsOrdinaryEnd};
ghost use Rattle.bisync_run.specs.OrdinaryRefusals.{AnswersOrdinary};
ghost use Rattle.bisync_run.specs.OrdinaryRuns.{AnswersOrdinaryRun};
ghost use Rattle.bisync_run.specs.ResyncRuns.{LeavesLock};
ghost use Rattle.bisync_run.specs.Sides.{compare_in, sides_of};

use crate::entering::{Entered, enter};
use crate::looks::Look;
use crate::ordinary_looks::look_ordinary;
use crate::starting::start;
use bisync_device::{Clock, Remote, Work};
use bisync_opts::{CheckSync, Opts};
use bisync_report::End;
use bisync_tree::Limits;
use bisync_work::free_lock;
use std::alloc::Global;

/// Looks and plans, from the base of a run that holds the lock.
fn look_held<A: Remote, B: Remote, W: Work>(
    alloc: Global,
    opts: &Opts,
    limits: &Limits,
    entered: &Entered,
    one: &mut A,
    two: &mut B,
    work: &mut W,
) -> Result<Look, End>
    requires range { IsInRange opts.now }
    requires unfiltered { opts.now.filters ≡ None → entered.now.digest ≡ None }
    requires more { opts.now.check_sync ≢ CheckSync.Only }
    ensures look { IsTrue A.tells → IsTrue B.tells → IsTrue W.tells → IfOk result
        (IsLookFrom opts.now limits.now (W.state work.old).folder (sides_of opts.now.compare entered.now.rules (A.state one.old) (B.state two.old)) entered.now.digest) }
    ensures refusal { IsTrue A.tells → IsTrue B.tells → IsTrue W.tells → IfErr result
        (AnswersOrdinary opts.now limits.now (W.state work.old).folder (sides_of opts.now.compare entered.now.rules (A.state one.old) (B.state two.old)) entered.now.digest) }
    ensures begins { IsTrue W.tells → IfErr result
        (AnswersBeginning opts.now limits.now (W.state work.old).folder (sides_of opts.now.compare entered.now.rules (A.state one.old) (B.state two.old)) entered.now.digest) }
    ensures begun { IsTrue W.tells → OnOk result
        (IsBegun opts.now limits.now (W.state work.old).folder (sides_of opts.now.compare entered.now.rules (A.state one.old) (B.state two.old)) entered.now.digest) }
    ensures planned { IfOk result (IsPlannedView opts.now entered.now.rules (A.state one.old).window (B.state two.old).window) }
    ensures kind { IfErr result (IsOrdinaryEnd opts.now (compare_in opts.now.compare (A.state one.old).window (B.state two.old).window)) }
    ensures only { IfErr result (λ end. is_unlocked end ≡ false) }
    ensures grounds { IfErr result (HasGrounds limits.now (by_side A.tells B.tells)) }
    ensures told { IfErr result (IsTold (by_side A.tells B.tells) (by_side (A.state one.old) (B.state two.old))) }
    ensures one { OnlyLooks A.tells (A.state one.old) (A.state one.new) }
    ensures two { OnlyLooks B.tells (B.state two.old) (B.state two.new) }
    ensures folder { KeepsFolder W.tells (W.state work.old) (W.state work.new) }
    ensures left { (W.state work.old).left ≡ None → (W.state work.new).left ≡ None }
    ensures causes { HasCauses (counts (A.state one.old).faults (B.state two.old).faults (W.state work.old).faults 0) (counts (A.state one.new).faults (B.state two.new).faults (W.state work.new).faults 0) result }
{
    let started = match start(alloc, opts, limits, &entered.digest, work) {
        Ok(started) => started,
        Err(end) => return Err(end),
    };
    look_ordinary(alloc, opts, limits, &entered.rules, started, one, two)
}

/// Frees the lock. A refusal stays the answer.
fn unlock<W: Work>(work: &mut W, looked: Result<Look, End>) -> Result<Look, End>
    ensures end { FreesWith looked result }
    ensures unlocks { IsTrue W.tells → Unlocks (W.state work.old).folder (W.state work.new).folder }
    ensures freed { IsTrue W.tells → OnOk result ((W.state work.new).folder.lock ≡ Absent) }
    ensures gone { IsTrue W.tells → (Rose (W.state work.old).faults (W.state work.new).faults → ⊥) → (W.state work.new).folder.lock ≡ Absent }
    ensures counts { CountsFree looked result (W.state work.old).faults (W.state work.new).faults }
    ensures later { (W.state work.old).faults ≤ (W.state work.new).faults }
    ensures left { (W.state work.old).left ≡ None → (W.state work.new).left ≡ None }
{
    let freed = free_lock(work);
    match looked {
        Ok(look) => match freed {
            Ok(()) => Ok(look),
            Err(_) => Err(End::WorkFault),
        },
        Err(end) => Err(end),
    }
}

/// What an ordinary run by these options would see and do. The lock is taken and freed, and nothing
/// else is changed.
///
/// # Errors
///
/// The refusal or the failed device that a run has up to its plan. A lock that can't be freed is
/// `WorkFault`, where no other end came before.
pub fn look<A: Remote, B: Remote, W: Work, C: Clock>(
    alloc: Global,
    opts: &Opts,
    limits: &Limits,
    one: &mut A,
    two: &mut B,
    work: &mut W,
    clock: &mut C,
) -> Result<Look, End>
    requires range { IsInRange opts.now }
    requires no_resync { opts.now.resync ≡ None }
    requires changing { opts.now.dry_run ≡ false }
    requires more { opts.now.check_sync ≢ CheckSync.Only }

    // On devices that tell what they hold:
    ensures look { IsTrue A.tells → IsTrue B.tells → IsTrue W.tells → IfOk result
        (IsLookOf opts.now limits.now (W.state work.old).folder (by_side (A.state one.old) (B.state two.old)) C.tells (C.moment clock.old)) }
    ensures refusal { IsTrue A.tells → IsTrue B.tells → IsTrue W.tells → IfErr result
        (AnswersOrdinaryRun opts.now limits.now (W.state work.old).folder (by_side (A.state one.old) (B.state two.old)) C.tells (C.moment clock.old)) }
    ensures begins { IsTrue W.tells → IfErr result
        (AnswersBeginningOf opts.now limits.now (W.state work.old).folder (by_side (A.state one.old) (B.state two.old)) C.tells (C.moment clock.old)) }
    ensures begun { IsTrue W.tells → OnOk result
        (IsWellBegunOf opts.now limits.now (W.state work.old).folder (by_side (A.state one.old) (B.state two.old)) C.tells (C.moment clock.old)) }

    // Whatever they tell:
    ensures planned { IfOk result (IsPlannedLook opts.now W.tells (W.state work.old).folder.filters (A.state one.old).window (B.state two.old).window) }
    ensures kind { IfErr result (IsOrdinaryEnd opts.now (compare_in opts.now.compare (A.state one.old).window (B.state two.old).window)) }
    ensures entry { IsTrue W.tells → IfErr result (λ end. is_unlocked end ≡ true → IsEntryEnd opts.now.filters (W.state work.old).folder C.tells (C.moment clock.old) end) }
    ensures held_back { IsTrue C.tells → IfErr result (IsHeldBack (C.moment clock.old)) }
    ensures grounds { IfErr result (HasGrounds limits.now (by_side A.tells B.tells)) }
    ensures told { IfErr result (IsTold (by_side A.tells B.tells) (by_side (A.state one.old) (B.state two.old))) }

    // Whatever is answered:
    ensures untouched_one { KeepsTree A.tells (A.state one.old) (A.state one.new) }
    ensures untouched_two { KeepsTree B.tells (B.state two.old) (B.state two.new) }
    ensures kept { IsTrue W.tells → ChangesLock (W.state work.old).folder (W.state work.new).folder }
    ensures blocked { IsTrue W.tells → AtMoment C.tells (C.moment clock.old) (λ now. KeepsBlocking now (W.state work.old).folder (W.state work.new).folder) }
    ensures freed { IsTrue W.tells → OnOk result ((W.state work.new).folder.lock ≡ Absent) }
    ensures lock { IsTrue W.tells → (Rose (W.state work.old).faults (W.state work.new).faults → ⊥) → IfErr result (λ end. LeavesLock end (W.state work.old).folder (W.state work.new).folder) }
    ensures lock_new { IsTrue W.tells → (Rose (W.state work.old).faults (W.state work.new).faults → ⊥) → KeepsLockNew (W.state work.old).folder (W.state work.new).folder }
    ensures windows { ((A.state one.new).window ≡ (A.state one.old).window) × ((B.state two.new).window ≡ (B.state two.old).window) }
    ensures moment { IsTrue C.tells → C.moment clock.new ≡ C.moment clock.old }
    ensures left1 { (A.state one.old).left ≡ None → (A.state one.new).left ≡ None }
    ensures left2 { (B.state two.old).left ≡ None → (B.state two.new).left ≡ None }
    ensures left { (W.state work.old).left ≡ None → (W.state work.new).left ≡ None }
    ensures causes { HasCauses (counts (A.state one.old).faults (B.state two.old).faults (W.state work.old).faults 0) (counts (A.state one.new).faults (B.state two.new).faults (W.state work.new).faults 0) result }
{
    let entered = match enter(alloc, opts, work, clock) {
        Ok(entered) => entered,
        Err(end) => return Err(end),
    };
    let looked = look_held(alloc, opts, limits, &entered, one, two, work);
    unlock(work, looked)
}
