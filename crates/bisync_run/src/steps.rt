//! The steps of a plan, in order, while the lock is kept.

ghost use Rattle.std.specs.Prelude.{◌≡◌, ◌⊎◌, ◌<◌, IsTrue, IsOk, IfOk, IfErr, OnOk, None, is_err, length};
ghost use Rattle.std.specs.List.{sum_by};
ghost use Rattle.bisync_tree.specs.Ranges.{IsLongEnough};
ghost use Rattle.bisync_model.specs.Trees.{by_side};
ghost use Rattle.bisync_model.specs.Changes.{changes_of};
ghost use Rattle.bisync_device.specs.Faults.{HasCause, Rose};
ghost use Rattle.bisync_transfer.specs.StepEffect.{changed_side};
ghost use Rattle.bisync_transfer.specs.StepTrees.{AreDone};
ghost use Rattle.bisync_work.specs.Locks.{ChangesLock};
ghost use Rattle.bisync_run.specs.CountedChanges.{HasCounted};
ghost use Rattle.bisync_run.specs.Counts.{counts, HasCauses};
ghost use Rattle.bisync_run.specs.LeftNames.{KeepsOwnLock};
ghost use Rattle.bisync_run.specs.LockNew.{KeepsLockNew};
ghost use Rattle.bisync_run.specs.Stepping.{IsPartDone, FindsAll, FindsTold, IsStepEnd, MovedDiffers, MovedIsRead, TellsStep, IsKept, path_of, end_of_step};

use bisync_device::{Clock, Failed, Remote, Work};
use bisync_report::End;
use bisync_text::Path;
use bisync_transfer::{StepFault, perform};
use bisync_tree::{Side, Step};
use bisync_work::renew;

/// The numbers of changes on Path1 and Path2.
#[derive(Clone, Copy, Debug, PartialEq, Eq)]
pub struct Changes {
    pub one: u64,
    pub two: u64,
}

/// How the lock is kept while steps are done.
#[derive(Clone, Copy, Debug, PartialEq, Eq)]
pub struct Renewal {
    /// How long a lock holds, in nanoseconds. None is for ever.
    pub max_lock: Option<i64>,
    /// The moment at which the lock was last written.
    pub written_at: i64,
}

/// Does the steps in order, up to the first that fails. Before each of them the lock is written again
/// where at least half of its time has passed. Takes no memory.
pub fn do_steps<A: Remote, B: Remote, W: Work, C: Clock>(
    steps: Vec<Step>,
    renewal: Renewal,
    one: &mut A,
    two: &mut B,
    work: &mut W,
    clock: &mut C,
    buffer: &mut [u8],
) -> Result<Changes, End>
    requires room { 0 < length buffer.old }
    requires long { IsLongEnough renewal.max_lock }
    ensures done { IsTrue A.tells → IsTrue B.tells → OnOk result (AreDone steps.items (by_side (A.state one.old) (B.state two.old)) (by_side (A.state one.new) (B.state two.new))) }
    ensures part { IsTrue A.tells → IsTrue B.tells → IsPartDone steps.items (by_side (A.state one.old) (B.state two.old)) (by_side (A.state one.new) (B.state two.new)) }
    ensures changes { IfOk result (λ changes. (changes.one ≡ sum_by (changes_of Side.One) steps.items) × (changes.two ≡ sum_by (changes_of Side.Two) steps.items)) }
    ensures counted { IfOk result (λ changes. HasCounted (by_side A.tells B.tells) (by_side (A.state one.old) (B.state two.old)) (by_side (A.state one.new) (B.state two.new)) changes.one changes.two) }
    ensures end { IfErr result IsStepEnd }
    ensures found { FindsAll (by_side A.tells B.tells) steps.items (by_side (A.state one.old) (B.state two.old)) → IfErr result (FindsTold (by_side A.tells B.tells)) }
    ensures moved { IfErr result MovedDiffers }
    ensures read { IfErr result MovedIsRead }
    ensures told { IfErr result (TellsStep steps.items) }
    ensures lock { IsTrue W.tells → ChangesLock (W.state work.old).folder (W.state work.new).folder }
    ensures lock_new { IsTrue W.tells → IsOk result ⊎ (Rose (W.state work.old).faults (W.state work.new).faults → ⊥) → KeepsLockNew (W.state work.old).folder (W.state work.new).folder }
    ensures own_lock { IsTrue W.tells → KeepsOwnLock renewal.max_lock C.tells (C.moment clock.old) (W.state work.old).folder.lock (W.state work.new).folder.lock }
    ensures windows { ((A.state one.new).window ≡ (A.state one.old).window) × ((B.state two.new).window ≡ (B.state two.old).window) }
    ensures moment { IsTrue C.tells → C.moment clock.new ≡ C.moment clock.old }
    ensures left1 { (A.state one.old).left ≡ None → (A.state one.new).left ≡ None }
    ensures left2 { (B.state two.old).left ≡ None → (B.state two.new).left ≡ None }
    ensures left { (W.state work.old).left ≡ None → (W.state work.new).left ≡ None }
    ensures causes { HasCauses (counts (A.state one.old).faults (B.state two.old).faults (W.state work.old).faults 0) (counts (A.state one.new).faults (B.state two.new).faults (W.state work.new).faults 0) result }
{
    let changes = count_changes(&steps);
    let mut written_at = renewal.written_at;
    for step in steps {
        written_at = match keep_lock(renewal.max_lock, written_at, work, clock) {
            Ok(moment) => moment,
            Err(Failed) => return Err(End::WorkFault),
        };
        match perform(&step, one, two, buffer) {
            Ok(()) => {}
            Err(fault) => return Err(end_of(step, fault)),
        }
    }
    Ok(changes)
}

/// The changes that steps make on each side.
fn count_changes(steps: &[Step]) -> Changes
    ensures one { result.one ≡ sum_by (changes_of Side.One) steps.now }
    ensures two { result.two ≡ sum_by (changes_of Side.Two) steps.now }
{
    let mut changes = Changes { one: 0, two: 0 };
    for step in steps {
        match changed(step) {
            Side::One => changes.one += 1,
            Side::Two => changes.two += 1,
        }
    }
    changes
}

/// The side that a step changes.
fn changed(step: &Step) -> Side
    ensures { result ≡ changed_side step.now }
{
    match step {
        Step::Copy { from, .. } => from.other(),
        Step::Rename { side, .. } | Step::Delete { side, .. } => *side,
    }
}

/// Writes the lock again where at least half of its time has passed, and answers the moment at which
/// it was last written. Without a `max_lock` the clock isn't read.
fn keep_lock<W: Work, C: Clock>(
    max_lock: Option<i64>,
    written_at: i64,
    work: &mut W,
    clock: &mut C,
) -> Result<i64, Failed>
    requires { IsLongEnough max_lock }
    ensures kept { IfOk result (λ moment. IsKept C.tells W.tells max_lock written_at (C.moment clock.old) (W.state work.old).folder moment (W.state work.new).folder) }
    ensures lock { IsTrue W.tells → ChangesLock (W.state work.old).folder (W.state work.new).folder }
    ensures own_lock { IsTrue W.tells → KeepsOwnLock max_lock C.tells (C.moment clock.old) (W.state work.old).folder.lock (W.state work.new).folder.lock }
    ensures moment { IsTrue C.tells → C.moment clock.new ≡ C.moment clock.old }
    ensures left { (W.state work.old).left ≡ None → (W.state work.new).left ≡ None }
    ensures cause { HasCause (is_err result) (W.state work.old).faults (W.state work.new).faults }
{
    let Some(max_lock) = max_lock else {
        return Ok(written_at);
    };
    let now = clock.now();
    if now.saturating_sub(written_at) < max_lock / 2 {
        return Ok(written_at);
    }
    renew(work, now, max_lock)?;
    Ok(now)
}

/// The end of a run at a step that wasn't done, or may not have been.
fn end_of(step: Step, fault: StepFault) -> End
    ensures { result ≡ end_of_step step fault }
{
    match fault {
        StepFault::RemoteFault(side) => End::RemoteFault(side),
        StepFault::Moved(side, listed, read) => End::Moved(side, listed_path(step), listed, read),
    }
}

/// The path under which a step's file was listed.
fn listed_path(step: Step) -> Path
    ensures { result ≡ path_of step }
{
    match step {
        Step::Copy { path, .. } | Step::Delete { path, .. } => path,
        Step::Rename { from, .. } => from,
    }
}
