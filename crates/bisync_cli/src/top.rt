//! The top call.

ghost use Rattle.std.specs.Prelude.{◌≡◌, ◌≢◌, ◌⊎◌, ◌+◌, ◌++◌, ◌||◌, ℕ, List, Option, IsTrue, None, Some, true, false};
ghost use Rattle.bisync_report.specs.Status.{status_of};
ghost use Rattle.bisync_run.specs.Promises.{Absent, AddsLast, AnswersBeginningOf, AnswersOrdinaryRun, AnswersRun, AreSetAsideBy, AtMoment, but_run, by_side, ChangesLock, compare_in, compared, counts, Done, Entry, has_freed, HasGrounds, HasNoRefusal, HasNumbers, HasOrdinaryNumbers, HasOutcomeOf, HasSomeRules, HoldsOwnOf, is_after_good, is_before_lock, is_good, is_unlocked, IsCaused, IsDoneBy, IsEntryEnd, IsFallen, IsFree, IsHeldBack, IsImage, IsOrdinaryEnd, IsResyncedBy, IsResyncEnd, IsSettled, IsTold, IsUnrefused, IsWellBegunOf, KeepsBlocking, KeepsLockNew, KeepsOrdinaryBaseOf, KeepsOrdinaryRest, KeepsOwn, KeepsSafe, KeepsTree, KnowsRules, last_text, Later, LeavesBaseOf, LeavesBaseSetBack, LeavesFolderBase, LeavesInSync, LeavesLock, LeavesMixOf, LeavesNextInPlace, LeavesOrdinaryBaseOf, LeavesOrdinaryTreesOf, LeavesOwnLock, LeavesResyncInSync, LeavesTreesOf, lets_fall, may_have_changed, may_tell_plan, MayBeLeft, Only, OutOfSync, PathBytes, Resynced, StaysOrFell, StaysOrStands, StoresDigestOf, TellsOrdinaryRun, TellsRun, WasApartBefore, WorkFolder, Writes};
ghost use Rattle.bisync_cli.specs.Tasks.{AfterGood, AllTell, OfOrdinary, OfResync, OfRun, Stood, task_in, asks_run, is_resilient};
ghost use Rattle.bisync_cli.specs.Ends.{EndsBy};

use crate::answers::{Answer, told};
use crate::tasks::{Task, let_go, read_task};
use bisync_device::{Clock, Folders, Remote, Sink, Work};
use bisync_opts::OptFault;
use bisync_report::{End, status};
use bisync_run::run;
use bisync_text::Text;
use bisync_tree::Limits;
use std::alloc::Global;

/// Does what the words ask for. `keep1` and `keep2` are the remotes of the backup folders, which
/// nothing touches yet.
pub fn bisync_main<A: Folders, B: Folders, K: Remote, L: Remote, W: Work, C: Clock, S: Sink>(
    alloc: Global,
    words: &[Text],
    one: &mut A,
    two: &mut B,
    keep1: &mut K,
    keep2: &mut L,
    work: &mut W,
    clock: &mut C,
    sink: &mut S,
) -> Answer
    ensures end { EndsBy (task_in words.now) result.end }
    ensures status { result.status ≡ status_of result.end (is_resilient words.now) }
    ensures one { asks_run words.now ≡ false → one.new ≡ one.old }
    ensures two { asks_run words.now ≡ false → two.new ≡ two.old }
    ensures keep1 { keep1.new ≡ keep1.old }
    ensures keep2 { keep2.new ≡ keep2.old }
    ensures work { asks_run words.now ≡ false → work.new ≡ work.old }
    ensures clock { asks_run words.now ≡ false → clock.new ≡ clock.old }
    ensures told { asks_run words.now ≡ false → IsTrue S.tells → Stood (S.state sink.old).faults (S.state sink.new).faults → (S.state sink.new).bytes ≡ (S.state sink.old).bytes ++ last_text result.end }
    ensures answers { OfResync words.now (λ opts mode. AllTell A.tells B.tells W.tells (AnswersRun mode opts Limits.REAL (W.state work.old).folder (by_side (A.state one.old) (B.state two.old)) C.tells (C.moment clock.old) result.end)) }
    ensures accepted { OfResync words.now (λ opts mode. AllTell A.tells B.tells W.tells (AfterGood result.end → HasNoRefusal mode opts Limits.REAL (W.state work.old).folder (by_side (A.state one.old) (B.state two.old)) C.tells (C.moment clock.old))) }
    ensures resynced { OfResync words.now (λ opts mode. AllTell A.tells B.tells W.tells (opts.dry_run ≡ false → AfterGood result.end → IsResyncedBy mode opts Limits.REAL (W.state work.old).folder (by_side (A.state one.old) (B.state two.old)) (W.state work.new).folder (by_side (A.state one.new) (B.state two.new)))) }
    ensures set_aside { OfResync words.now (λ opts mode. IsTrue W.tells → opts.dry_run ≡ false → AfterGood result.end → AreSetAsideBy opts (W.state work.old).folder (W.state work.new).folder) }
    ensures only { OfResync words.now (λ opts mode. IsResyncEnd opts result.end) }
    ensures numbers { OfResync words.now (λ opts mode. IsTrue A.tells → IsTrue B.tells → KnowsRules W.tells opts.filters → is_good result.end ≡ true → HasNumbers mode opts (W.state work.old).folder (by_side (A.state one.old) (B.state two.old)) result.end) }
    ensures base { OfResync words.now (λ opts mode. AllTell A.tells B.tells W.tells (LeavesBaseOf mode opts Limits.REAL (W.state work.old).folder (by_side (A.state one.old) (B.state two.old)) (W.state work.new).folder (by_side (A.state one.new) (B.state two.new)))) }
    ensures images { OfResync words.now (λ opts mode. AllTell A.tells B.tells W.tells (IsSettled (W.state work.old).folder → (h : WorkFolder) → IsImage (W.state work.new).folder h → LeavesBaseOf mode opts Limits.REAL (W.state work.old).folder (by_side (A.state one.old) (B.state two.old)) h (by_side (A.state one.new) (B.state two.new)))) }
    ensures trees { OfResync words.now (λ opts mode. AllTell A.tells B.tells W.tells (LeavesTreesOf mode opts Limits.REAL (W.state work.old).folder (by_side (A.state one.old) (B.state two.old)) C.tells (C.moment clock.old) result.end (W.state work.new).folder (by_side (A.state one.new) (B.state two.new)))) }
    ensures mixed { OfResync words.now (λ opts mode. IsTrue A.tells → IsTrue B.tells → KnowsRules W.tells opts.filters → LeavesMixOf mode opts (W.state work.old).folder (by_side (A.state one.old) (B.state two.old)) (by_side (A.state one.new) (B.state two.new))) }
    ensures outcome { OfResync words.now (λ opts mode. IsTrue A.tells → IsTrue B.tells → KnowsRules W.tells opts.filters → opts.dry_run ≡ false → AfterGood result.end → HasOutcomeOf mode opts (W.state work.old).folder (by_side (A.state one.old) (B.state two.old)) (by_side (A.state one.new) (B.state two.new))) }
    ensures resync_fell { OfResync words.now (λ opts mode. IsTrue W.tells → Stood (W.state work.old).faults (W.state work.new).faults → is_after_good result.end ≡ false → StaysOrFell opts result.end (W.state work.old).folder (W.state work.new).folder (KeepsTree A.tells (A.state one.old) (A.state one.new) × KeepsTree B.tells (B.state two.old) (B.state two.new))) }
    ensures run_answers { OfOrdinary words.now (λ opts. AllTell A.tells B.tells W.tells (AnswersOrdinaryRun opts Limits.REAL (W.state work.old).folder (by_side (A.state one.old) (B.state two.old)) C.tells (C.moment clock.old) result.end)) }
    ensures unrefused { OfOrdinary words.now (λ opts. AllTell A.tells B.tells W.tells (AfterGood result.end → IsUnrefused opts Limits.REAL (W.state work.old).folder (by_side (A.state one.old) (B.state two.old)) C.tells (C.moment clock.old))) }
    ensures begins { OfOrdinary words.now (λ opts. IsTrue W.tells → AnswersBeginningOf opts Limits.REAL (W.state work.old).folder (by_side (A.state one.old) (B.state two.old)) C.tells (C.moment clock.old) result.end) }
    ensures begun { OfOrdinary words.now (λ opts. IsTrue W.tells → AfterGood result.end → IsWellBegunOf opts Limits.REAL (W.state work.old).folder (by_side (A.state one.old) (B.state two.old)) C.tells (C.moment clock.old)) }
    ensures done { OfOrdinary words.now (λ opts. AllTell A.tells B.tells W.tells (opts.dry_run ≡ false → opts.check_sync ≢ Only → AfterGood result.end → IsDoneBy opts Limits.REAL (W.state work.old).folder (by_side (A.state one.old) (B.state two.old)) (W.state work.new).folder (by_side (A.state one.new) (B.state two.new)))) }
    ensures in_sync { OfOrdinary words.now (λ opts. AllTell A.tells B.tells W.tells (opts.dry_run ≡ false → opts.check_sync ≢ Only → AfterGood result.end → LeavesInSync opts Limits.REAL (W.state work.old).folder (by_side (A.state one.old) (B.state two.old)) (by_side (A.state one.new) (B.state two.new)))) }
    ensures counted1 { IsTrue A.tells → (n m : ℕ) → (result.end ≡ Done n m) ⊎ (result.end ≡ Resynced n m) → (A.state one.new).changes ≡ (A.state one.old).changes + n }
    ensures counted2 { IsTrue B.tells → (n m : ℕ) → (result.end ≡ Done n m) ⊎ (result.end ≡ Resynced n m) → (B.state two.new).changes ≡ (B.state two.old).changes + m }
    ensures was_apart { OfOrdinary words.now (λ opts. IsTrue W.tells → (p : PathBytes) (a b : Option Entry) → result.end ≡ OutOfSync p a b → WasApartBefore opts Limits.REAL (W.state work.old).folder (by_side (A.state one.old) (B.state two.old))) }
    ensures resync_in_sync { OfResync words.now (λ opts mode. AllTell A.tells B.tells W.tells (opts.dry_run ≡ false → AfterGood result.end → LeavesResyncInSync mode opts (W.state work.old).folder (by_side (A.state one.old) (B.state two.old)) (by_side (A.state one.new) (B.state two.new)))) }
    ensures run_numbers { OfOrdinary words.now (λ opts. AllTell A.tells B.tells W.tells (is_good result.end ≡ true → HasOrdinaryNumbers opts Limits.REAL (W.state work.old).folder (by_side (A.state one.old) (B.state two.old)) result.end)) }
    ensures run_base { OfOrdinary words.now (λ opts. AllTell A.tells B.tells W.tells (LeavesOrdinaryBaseOf opts Limits.REAL (W.state work.old).folder (by_side (A.state one.old) (B.state two.old)) (W.state work.new).folder (by_side (A.state one.new) (B.state two.new)))) }
    ensures resilient_base { OfOrdinary words.now (λ opts. AllTell A.tells B.tells W.tells ((opts.resilient || opts.dry_run) ≡ true → KeepsOrdinaryBaseOf opts Limits.REAL (W.state work.old).folder (by_side (A.state one.old) (B.state two.old)) (W.state work.new).folder (by_side (A.state one.new) (B.state two.new)))) }
    ensures run_trees { OfOrdinary words.now (λ opts. AllTell A.tells B.tells W.tells (LeavesOrdinaryTreesOf opts Limits.REAL (W.state work.old).folder (by_side (A.state one.old) (B.state two.old)) C.tells (C.moment clock.old) result.end (W.state work.new).folder (by_side (A.state one.new) (B.state two.new)))) }
    ensures set_back { OfOrdinary words.now (λ opts. IsTrue W.tells → (h : WorkFolder) → MayBeLeft (W.state work.old).folder (W.state work.new).folder h → LeavesBaseSetBack Limits.REAL (compared opts (by_side (A.state one.old) (B.state two.old))) (W.state work.old).folder h (KeepsTree A.tells (A.state one.old) (A.state one.new) × KeepsTree B.tells (B.state two.old) (B.state two.new))) }
    ensures stands { OfOrdinary words.now (λ opts. IsTrue W.tells → StaysOrStands opts Limits.REAL result.end (W.state work.old).folder (W.state work.new).folder (KeepsTree A.tells (A.state one.old) (A.state one.new) × KeepsTree B.tells (B.state two.old) (B.state two.new))) }
    ensures names { OfRun words.now (λ opts. IsTrue W.tells → (h : WorkFolder) → MayBeLeft (W.state work.old).folder (W.state work.new).folder h → HoldsOwnOf opts Limits.REAL (W.state work.old).folder (by_side (A.state one.old) (B.state two.old)) h) }
    ensures run_rest { OfOrdinary words.now (λ opts. IsTrue W.tells → KeepsOrdinaryRest (lets_fall opts.resilient opts.dry_run result.end) (W.state work.old).folder (W.state work.new).folder) }
    ensures only_run { OfOrdinary words.now (λ opts. IsOrdinaryEnd opts (compare_in opts.compare (A.state one.old).window (B.state two.old).window) result.end) }
    ensures run_images { OfOrdinary words.now (λ opts. AllTell A.tells B.tells W.tells (IsSettled (W.state work.old).folder → (h : WorkFolder) → IsImage (W.state work.new).folder h → LeavesOrdinaryBaseOf opts Limits.REAL (W.state work.old).folder (by_side (A.state one.old) (B.state two.old)) h (by_side (A.state one.new) (B.state two.new)))) }
    ensures resilient_images { OfOrdinary words.now (λ opts. AllTell A.tells B.tells W.tells ((opts.resilient || opts.dry_run) ≡ true → IsSettled (W.state work.old).folder → (h : WorkFolder) → IsImage (W.state work.new).folder h → KeepsOrdinaryBaseOf opts Limits.REAL (W.state work.old).folder (by_side (A.state one.old) (B.state two.old)) h (by_side (A.state one.new) (B.state two.new)))) }
    ensures safe { OfOrdinary words.now (λ opts. AllTell A.tells B.tells W.tells (IsSettled (W.state work.old).folder → (h : WorkFolder) → IsImage (W.state work.new).folder h → KeepsSafe opts Limits.REAL (W.state work.old).folder (by_side (A.state one.old) (B.state two.old)) h (by_side (A.state one.new) (B.state two.new)))) }
    ensures only_one { OfOrdinary words.now (λ opts. opts.check_sync ≡ Only → KeepsTree A.tells (A.state one.old) (A.state one.new)) }
    ensures only_two { OfOrdinary words.now (λ opts. opts.check_sync ≡ Only → KeepsTree B.tells (B.state two.old) (B.state two.new)) }
    ensures only_base { OfOrdinary words.now (λ opts. opts.check_sync ≡ Only → IsTrue W.tells → KeepsOwn opts result.end (W.state work.old).folder (W.state work.new).folder) }
    ensures entered { OfRun words.now (λ opts. IsTrue W.tells → ((is_before_lock result.end ≡ true) × ChangesLock (W.state work.old).folder (W.state work.new).folder × KeepsTree A.tells (A.state one.old) (A.state one.new) × KeepsTree B.tells (B.state two.old) (B.state two.new)) ⊎ (AtMoment C.tells (C.moment clock.old) (λ now. IsFree now (W.state work.old).folder.lock) × HasSomeRules opts.filters (W.state work.old).folder)) }
    ensures blocked { IsTrue W.tells → AtMoment C.tells (C.moment clock.old) (λ now. KeepsBlocking now (W.state work.old).folder (W.state work.new).folder) }
    ensures folder_base { OfRun words.now (λ opts. IsTrue W.tells → LeavesFolderBase opts Limits.REAL (W.state work.old).folder (by_side (A.state one.old) (B.state two.old)) result.end (W.state work.new).folder) }
    ensures folder_images { OfRun words.now (λ opts. IsTrue W.tells → IsSettled (W.state work.old).folder → (h : WorkFolder) → IsImage (W.state work.new).folder h → LeavesFolderBase opts Limits.REAL (W.state work.old).folder (by_side (A.state one.old) (B.state two.old)) result.end h) }
    ensures folder_next { OfRun words.now (λ opts. IsTrue W.tells → Writes opts → AfterGood result.end → LeavesNextInPlace opts Limits.REAL (W.state work.old).folder (by_side (A.state one.old) (B.state two.old)) (W.state work.new).folder) }
    ensures settled { IsTrue W.tells → IsSettled (W.state work.old).folder → IsSettled (W.state work.new).folder }
    ensures rest { IsTrue W.tells → but_run (W.state work.new).folder ≡ but_run (W.state work.old).folder }
    ensures untouched_one { may_have_changed result.end ≡ false → KeepsTree A.tells (A.state one.old) (A.state one.new) }
    ensures untouched_two { may_have_changed result.end ≡ false → KeepsTree B.tells (B.state two.old) (B.state two.new) }
    ensures kept { OfRun words.now (λ opts. IsTrue W.tells → may_have_changed result.end ≡ false → KeepsOwn opts result.end (W.state work.old).folder (W.state work.new).folder) }
    ensures fell { OfRun words.now (λ opts. IsTrue W.tells → lets_fall opts.resilient opts.dry_run result.end ≡ true → Stood (W.state work.old).faults (W.state work.new).faults → IsFallen (W.state work.old).folder (W.state work.new).folder) }
    ensures dry_one { OfRun words.now (λ opts. opts.dry_run ≡ true → KeepsTree A.tells (A.state one.old) (A.state one.new)) }
    ensures dry_two { OfRun words.now (λ opts. opts.dry_run ≡ true → KeepsTree B.tells (B.state two.old) (B.state two.new)) }
    ensures dry { OfRun words.now (λ opts. IsTrue W.tells → opts.dry_run ≡ true → ChangesLock (W.state work.old).folder (W.state work.new).folder) }
    ensures lock { OfRun words.now (λ opts. IsTrue W.tells → Stood (W.state work.old).faults (W.state work.new).faults → LeavesLock result.end (W.state work.old).folder (W.state work.new).folder) }
    ensures freed { IsTrue W.tells → has_freed result.end ≡ true → (W.state work.new).folder.lock ≡ Absent }
    ensures lock_new { IsTrue W.tells → AfterGood result.end ⊎ Stood (W.state work.old).faults (W.state work.new).faults → KeepsLockNew (W.state work.old).folder (W.state work.new).folder }
    ensures own_lock { OfRun words.now (λ opts. IsTrue W.tells → LeavesOwnLock opts C.tells (C.moment clock.old) result.end (W.state work.old).folder (W.state work.new).folder (KeepsTree A.tells (A.state one.old) (A.state one.new) × KeepsTree B.tells (B.state two.old) (B.state two.new))) }
    ensures digest_late { OfResync words.now (λ opts mode. IsTrue W.tells → StoresDigestOf opts Limits.REAL (W.state work.old).folder (by_side (A.state one.old) (B.state two.old)) (W.state work.new).folder (KeepsTree A.tells (A.state one.old) (A.state one.new) × KeepsTree B.tells (B.state two.old) (B.state two.new))) }
    ensures no_digest { OfRun words.now (λ opts. IsTrue W.tells → opts.filters ≡ None → (W.state work.new).folder.filters_md5 ≡ (W.state work.old).folder.filters_md5) }
    ensures entry { OfRun words.now (λ opts. IsTrue W.tells → is_unlocked result.end ≡ true → IsEntryEnd opts.filters (W.state work.old).folder C.tells (C.moment clock.old) result.end) }
    ensures unlocked { is_unlocked result.end ≡ true → (IsTrue W.tells → (W.state work.new).folder ≡ (W.state work.old).folder) × ((W.state work.new).faults ≡ (W.state work.old).faults) }
    ensures held_back { IsTrue C.tells → IsHeldBack (C.moment clock.old) result.end }
    ensures grounds { HasGrounds Limits.REAL (by_side A.tells B.tells) result.end }
    ensures told_truly { IsTold (by_side A.tells B.tells) (by_side (A.state one.old) (B.state two.old)) result.end }
    ensures moment { IsTrue C.tells → C.moment clock.new ≡ C.moment clock.old }
    ensures windows { ((A.state one.new).window ≡ (A.state one.old).window) × ((B.state two.new).window ≡ (B.state two.old).window) }
    ensures left1 { (A.state one.old).left ≡ None → (A.state one.new).left ≡ None }
    ensures left2 { (B.state two.old).left ≡ None → (B.state two.new).left ≡ None }
    ensures left { (W.state work.old).left ≡ None → (W.state work.new).left ≡ None }
    ensures later { Later (counts (A.state one.old).faults (B.state two.old).faults (W.state work.old).faults (S.state sink.old).faults) (counts (A.state one.new).faults (B.state two.new).faults (W.state work.new).faults (S.state sink.new).faults) }
    ensures causes { OfRun words.now (λ opts. IsCaused (counts (A.state one.old).faults (B.state two.old).faults (W.state work.old).faults (S.state sink.old).faults) (counts (A.state one.new).faults (B.state two.new).faults (W.state work.new).faults (S.state sink.new).faults) result.end) }
    ensures quiet { IsTrue S.tells → Stood (S.state sink.old).faults (S.state sink.new).faults → may_tell_plan result.end ≡ false → (S.state sink.new).bytes ≡ (S.state sink.old).bytes ++ last_text result.end }
    ensures only_quiet { OfOrdinary words.now (λ opts. opts.check_sync ≡ Only → IsTrue S.tells → Stood (S.state sink.old).faults (S.state sink.new).faults → (S.state sink.new).bytes ≡ (S.state sink.old).bytes ++ last_text result.end) }
    ensures lines { IsTrue S.tells → AddsLast (last_text result.end) (S.state sink.old) (S.state sink.new) }
    ensures report { OfResync words.now (λ opts mode. IsTrue A.tells → IsTrue B.tells → IsTrue S.tells → KnowsRules W.tells opts.filters → Stood (S.state sink.old).faults (S.state sink.new).faults → TellsRun mode opts Limits.REAL W.tells (W.state work.old).folder (by_side (A.state one.old) (B.state two.old)) (W.state work.new).folder (by_side (A.state one.new) (B.state two.new)) (S.state sink.old).bytes (last_text result.end) (S.state sink.new).bytes result.end) }
    ensures run_report { OfOrdinary words.now (λ opts. AllTell A.tells B.tells W.tells (IsTrue S.tells → Stood (S.state sink.old).faults (S.state sink.new).faults → TellsOrdinaryRun opts Limits.REAL (W.state work.old).folder (by_side (A.state one.old) (B.state two.old)) (W.state work.new).folder (by_side (A.state one.new) (B.state two.new)) (S.state sink.old).bytes (last_text result.end) (S.state sink.new).bytes result.end)) }
{
    let opts = match read_task(alloc, words) {
        Ok(Task::Run(opts)) => opts,
        Ok(Task::NotBuilt) => return told(End::NotBuilt, sink),
        Err(OptFault::Usage(kind)) => return told(End::Usage(kind), sink),
        Err(OptFault::OutOfMemory) => return told(End::OutOfMemory, sink),
    };
    let end = run(alloc, &opts, &Limits::REAL, one, two, work, clock, sink);
    let status = status(&end, opts.resilient);
    let_go(opts);
    Answer { status, end }
}
