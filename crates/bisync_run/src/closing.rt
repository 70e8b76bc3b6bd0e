//! How a run ends: the listings fall where the end asks for it, the lock goes, and the last line is
//! told.

ghost use Rattle.std.specs.Prelude.{◌≡◌, ◌⊎◌, ◌≤◌, ◌++◌, ℕ, List, IsTrue, IsOk, None, true, false};
ghost use Rattle.bisync_tree.specs.declared.entries.Compare.{Compare};
ghost use Rattle.bisync_device.specs.Faults.{Rose};
ghost use Rattle.bisync_device.specs.WorkFolder.{Absent, WorkFolder};
ghost use Rattle.bisync_work.specs.Moves.{Falls, IsFallen};
ghost use Rattle.bisync_work.specs.Renames.{AreBegun, fall_renames};
ghost use Rattle.bisync_report.specs.LastLine.{last_text};
ghost use Rattle.bisync_run.specs.Closing.{ClosesWith, CountsClose, Closes, ClosesFall, Unlocks, HasNoListings, EndsWith};
ghost use Rattle.bisync_run.specs.EndKinds.{is_good as is_good_end, falls_at_close};
ghost use Rattle.bisync_run.specs.OwnNames.{HoldsOwn};

use bisync_device::{Sink, Work};
use bisync_opts::Opts;
use bisync_report::{End, falls, last_line};
use bisync_work::{fall, free_lock};

/// Closes a course that held the lock and ended so: Ok is a good end.
pub fn close<W: Work>(opts: &Opts, work: &mut W, ended: Result<End, End>) -> End
    ensures end { ClosesWith ended result }
    ensures names { IsTrue W.tells → (limit : ℕ) (compare : Compare) (k : WorkFolder) → HoldsOwn limit compare k (W.state work.old).folder → HoldsOwn limit compare k (W.state work.new).folder }
    ensures closes { IsTrue W.tells → Closes (W.state work.old).folder (W.state work.new).folder }
    ensures fall { IsTrue W.tells → ClosesFall (W.state work.old).folder (W.state work.new).folder }
    ensures kept { IsTrue W.tells → falls_at_close opts.now.resilient opts.now.dry_run ended ≡ false → Unlocks (W.state work.old).folder (W.state work.new).folder }
    ensures fallen { IsTrue W.tells → falls_at_close opts.now.resilient opts.now.dry_run ended ≡ true → (Rose (W.state work.old).faults (W.state work.new).faults → ⊥) → HasNoListings (W.state work.new).folder }
    ensures fell { IsTrue W.tells → falls_at_close opts.now.resilient opts.now.dry_run ended ≡ true → (Rose (W.state work.old).faults (W.state work.new).faults → ⊥) → IsFallen (W.state work.old).folder (W.state work.new).folder }
    ensures stays_fallen { IsTrue W.tells → (f : WorkFolder) → IsFallen f (W.state work.old).folder → IsFallen f (W.state work.new).folder }
    ensures freed { IsTrue W.tells → (Rose (W.state work.old).faults (W.state work.new).faults → ⊥) → (W.state work.new).folder.lock ≡ Absent }
    ensures good { IsTrue W.tells → IsOk ended → is_good_end result ≡ true → (W.state work.new).folder.lock ≡ Absent }
    ensures counts { CountsClose ended result (W.state work.old).faults (W.state work.new).faults }
    ensures later { (W.state work.old).faults ≤ (W.state work.new).faults }
    ensures left { (W.state work.old).left ≡ None → (W.state work.new).left ≡ None }
{
    fall_where(opts, work, &ended);
    let freed = free_lock(work);
    match ended {
        Err(end) => end,
        Ok(end) => match freed {
            Ok(()) => end,
            Err(_) => End::LockLeft,
        },
    }
}

/// Lets the listings fall where the end asks for it, in no dry run and not with `--resilient`. Where a
/// call fails, the fall ends there.
fn fall_where<W: Work>(opts: &Opts, work: &mut W, ended: &Result<End, End>)
    ensures names { IsTrue W.tells → (limit : ℕ) (compare : Compare) (k : WorkFolder) → HoldsOwn limit compare k (W.state work.old).folder → HoldsOwn limit compare k (W.state work.new).folder }
    ensures stays_fallen { IsTrue W.tells → (f : WorkFolder) → IsFallen f (W.state work.old).folder → IsFallen f (W.state work.new).folder }
    ensures falls { IsTrue W.tells → Falls (W.state work.old).folder (W.state work.new).folder }
    ensures begun { IsTrue W.tells → AreBegun fall_renames (W.state work.old).folder (W.state work.new).folder }
    ensures kept { falls_at_close opts.now.resilient opts.now.dry_run ended.now ≡ false → work.new ≡ work.old }
    ensures fallen { IsTrue W.tells → falls_at_close opts.now.resilient opts.now.dry_run ended.now ≡ true → (Rose (W.state work.old).faults (W.state work.new).faults → ⊥) → HasNoListings (W.state work.new).folder }
    ensures fell { IsTrue W.tells → falls_at_close opts.now.resilient opts.now.dry_run ended.now ≡ true → (Rose (W.state work.old).faults (W.state work.new).faults → ⊥) → IsFallen (W.state work.old).folder (W.state work.new).folder }
    ensures later { (W.state work.old).faults ≤ (W.state work.new).faults }
    ensures left { (W.state work.old).left ≡ None → (W.state work.new).left ≡ None }
{
    if let Err(end) = ended {
        if falls(end) && !opts.resilient && !opts.dry_run {
            let _ = fall(work);
        }
    }
}

/// Whether a run ended well.
fn is_good(end: &End) -> bool
    ensures { result ≡ is_good_end end.now }
{
    matches!(
        end,
        End::Done { .. } | End::Resynced { .. } | End::DryRun | End::InSync
    )
}

/// Tells the last line, at every end.
pub fn tell_end<S: Sink>(sink: &mut S, end: End) -> End
    ensures end { EndsWith end result }
    ensures bytes { IsTrue S.tells → (Rose (S.state sink.old).faults (S.state sink.new).faults → ⊥) → (S.state sink.new).bytes ≡ (S.state sink.old).bytes ++ last_text end }
    ensures adds { IsTrue S.tells → (added : List ℕ) × ((S.state sink.new).bytes ≡ (S.state sink.old).bytes ++ added) }
    ensures good { is_good_end result ≡ true → (S.state sink.new).faults ≡ (S.state sink.old).faults }
    ensures failed { is_good_end end ≡ true → (result ≡ end) ⊎ Rose (S.state sink.old).faults (S.state sink.new).faults }
    ensures later { (S.state sink.old).faults ≤ (S.state sink.new).faults }
{
    let told = last_line(&end, sink).is_ok();
    if !told && is_good(&end) {
        return End::SinkFault { done: true };
    }
    end
}
