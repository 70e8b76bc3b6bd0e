//! Laws of the refusals of a run. The functions do nothing.

ghost use Rattle.std.specs.Prelude.{◌≡◌, ◌<◌, ◌^◌, ℕ, ℤ, List, Option};
ghost use Rattle.bisync_device.specs.WorkFolder.{WorkFolder};
ghost use Rattle.bisync_run.specs.OrdinaryRefusals.{IsOrdinaryRefusal, HasNoOrdinaryRefusal};
ghost use Rattle.bisync_run.specs.ResyncRefusals.{IsResyncRefusal, HasNoResyncRefusal};
ghost use Rattle.bisync_run.specs.RunRefusals.{LetsResync, LetsRun, RefusesResync, RefusesRun};
ghost use Rattle.bisync_run.specs.Sides.{Sides};
ghost use Rattle.bisync_run.specs.Untouched.{Remotes};

use bisync_opts::Opts;
use bisync_report::End;
use bisync_tree::{Limits, Prefer};

/// A resync that holds the lock has at most one refusal, and none where it may go on.
pub fn resync_refusals_are_exclusive()
    ensures refusals { (mode : Prefer) (limits : Limits) (f : WorkFolder) (s : Sides) (a b : End) →
        IsResyncRefusal mode limits f s a → IsResyncRefusal mode limits f s b → a ≡ b }
    ensures none { (mode : Prefer) (limits : Limits) (f : WorkFolder) (s : Sides) (end : End) →
        IsResyncRefusal mode limits f s end → HasNoResyncRefusal mode limits f s → ⊥ }
{}

/// An ordinary run that holds the lock has at most one refusal, and none where it may go on.
pub fn run_refusals_are_exclusive()
    ensures refusals { (opts : Opts) (limits : Limits) (f : WorkFolder) (s : Sides) (digest : Option (List ℕ)) (a b : End) →
        limits.listing < 2 ^ 64 →
        IsOrdinaryRefusal opts limits f s digest a → IsOrdinaryRefusal opts limits f s digest b → a ≡ b }
    ensures none { (opts : Opts) (limits : Limits) (f : WorkFolder) (s : Sides) (digest : Option (List ℕ)) (end : End) →
        limits.listing < 2 ^ 64 →
        IsOrdinaryRefusal opts limits f s digest end → HasNoOrdinaryRefusal opts limits f s digest → ⊥ }
{}

/// A run has at most one refusal, and none where nothing refuses it, those before its lock among
/// them: whatever order they are tested in, the answer is the same.
pub fn all_refusals_are_exclusive()
    ensures run { (opts : Opts) (limits : Limits) (f : WorkFolder) (start : Remotes) (moment : ℤ) (a b : End) →
        limits.listing < 2 ^ 64 →
        RefusesRun opts limits f start moment a → RefusesRun opts limits f start moment b → a ≡ b }
    ensures run_goes_on { (opts : Opts) (limits : Limits) (f : WorkFolder) (start : Remotes) (moment : ℤ) (end : End) →
        limits.listing < 2 ^ 64 →
        RefusesRun opts limits f start moment end → LetsRun opts limits f start moment → ⊥ }
    ensures resync { (mode : Prefer) (opts : Opts) (limits : Limits) (f : WorkFolder) (start : Remotes) (moment : ℤ) (a b : End) →
        RefusesResync mode opts limits f start moment a → RefusesResync mode opts limits f start moment b → a ≡ b }
    ensures resync_goes_on { (mode : Prefer) (opts : Opts) (limits : Limits) (f : WorkFolder) (start : Remotes) (moment : ℤ) (end : End) →
        RefusesResync mode opts limits f start moment end → LetsResync mode opts limits f start moment → ⊥ }
{}
