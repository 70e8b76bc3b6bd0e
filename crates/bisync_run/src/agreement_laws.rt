//! A law of where both sides agree. The function does nothing.

ghost use Rattle.std.specs.Prelude.{ℕ, List, Option, IsTrue};
ghost use Rattle.bisync_tree.specs.Rows.{PathBytes};
ghost use Rattle.bisync_tree.specs.declared.entries.Entry.{Entry};
ghost use Rattle.bisync_model.specs.Names.{AreNames};
ghost use Rattle.bisync_device.specs.WorkFolder.{WorkFolder};
ghost use Rattle.bisync_work.specs.Base.{Base};
ghost use Rattle.bisync_report.specs.declared.ends.End.TheVariants.{OutOfSync};
ghost use Rattle.bisync_run.specs.Agreement.{EachSides, BaseAgrees, EndAgrees, ResyncAgrees};
ghost use Rattle.bisync_run.specs.Courses.{Course, is_checked, known_in, paths_through};
ghost use Rattle.bisync_run.specs.OrdinaryRefusals.{IsCourseRefusal};

use bisync_opts::Opts;
use bisync_tree::{Given, Limits, Prefer};

/// Where the passing parts of the two base listings agree, the trees that a run is to leave agree,
/// and its new listings aren't refused as out of sync. Where the new listings are compared, the
/// trees of a run that nothing refuses agree. Those of a resync always do.
pub fn agreeing_bases_stay_in_sync()
    ensures outcome { (opts : Opts) → EachSides (λ s. (base : Base) (names : List Given) →
        BaseAgrees opts s base → AreNames (known_in opts s base) (paths_through s base) names →
        EndAgrees opts s base names) }
    ensures in_sync { (opts : Opts) (limits : Limits) (f : WorkFolder) → EachSides (λ s. (base : Base)
        (p : PathBytes) (one two : Option Entry) → BaseAgrees opts s base →
        IsCourseRefusal opts limits f s base (OutOfSync p one two) → ⊥) }
    ensures checked { (opts : Opts) (limits : Limits) (f : WorkFolder) → EachSides (λ s.
        (digest : Option (List ℕ)) (course : Course opts limits f s digest) →
        IsTrue (is_checked opts.check_sync) → EndAgrees opts s course.base course.names) }
    ensures resync { (mode : Prefer) → EachSides (ResyncAgrees mode) }
{}
