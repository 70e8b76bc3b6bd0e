//! Laws of ends. The functions do nothing.

ghost use Rattle.std.specs.Prelude.{◌≡◌, ◌≢◌, ◌↔◌, true, false};
ghost use Rattle.bisync_report.specs.Status.{status_of, falls_of};
ghost use Rattle.bisync_report.specs.declared.ends.End.{End};

/// The base falls after an end exactly where `--resilient` changes its status.
pub fn what_falls_has_a_status_of_its_own()
    ensures { (end : End) → (falls_of end ≡ true) ↔ (status_of end true ≢ status_of end false) }
{}
