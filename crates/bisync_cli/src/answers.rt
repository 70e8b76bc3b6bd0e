//! What the program answers.

ghost use Rattle.std.specs.Prelude.{◌≡◌, ◌≤◌, ◌++◌, IsTrue, false};
ghost use Rattle.bisync_device.specs.Faults.{Rose};
ghost use Rattle.bisync_report.specs.LastLine.{last_text};
ghost use Rattle.bisync_run.specs.Closing.{AddsLast};
ghost use Rattle.bisync_report.specs.Status.{status_of};

use bisync_device::Sink;
use bisync_report::{End, last_line, status};

/// How the program ended.
#[derive(Drop)]
pub struct Answer {
    /// The exit status.
    pub status: u8,
    /// How the command ended.
    pub end: End,
}

/// Tells an end that comes before anything is touched. Where its line can't be written, it stays.
pub fn told<S: Sink>(end: End, sink: &mut S) -> Answer
    ensures end { result.end ≡ end }
    ensures status { result.status ≡ status_of end false }
    ensures bytes { IsTrue S.tells → (Rose (S.state sink.old).faults (S.state sink.new).faults → ⊥) → (S.state sink.new).bytes ≡ (S.state sink.old).bytes ++ last_text end }
    ensures adds { IsTrue S.tells → AddsLast (last_text end) (S.state sink.old) (S.state sink.new) }
    ensures later { (S.state sink.old).faults ≤ (S.state sink.new).faults }
{
    let _ = last_line(&end, sink);
    Answer {
        status: status(&end, false),
        end,
    }
}
