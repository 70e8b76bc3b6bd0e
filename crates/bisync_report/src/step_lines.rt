//! The line of a step.

ghost use Rattle.bisync_report.specs.Lines.{step_line, steps_text};
ghost use Rattle.bisync_report.specs.Waiting.{Puts};

use crate::parts::Part;
use crate::waiting::Waiting;
use bisync_device::{Failed, Sink};
use bisync_tree::Step;

/// Puts one line a step.
pub fn put_steps<S: Sink>(steps: &[Step], waiting: &mut Waiting, sink: &mut S) -> Result<(), Failed>
    ensures { Puts S.tells (steps_text steps.now)
        waiting.old (S.state sink.old) waiting.new (S.state sink.new) result }
{
    for step in steps {
        put_step(step, waiting, sink)?;
    }
    Ok(())
}

fn put_step<S: Sink>(step: &Step, waiting: &mut Waiting, sink: &mut S) -> Result<(), Failed>
    ensures { Puts S.tells (step_line step.now)
        waiting.old (S.state sink.old) waiting.new (S.state sink.new) result }
{
    match step {
        Step::Copy { from, path, .. } => waiting.put_parts(
            &[
                Part::Words(b"copy "),
                Part::Of(*from),
                Part::Words(b" "),
                Part::Of(from.other()),
                Part::Words(b" "),
                Part::Quoted(path.as_bytes()),
                Part::Words(b"\n"),
            ],
            sink,
        ),
        Step::Rename { side, from, to, .. } => waiting.put_parts(
            &[
                Part::Words(b"rename "),
                Part::Of(*side),
                Part::Words(b" "),
                Part::Quoted(from.as_bytes()),
                Part::Words(b" "),
                Part::Quoted(to.as_bytes()),
                Part::Words(b"\n"),
            ],
            sink,
        ),
        Step::Delete { side, path, .. } => waiting.put_parts(
            &[
                Part::Words(b"delete "),
                Part::Of(*side),
                Part::Words(b" "),
                Part::Quoted(path.as_bytes()),
                Part::Words(b"\n"),
            ],
            sink,
        ),
    }
}
