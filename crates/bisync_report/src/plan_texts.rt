ghost use Rattle.std.specs.Prelude.{option_copied, is_err};
ghost use Rattle.bisync_device.specs.Faults.{HasCause};
ghost use Rattle.bisync_device.specs.Sink.{Adds};
ghost use Rattle.bisync_report.specs.Lines.{plan_text};
ghost use Rattle.bisync_report.specs.Waiting.{Puts};

use crate::delta_lines::put_changes;
use crate::step_lines::put_steps;
use crate::waiting::Waiting;
use bisync_device::{Failed, Sink};
use bisync_plan::Plan;
use bisync_tree::{Compare, View};

/// Tells the sink what changed since the last good run, and then the steps of the plan, a line each.
/// A resync gives no view. It takes no memory, and a call that failed added a prefix of the lines.
pub fn plan_lines<S: Sink>(
    view: Option<&View>,
    compare: &Compare,
    plan: &Plan,
    sink: &mut S,
) -> Result<(), Failed>
    ensures cause { HasCause (is_err result) (S.state sink.old).faults (S.state sink.new).faults }
    ensures bytes { Adds S.tells (plan_text (option_copied view.entry) compare.now plan.now)
        (S.state sink.old) (S.state sink.new) result }
{
    let mut waiting = Waiting::new();
    put_plan(view, compare, plan, &mut waiting, sink)?;
    waiting.flush(sink)
}

fn put_plan<S: Sink>(
    view: Option<&View>,
    compare: &Compare,
    plan: &Plan,
    waiting: &mut Waiting,
    sink: &mut S,
) -> Result<(), Failed>
    ensures { Puts S.tells (plan_text (option_copied view.entry) compare.now plan.now)
        waiting.old (S.state sink.old) waiting.new (S.state sink.new) result }
{
    put_changes(view, compare, waiting, sink)?;
    put_steps(&plan.steps, waiting, sink)
}
