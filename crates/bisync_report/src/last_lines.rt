ghost use Rattle.std.specs.Prelude.{◌≡◌, Ok, is_err};
ghost use Rattle.bisync_device.specs.Faults.{HasCause};
ghost use Rattle.bisync_device.specs.Sink.{Adds};
ghost use Rattle.bisync_report.specs.LastLine.{last_text, named_line};
ghost use Rattle.bisync_report.specs.Parts.{parts_text};
ghost use Rattle.bisync_report.specs.Waiting.{Puts};

use crate::End;
use crate::end_parts::parts_of;
use crate::parts::Part;
use crate::waiting::Waiting;
use bisync_device::{Failed, Sink};

/// Tells the sink how the command ended, in one line. The demonstration has no such line, and the
/// sink isn't called. It takes no memory, and a call that failed added a prefix of the line.
pub fn last_line<S: Sink>(end: &End, sink: &mut S) -> Result<(), Failed>
    ensures cause { HasCause (is_err result) (S.state sink.old).faults (S.state sink.new).faults }
    ensures bytes { Adds S.tells (last_text end.now) (S.state sink.old) (S.state sink.new) result }
    ensures demo { end.now ≡ End.Demo → result ≡ Ok tt }
    ensures silent { end.now ≡ End.Demo → sink.new ≡ sink.old }
{
    if let End::Demo = end {
        return Ok(());
    }
    let mut waiting = Waiting::new();
    put_named(&parts_of(end), &mut waiting, sink)?;
    waiting.flush(sink)
}

/// Puts a line of the program, with its newline.
fn put_named<S: Sink>(parts: &[Part<'_>], waiting: &mut Waiting, sink: &mut S) -> Result<(), Failed>
    ensures { Puts S.tells (named_line (parts_text parts.now))
        waiting.old (S.state sink.old) waiting.new (S.state sink.new) result }
{
    waiting.put(b"bisync: ", sink)?;
    waiting.put_parts(parts, sink)?;
    waiting.put(b"\n", sink)
}
