//! Words that are refused, and words that ask for what isn't built. Each test lends its devices to a
//! function that has the rows, so that it lets them go in one place.

use super::devices::{Devices, words_of};
use bisync_opts::{OptName, UsageKind};
use bisync_report::End;
use bisync_text::Text;
use std::alloc::Global;
use std::test::Fail;

/// Whether the end is this refusal of words, or, for None, that what they ask for isn't built.
fn is_end(end: &End, refusal: Option<UsageKind>) -> bool {
    match end {
        End::Usage(kind) => refusal == Some(*kind),
        End::NotBuilt => refusal.is_none(),
        _ => false,
    }
}

/// Asks by these words, which are refused so, or not built for None, with this last line, and touch
/// nothing.
fn refused(
    alloc: Global,
    devices: &mut Devices,
    line: &'static str,
    refusal: Option<UsageKind>,
    told: &'static str,
) -> Result<(), Fail> {
    let before = devices.sink.bytes().len();
    let answer = devices.ask(alloc, &words_of(alloc, line)?);
    let is_refused = answer.status == 2 && is_end(&answer.end, refusal);
    let is_told = devices.sink.bytes().get(before..) == Some(told.as_bytes());
    if !is_refused || !is_told || devices.are_called() {
        return Err(Fail::new(line));
    }
    Ok(())
}

fn refusals(alloc: Global, devices: &mut Devices) -> Result<(), Fail> {
    let command = "bisync: usage: no such command\n";
    let words = "bisync: usage: words refused\n";
    let lock = "bisync: usage: bad value of --max-lock\n";
    let together = "bisync: usage: these options do not go together\n";
    let rows = [
        ("", UsageKind::Command, command),
        ("sync L R", UsageKind::Command, command),
        ("bisync L", UsageKind::Words, words),
        (
            "bisync L R --max-lock 1m",
            UsageKind::Value(OptName::MaxLock),
            lock,
        ),
        (
            "bisync L R --resync --check-sync only",
            UsageKind::Together,
            together,
        ),
    ];
    for (line, kind, told) in rows {
        refused(alloc, devices, line, Some(kind), told)?;
    }
    Ok(())
}

fn not_built(alloc: Global, devices: &mut Devices) -> Result<(), Fail> {
    let rows = [
        "bisync L R --backup-dir1 K",
        "bisync L R --backup-dir2 K --force",
        "bisync L R --track-renames --compare size,checksum",
        "bisync L R --create-empty-src-dirs",
        "bisync L R --resync --remove-empty-dirs",
        "demo 1000",
        "check L R",
    ];
    for line in rows {
        refused(alloc, devices, line, None, "bisync: not built\n")?;
    }
    Ok(())
}

/// A word that isn't UTF-8, behind the command and as the first word.
fn not_utf8(alloc: Global, devices: &mut Devices) -> Result<(), Fail> {
    let mut words = words_of(alloc, "bisync L")?;
    words.push(Text::from_bytes(alloc, b"\xff")?)?;
    if !is_end(&devices.ask(alloc, &words).end, Some(UsageKind::Words)) {
        return Err(Fail::new("behind the command"));
    }
    words.reverse();
    if !is_end(&devices.ask(alloc, &words).end, Some(UsageKind::Command)) {
        return Err(Fail::new("as the command"));
    }
    Ok(())
}

/// An answer that can't be told.
fn untold(alloc: Global, devices: &mut Devices) -> Result<(), Fail> {
    devices.sink.fail_at(1, false)?;
    let answer = devices.ask(alloc, &words_of(alloc, "demo 1000")?);
    let is_untold = devices.sink.calls() == 1 && devices.sink.bytes().is_empty();
    if answer.status != 2 || !is_end(&answer.end, None) || !is_untold {
        return Err(Fail::new("not built"));
    }
    Ok(())
}

#[test]
fn words_that_are_refused_touch_nothing(rt: HostRuntime) -> Result<(), Fail> {
    refusals(rt.alloc(), &mut Devices::new(rt.alloc()))
}

#[test]
fn what_is_not_built_touches_nothing(rt: HostRuntime) -> Result<(), Fail> {
    not_built(rt.alloc(), &mut Devices::new(rt.alloc()))
}

#[test]
fn words_that_are_no_utf8_are_refused(rt: HostRuntime) -> Result<(), Fail> {
    not_utf8(rt.alloc(), &mut Devices::new(rt.alloc()))
}

#[test]
fn an_answer_stays_where_it_cannot_be_told(rt: HostRuntime) -> Result<(), Fail> {
    untold(rt.alloc(), &mut Devices::new(rt.alloc()))
}
