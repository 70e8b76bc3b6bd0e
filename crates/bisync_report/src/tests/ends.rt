use super::{COMPARE, entry};
use crate::{End, FolderCause, Need, falls, last_line, status};
use bisync_device::{Failed, WorkName};
use bisync_memory::MemSink;
use bisync_opts::{OptName, UsageKind};
use bisync_text::{Path, Text};
use bisync_tree::{Side, Until};
use std::alloc::Global;
use std::test::Fail;

/// Tells the end, which has this last line, and these statuses without and with `--resilient`. It
/// falls where they differ.
fn told(alloc: Global, end: End, line: &'static str, plain: u8, resilient: u8) -> Result<(), Fail> {
    let mut sink = MemSink::new(alloc);
    let is_told = last_line(&end, &mut sink).is_ok() && sink.bytes() == line.as_bytes();
    let statuses = (status(&end, false), status(&end, true), falls(&end));
    if !is_told || statuses != (plain, resilient, plain != resilient) {
        return Err(Fail::new(line));
    }
    Ok(())
}

#[test]
fn good_ends_have_their_lines_and_statuses(rt: HostRuntime) -> Result<(), Fail> {
    let alloc = rt.alloc();
    told(
        alloc,
        End::Done { one: 1, two: 2 },
        "bisync: done, 1 changes on path1, 2 changes on path2\n",
        0,
        0,
    )?;
    told(
        alloc,
        End::Resynced { one: 0, two: 3 },
        "bisync: resync done, 0 changes on path1, 3 changes on path2\n",
        0,
        0,
    )?;
    told(
        alloc,
        End::DryRun,
        "bisync: dry run, nothing was changed\n",
        0,
        0,
    )?;
    told(alloc, End::InSync, "bisync: listings agree\n", 0, 0)?;
    told(alloc, End::Demo, "", 0, 0)?;
    told(
        alloc,
        End::Checked { differ: 0 },
        "bisync: check done, 0 differ\n",
        0,
        0,
    )?;
    told(
        alloc,
        End::Checked { differ: 3 },
        "bisync: check done, 3 differ\n",
        1,
        1,
    )
}

#[test]
fn faults_have_their_lines_and_statuses(rt: HostRuntime) -> Result<(), Fail> {
    let alloc = rt.alloc();
    told(alloc, End::WorkFault, "bisync: work folder failed\n", 7, 1)?;
    told(
        alloc,
        End::RemoteFault(Side::Two),
        "bisync: path2: remote failed\n",
        7,
        1,
    )?;
    told(
        alloc,
        End::SinkFault { done: true },
        "bisync: output failed\n",
        1,
        1,
    )?;
    told(
        alloc,
        End::LockLeft,
        "bisync: lock could not be removed\n",
        1,
        1,
    )?;
    told(
        alloc,
        End::FoldersLeft(FolderCause::Work),
        "bisync: folders were left\n",
        1,
        1,
    )?;
    told(
        alloc,
        End::KeepFault(Side::One),
        "bisync: path1: backup folder failed\n",
        1,
        1,
    )?;
    told(alloc, End::OutOfMemory, "bisync: out of memory\n", 1, 1)
}

#[test]
fn refused_words_have_their_lines_and_statuses(rt: HostRuntime) -> Result<(), Fail> {
    let alloc = rt.alloc();
    told(
        alloc,
        End::Usage(UsageKind::Command),
        "bisync: usage: no such command\n",
        2,
        2,
    )?;
    told(
        alloc,
        End::Usage(UsageKind::Words),
        "bisync: usage: words refused\n",
        2,
        2,
    )?;
    told(alloc, End::NotBuilt, "bisync: not built\n", 2, 2)?;
    told(
        alloc,
        End::Usage(UsageKind::Value(OptName::MaxLock)),
        "bisync: usage: bad value of --max-lock\n",
        2,
        2,
    )?;
    told(
        alloc,
        End::Usage(UsageKind::Value(OptName::Path1)),
        "bisync: usage: bad value of PATH1\n",
        2,
        2,
    )?;
    told(
        alloc,
        End::Usage(UsageKind::Value(OptName::Number)),
        "bisync: usage: bad value of number\n",
        2,
        2,
    )?;
    told(
        alloc,
        End::Usage(UsageKind::Together),
        "bisync: usage: these options do not go together\n",
        2,
        2,
    )
}

#[test]
fn refusals_of_filters_and_locks_have_their_lines_and_statuses(
    rt: HostRuntime,
) -> Result<(), Fail> {
    let alloc = rt.alloc();
    told(
        alloc,
        End::NoFilters,
        "bisync: filters file is not there\n",
        2,
        2,
    )?;
    told(
        alloc,
        End::BadRule(12),
        "bisync: filters file: line 12 is no rule\n",
        2,
        2,
    )?;
    told(
        alloc,
        End::FiltersChanged {
            now: [0xab; 16],
            stored: Some([1; 16]),
        },
        "bisync: filters file changed: abababababababababababababababab, stored 01010101010101010101010101010101\n",
        7,
        1,
    )?;
    told(
        alloc,
        End::FiltersChanged {
            now: [0xab; 16],
            stored: None,
        },
        "bisync: filters file changed: abababababababababababababababab, stored -\n",
        7,
        1,
    )?;
    told(
        alloc,
        End::Locked(Until::Unreadable),
        "bisync: locked, lock is unreadable\n",
        1,
        1,
    )?;
    told(
        alloc,
        End::Locked(Until::Never),
        "bisync: locked without end\n",
        1,
        1,
    )?;
    told(
        alloc,
        End::Locked(Until::At(-1)),
        "bisync: locked until 1969-12-31T23:59:59.999999999+0000\n",
        1,
        1,
    )
}

#[test]
fn refused_bases_have_their_lines_and_statuses(rt: HostRuntime) -> Result<(), Fail> {
    let alloc = rt.alloc();
    let path = Path::read(alloc, b"a b")?;
    told(
        alloc,
        End::BadListing(WorkName::TwoOld, 3),
        "bisync: 2.lst-old: line 3 is bad\n",
        7,
        7,
    )?;
    told(
        alloc,
        End::NeedResync(Need::NoBase),
        "bisync: no listings, run with --resync\n",
        7,
        7,
    )?;
    told(
        alloc,
        End::NeedResync(Need::NotRecovering),
        "bisync: last run did not end, run with --recover or --resync\n",
        7,
        7,
    )?;
    told(
        alloc,
        End::NeedResync(Need::FieldsChanged(COMPARE)),
        "bisync: listings were made with size,modtime, run with --resync\n",
        7,
        7,
    )?;
    told(
        alloc,
        End::ListingsDiffer(path, None, None),
        "bisync: listings differ at \"a b\"\n",
        1,
        1,
    )?;
    told(
        alloc,
        End::EmptyPrior(Side::One),
        "bisync: path1: prior listing is empty\n",
        7,
        1,
    )
}

#[test]
fn refused_listings_have_their_lines_and_statuses(rt: HostRuntime) -> Result<(), Fail> {
    let alloc = rt.alloc();
    let text = Text::from_bytes(alloc, b"a\"\n")?;
    let path = Path::read(alloc, b"f")?;
    told(
        alloc,
        End::BadPath(Side::One, text),
        "bisync: path1: bad path \"a\\x22\\x0a\"\n",
        7,
        1,
    )?;
    told(
        alloc,
        End::TooMany(Side::Two, 9, u64::MAX),
        "bisync: path2: too many files, 9 with 18446744073709551615 bytes of names\n",
        7,
        1,
    )?;
    told(
        alloc,
        End::Moved(Side::Two, path, entry(1, 1), None),
        "bisync: path2: \"f\" changed during the run\n",
        7,
        1,
    )?;
    told(
        alloc,
        End::CheckAccess(Side::Two, Some(Path::read(alloc, b"f")?)),
        "bisync: path2: check file \"f\" is missing\n",
        7,
        1,
    )?;
    told(
        alloc,
        End::CheckAccess(Side::One, None),
        "bisync: no check file found\n",
        7,
        1,
    )?;
    told(
        alloc,
        End::EmptyCurrent(Side::One),
        "bisync: path1: no files\n",
        7,
        1,
    )
}

#[test]
fn refused_plans_have_their_lines_and_statuses(rt: HostRuntime) -> Result<(), Fail> {
    let alloc = rt.alloc();
    let name = Path::read(alloc, b"f")?;
    let path = Path::read(alloc, b"a b")?;
    told(
        alloc,
        End::TooManyDeletes(Side::Two, 6, 10),
        "bisync: path2: too many deletes, 6 of 10\n",
        1,
        1,
    )?;
    told(
        alloc,
        End::AllChanged(Side::One, 5),
        "bisync: path1: all 5 files changed\n",
        1,
        1,
    )?;
    told(
        alloc,
        End::NameTooLong(Side::Two, name),
        "bisync: path2: no room for a conflict name of \"f\"\n",
        1,
        1,
    )?;
    told(
        alloc,
        End::ListingTooLong(Side::One, 62),
        "bisync: path1: listing of 62 bytes is too long\n",
        1,
        1,
    )?;
    told(
        alloc,
        End::OutOfSync(path, Some(entry(1, 1)), None),
        "bisync: out of sync at \"a b\"\n",
        7,
        1,
    )
}

#[test]
fn the_demonstration_has_no_last_line(rt: HostRuntime) -> Result<(), Fail> {
    let mut sink = MemSink::new(rt.alloc());
    sink.fail_at(1, false)?;
    assert!(rt; last_line(&End::Demo, &mut sink) == Ok(()));
    assert_eq!(rt; sink.calls(), 0);
    assert!(rt; last_line(&End::InSync, &mut sink) == Err(Failed));
    Ok(())
}
