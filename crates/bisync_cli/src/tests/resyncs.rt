//! Resyncs over devices in memory. Each test lends its devices to a function, so that it lets them go
//! in one place.

use super::devices::{Devices, words_of};
use bisync_device::WorkName;
use bisync_report::End;
use bisync_tree::Side;
use std::alloc::Global;
use std::test::Fail;

const THREE: &str = "copy path1 path2 \"x\"
copy path1 path2 \"y\"
copy path1 path2 \"z\"
bisync: resync done, 0 changes on path1, 3 changes on path2
";

const NONE: &str = "bisync: resync done, 0 changes on path1, 0 changes on path2\n";

/// A resync by these words, which copies so many files to Path2 and none to Path1, and tells this.
fn resynced(
    alloc: Global,
    devices: &mut Devices,
    line: &'static str,
    copies: u64,
    report: &str,
) -> Result<(), Fail> {
    let answer = devices.ask(alloc, &words_of(alloc, line)?);
    let is_end = match answer.end {
        End::Resynced { one, two } => one == 0 && two == copies,
        _ => false,
    };
    if answer.status != 0 || !is_end || devices.sink.bytes() != report.as_bytes() {
        return Err(Fail::new(line));
    }
    Ok(())
}

fn to_an_empty_side(alloc: Global, devices: &mut Devices) -> Result<(), Fail> {
    devices.put(alloc, Side::One, "x", "1", 1)?;
    devices.put(alloc, Side::One, "y", "22", 2)?;
    devices.put(alloc, Side::One, "z", "333", 3)?;
    resynced(alloc, devices, "bisync L R --resync", 3, THREE)?;
    let are_there = devices.both_have(alloc, "x", "1", 1)?
        && devices.both_have(alloc, "y", "22", 2)?
        && devices.both_have(alloc, "z", "333", 3)?;
    if !are_there {
        return Err(Fail::new("the files"));
    }
    Ok(())
}

fn of_one_time(alloc: Global, devices: &mut Devices) -> Result<(), Fail> {
    devices.put(alloc, Side::One, "f", "one", 5)?;
    devices.put(alloc, Side::Two, "f", "three", 5)?;
    let told =
        "copy path1 path2 \"f\"\nbisync: resync done, 0 changes on path1, 1 changes on path2\n";
    resynced(alloc, devices, "bisync L R --resync-mode newer", 1, told)?;
    if !devices.both_have(alloc, "f", "one", 5)? {
        return Err(Fail::new("the file"));
    }
    Ok(())
}

fn refused_by_filters(alloc: Global, devices: &mut Devices) -> Result<(), Fail> {
    let words = words_of(alloc, "bisync L R --resync --filters-file F")?;
    let missing = devices.ask(alloc, &words);
    if missing.status != 2 || !matches!(missing.end, End::NoFilters) {
        return Err(Fail::new("no file"));
    }
    devices.work.put(WorkName::Filters, b"+ a\nx b")?;
    let bad = devices.ask(alloc, &words);
    if bad.status != 2 || !matches!(bad.end, End::BadRule(2)) {
        return Err(Fail::new("no rule"));
    }
    Ok(())
}

#[test]
fn files_are_copied_to_an_empty_side(rt: HostRuntime) -> Result<(), Fail> {
    to_an_empty_side(rt.alloc(), &mut Devices::new(rt.alloc()))
}

#[test]
fn the_file_of_path1_wins_where_none_is_newer(rt: HostRuntime) -> Result<(), Fail> {
    of_one_time(rt.alloc(), &mut Devices::new(rt.alloc()))
}

#[test]
fn filters_that_cannot_be_read_refuse_a_run(rt: HostRuntime) -> Result<(), Fail> {
    refused_by_filters(rt.alloc(), &mut Devices::new(rt.alloc()))
}

#[test]
fn two_empty_sides_are_resynced(rt: HostRuntime) -> Result<(), Fail> {
    let mut devices = Devices::new(rt.alloc());
    resynced(rt.alloc(), &mut devices, "bisync L R --resync", 0, NONE)
}
