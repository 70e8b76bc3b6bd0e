//! Runs by smaller limits.

use super::devices::Devices;
use bisync_memory::FixedClock;
use bisync_report::End;
use bisync_tree::{Limits, Side};
use std::test::Fail;

/// Three names of one byte pass a limit of two files, and a listing of 203 bytes one of 202.
#[test]
fn more_than_the_limits_is_refused(rt: HostRuntime) -> Result<(), Fail> {
    let few = Limits {
        files: 2,
        ..Limits::REAL
    };
    let short = Limits {
        listing: 202,
        ..Limits::REAL
    };
    let mut devices = Devices::new(rt.alloc());
    devices.set(Side::One, "x=1@1 y=22@2 z=333@3")?;
    let end = devices.run_by("L R --resync", &few, &mut FixedClock::new(0))?;
    assert!(rt; matches!(end, End::TooMany(Side::One, 3, 3)));
    let end = devices.run_by("L R --resync", &short, &mut FixedClock::new(0))?;
    assert!(rt; matches!(end, End::ListingTooLong(Side::One, 203)));
    assert!(rt; devices.has(Side::Two, "")? && devices.has_names(""));
    Ok(())
}
