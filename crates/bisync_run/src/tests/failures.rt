//! Resyncs in which one call of a device fails.

use super::devices::{Device, Devices};
use bisync_report::End;
use bisync_tree::{Limits, Side};
use bisync_work::find_base;
use std::alloc::Global;
use std::test::Fail;

/// How many calls a resync of three files makes of each device.
const CALLS: [(Device, u64); 4] = [
    (Device::One, 11),
    (Device::Two, 11),
    (Device::Work, 21),
    (Device::Sink, 2),
];

const THREE: &str = "x=1@1 y=22@2 z=333@3";

/// Devices whose Path1 has three files.
fn with_three(alloc: Global) -> Result<Devices, Fail> {
    let mut devices = Devices::new(alloc);
    devices.set(Side::One, THREE)?;
    Ok(devices)
}

/// Whether the end tells of the device. The last call of the work folder frees the lock, and the last
/// of the report tells the end.
fn tells_of(end: &End, device: Device, is_last: bool) -> bool {
    match device {
        Device::One => matches!(end, End::RemoteFault(Side::One)),
        Device::Two => matches!(end, End::RemoteFault(Side::Two)),
        Device::Work => match end {
            End::LockLeft => is_last,
            End::WorkFault => !is_last,
            _ => false,
        },
        Device::Sink => match end {
            End::SinkFault { done } => *done == is_last,
            _ => false,
        },
    }
}

/// Whether there is no base, or the new one and Path2 has all that it lists.
fn has_no_wrong_base(alloc: Global, devices: &mut Devices) -> Result<bool, Fail> {
    let found = find_base(alloc, &mut devices.work, &Limits::REAL)?;
    if found.pair.is_none() {
        return Ok(true);
    }
    let is_new = found.one.len() == 3 && found.two.len() == 3 && found.stamp == 2;
    Ok(is_new && devices.has(Side::Two, THREE)?)
}

/// Whether a resync in which this call fails ends as it should.
fn fails_well(
    alloc: Global,
    device: Device,
    call: u64,
    done: bool,
    is_last: bool,
) -> Result<bool, Fail> {
    let mut devices = with_three(alloc)?;
    devices.fail_at(device, call, done)?;
    let is_told = tells_of(&devices.run("L R --resync")?, device, is_last);
    Ok(is_told && has_no_wrong_base(alloc, &mut devices)?)
}

#[test]
fn each_failed_call_is_told_and_leaves_no_wrong_base(rt: HostRuntime) -> Result<(), Fail> {
    for (device, last) in CALLS {
        for call in 1..=last {
            for done in [false, true] {
                let ends_well = fails_well(rt.alloc(), device, call, done, call == last)?;
                assert!(rt; ends_well, "{device:?} {call} {done}");
            }
        }
    }
    Ok(())
}

#[test]
fn a_resync_of_three_files_makes_these_calls(rt: HostRuntime) -> Result<(), Fail> {
    let mut devices = with_three(rt.alloc())?;
    let _ = devices.run("L R --resync")?;
    for (device, calls) in CALLS {
        assert_eq!(rt; devices.calls(device), calls);
    }
    Ok(())
}
