//! Looking alone: nothing but the lock is changed, and it is freed.

use super::devices::{Devices, NOW, options};
use crate::{Look, look};
use bisync_memory::FixedClock;
use bisync_opts::CheckSync;
use bisync_report::End;
use bisync_tree::{Limits, Side};
use std::alloc::Global;
use std::test::Fail;

/// What a run without other options sees and plans.
fn look_at(devices: &mut Devices) -> Result<Result<Look, End>, Fail> {
    let mut opts = options(devices.alloc, "L R")?;
    opts.resync = None;
    opts.dry_run = false;
    opts.check_sync = CheckSync::Always;
    Ok(look(
        devices.alloc,
        &opts,
        &Limits::REAL,
        &mut devices.one,
        &mut devices.two,
        &mut devices.work,
        &mut FixedClock::new(NOW),
    ))
}

/// Devices on which Path1 has another file since the last run.
fn with_change(alloc: Global) -> Result<Devices, Fail> {
    let mut devices = Devices::new(alloc);
    devices.set(Side::One, "f=a@1 k=k@1")?;
    let _ = devices.run("L R --resync")?;
    devices.set(Side::One, "f=bb@9")?;
    Ok(devices)
}

/// Whether a look has one step and both files of Path1.
fn has_planned(looked: Result<Look, End>) -> bool {
    match looked {
        Ok(found) => found.plan.steps.len() == 1 && found.view.now1.len() == 2,
        Err(_) => false,
    }
}

#[test]
fn a_look_plans_and_changes_nothing(rt: HostRuntime) -> Result<(), Fail> {
    let mut devices = with_change(rt.alloc())?;
    let looked = look_at(&mut devices)?;
    assert!(rt; has_planned(looked) && devices.has_names("1.lst 2.lst"));
    assert!(rt; devices.has(Side::One, "f=bb@9 k=k@1")?);
    Ok(())
}
