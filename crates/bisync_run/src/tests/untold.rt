//! A remote that doesn't tell what it holds.

ghost use Rattle.std.specs.Prelude.{false, [], None};
ghost use Rattle.std.specs.FinMap as finmap;
ghost use Rattle.bisync_tree.specs.declared.windows.Window.TheVariants.{Ns1};

use super::devices::{Device, Devices, options};
use crate::run;
use bisync_device::{Failed, ListFault, Remote};
use bisync_memory::FixedClock;
use bisync_report::End;
use bisync_text::{Path, Text};
use bisync_tree::{Item, Limits, Side, Window};
use std::alloc::Global;
use std::test::Fail;

/// A remote that tells nothing. It lists a file of one byte and of one second at this text, opens
/// whatever it is asked for, and always has more bytes.
#[derive(Drop)]
struct Untold {
    listed: &'static [u8],
    opened: bool,
    begun: bool,
}

impl Remote for Untold {
    ghost tells = { false };

    ghost state = { λ untold. record {
      tree = finmap.empty;
      folders = finmap.empty;
      changes = 0;
      reading = record { opened = untold.opened; rest = [] };
      begun = untold.begun;
      part = [];
      faults = 0;
      left = None;
      window = Ns1;
    } };

    fn window(&self) -> Window {
        Window::Ns1
    }

    fn attach(&mut self, _root: &Text) -> Result<(), Failed> {
        self.opened = false;
        self.begun = false;
        Ok(())
    }

    fn list(&mut self, alloc: Global, out: &mut Vec<Item>) -> Result<(), ListFault> {
        let Ok(path) = Text::from_bytes(alloc, self.listed) else {
            return Err(ListFault::OutOfMemory);
        };
        let item = Item {
            path,
            size: 1,
            time: 1_000_000_000,
        };
        match out.push(item) {
            Ok(()) => Ok(()),
            Err(_) => Err(ListFault::OutOfMemory),
        }
    }

    fn open(&mut self, _path: &Path) -> Result<bool, Failed> {
        self.opened = true;
        Ok(true)
    }

    fn read(&mut self, buffer: &mut [u8]) -> Result<usize, Failed> {
        Ok(buffer.len())
    }

    fn begin(&mut self) -> Result<(), Failed> {
        self.begun = true;
        Ok(())
    }

    fn append(&mut self, _bytes: &[u8]) -> Result<(), Failed> {
        Ok(())
    }

    fn commit(&mut self, _path: &Path, _time: i64) -> Result<(), Failed> {
        self.begun = false;
        Ok(())
    }

    fn rename(&mut self, _from: &Path, _to: &Path) -> Result<bool, Failed> {
        Ok(false)
    }

    fn delete(&mut self, _path: &Path) -> Result<bool, Failed> {
        Ok(false)
    }
}

/// A run of devices with such a remote as Path1.
fn run_untold(
    alloc: Global,
    words: &str,
    listed: &'static [u8],
    devices: &mut Devices,
) -> Result<End, Fail> {
    let opts = options(alloc, words)?;
    let mut one = Untold {
        listed,
        opened: false,
        begun: false,
    };
    Ok(run(
        alloc,
        &opts,
        &Limits::REAL,
        &mut one,
        &mut devices.two,
        &mut devices.work,
        &mut FixedClock::new(0),
        &mut devices.sink,
    ))
}

/// Whether a file at `f` of one byte changed, of which that many bytes were read.
fn is_moved(end: &End, bytes: u64) -> bool {
    match end {
        End::Moved(Side::One, path, listed, Some(read)) => {
            path.as_bytes() == b"f".as_slice() && listed.size == 1 && read.size == bytes
        }
        _ => false,
    }
}

/// Whether a text that is no path was listed on Path1.
fn is_bad_path(end: &End) -> bool {
    match end {
        End::BadPath(Side::One, text) => text.as_bytes() == b"a//b".as_slice(),
        _ => false,
    }
}

#[test]
fn a_listed_text_that_is_no_path_is_told(rt: HostRuntime) -> Result<(), Fail> {
    let mut devices = Devices::new(rt.alloc());
    let end = run_untold(rt.alloc(), "L R --resync", b"a//b", &mut devices)?;
    assert!(rt; is_bad_path(&end));
    assert!(rt; devices.calls(Device::Two) == 0 && devices.has_names(""));
    Ok(())
}

/// A new file of one byte has more bytes than the buffer of a copy.
#[test]
fn a_file_without_an_end_is_told_and_not_copied(rt: HostRuntime) -> Result<(), Fail> {
    let mut devices = Devices::new(rt.alloc());
    assert_eq!(rt; devices.play("both k=k@1\nrun 0 L R --resync")?, None);
    let end = run_untold(rt.alloc(), "L R --force", b"f", &mut devices)?;
    assert!(rt; is_moved(&end, 65_536) && devices.has(Side::Two, "")?);
    assert_eq!(rt;
        devices.play("ends bisync: path1: \"f\" changed during the run|")?,
        None
    );
    Ok(())
}
