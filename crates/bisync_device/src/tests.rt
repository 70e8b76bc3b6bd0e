//! Devices that tell nothing meet the traits.

ghost use Rattle.std.specs.Prelude.{false, [], None};
ghost use Rattle.std.specs.FinMap as finmap;
ghost use Rattle.bisync_device.specs.WorkFolder.{Absent};
ghost use Rattle.bisync_tree.specs.declared.windows.Window.TheVariants.{Ns1};

use crate::{Failed, ListFault, Remote, Work, WorkName};
use bisync_text::{Path, Text};
use bisync_tree::{Item, Window};
use std::alloc::Global;

/// A remote that tells nothing.
#[derive(Drop)]
struct Untold {
    opened: bool,
    begun: bool,
    faults: u64,
}

impl Remote for Untold {
    ghost tells = { false };

    ghost state = { λ untold. record {
      tree = finmap.empty;
      folders = finmap.empty;
      changes = 0;
      reading = record { opened = untold.opened; rest = [] };
      begun = untold.begun;
      part = [];
      faults = untold.faults;
      left = None;
      window = Ns1;
    } };

    fn window(&self) -> Window {
        Window::Ns1
    }

    fn attach(&mut self, _root: &Text) -> Result<(), Failed> {
        self.opened = false;
        self.begun = false;
        Ok(())
    }

    fn list(&mut self, _alloc: Global, _out: &mut Vec<Item>) -> Result<(), ListFault> {
        Err(ListFault::OutOfMemory)
    }

    fn open(&mut self, _path: &Path) -> Result<bool, Failed> {
        self.opened = true;
        Ok(true)
    }

    fn read(&mut self, buffer: &mut [u8]) -> Result<usize, Failed> {
        Ok(buffer.len())
    }

    fn begin(&mut self) -> Result<(), Failed> {
        self.begun = true;
        Ok(())
    }

    fn append(&mut self, _bytes: &[u8]) -> Result<(), Failed> {
        self.begun = false;
        self.faults = self.faults.saturating_add(1);
        Err(Failed)
    }

    fn commit(&mut self, _path: &Path, _time: i64) -> Result<(), Failed> {
        self.begun = false;
        Ok(())
    }

    fn rename(&mut self, _from: &Path, _to: &Path) -> Result<bool, Failed> {
        self.faults = self.faults.saturating_add(1);
        Err(Failed)
    }

    fn delete(&mut self, _path: &Path) -> Result<bool, Failed> {
        Ok(false)
    }
}

/// A work folder that tells nothing.
#[derive(Drop)]
struct UntoldWork {
    opened: bool,
    writing: Option<WorkName>,
    faults: u64,
}

impl Work for UntoldWork {
    ghost tells = { false };

    ghost state = { λ untold. record {
      folder = record {
        one = Absent;
        two = Absent;
        one_old = Absent;
        two_old = Absent;
        one_new = Absent;
        two_new = Absent;
        one_err = Absent;
        two_err = Absent;
        lock = Absent;
        lock_new = Absent;
        folders = Absent;
        folders_new = Absent;
        filters = Absent;
        filters_md5 = Absent;
      };
      reading = record { opened = untold.opened; rest = [] };
      writing = untold.writing;
      faults = untold.faults;
      left = None;
    } };

    fn attach(
        &mut self,
        _folder: &Text,
        _session: &[u8; 32],
        _filters: Option<&Text>,
    ) -> Result<(), Failed> {
        self.opened = false;
        self.writing = None;
        Ok(())
    }

    fn open(&mut self, _name: WorkName) -> Result<bool, Failed> {
        self.opened = true;
        Ok(true)
    }

    fn read(&mut self, buffer: &mut [u8]) -> Result<usize, Failed> {
        Ok(buffer.len())
    }

    fn create(&mut self, _name: WorkName) -> Result<bool, Failed> {
        Ok(false)
    }

    fn begin(&mut self, name: WorkName) -> Result<(), Failed> {
        self.writing = Some(name);
        Ok(())
    }

    fn append(&mut self, _bytes: &[u8]) -> Result<(), Failed> {
        Ok(())
    }

    fn sync(&mut self) -> Result<(), Failed> {
        self.writing = None;
        self.faults = self.faults.saturating_add(1);
        Err(Failed)
    }

    fn rename(&mut self, _from: WorkName, _to: WorkName) -> Result<bool, Failed> {
        self.writing = None;
        Ok(true)
    }

    fn remove(&mut self, _name: WorkName) -> Result<bool, Failed> {
        self.writing = None;
        Ok(false)
    }
}

fn write_part<R: Remote>(remote: &mut R, bytes: &[u8]) -> Result<(), Failed> {
    remote.begin()?;
    remote.append(bytes)
}

fn write_name<W: Work>(work: &mut W, name: WorkName, bytes: &[u8]) -> Result<(), Failed> {
    work.begin(name)?;
    work.append(bytes)?;
    work.sync()
}

#[test]
fn devices_that_tell_nothing_meet_the_traits(rt: HostRuntime) {
    let mut remote = Untold {
        opened: false,
        begun: false,
        faults: 0,
    };
    assert_eq!(rt; write_part(&mut remote, b"part"), Err(Failed));
    assert_eq!(rt; remote.faults, 1);
    let mut work = UntoldWork {
        opened: false,
        writing: None,
        faults: 0,
    };
    assert_eq!(rt; write_name(&mut work, WorkName::Lock, b"text"), Err(Failed));
    assert_eq!(rt; work.faults, 1);
}
