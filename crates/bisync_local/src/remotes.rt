ghost use Rattle.std.specs.Prelude.{◌≡◌, false};
ghost use Rattle.bisync_device.specs.Remote.{IsClosed};
ghost use Rattle.bisync_local.specs.Devices.{remote_state};

use crate::faults::Faults;
use crate::roots::Root;
use bisync_device::{Failed, ListFault, Remote};
use bisync_text::{Path, Text};
use bisync_tree::{Item, Window};
use std::alloc::Global;
use std::io;
use std::io::{ErrorKind, Read, Write};
use std::process::Processes;
use std::rt::Files;

/// A real folder as a remote, with the folders below it. It keeps times to the nanosecond.
///
/// No call follows a symbolic link below the root, and links and special files are never listed.
/// Until `attach` answered Ok every other call fails.
#[derive(Drop)]
pub struct LocalRemote<'a, R: Files> {
    pub(crate) rt: &'a R,
    pub(crate) root: Root,
    reader: Option<R::File>,
    part: Option<R::File>,
    pub(crate) faults: Faults,
}

impl<'a, R: Files + AllocGlobal + Processes + Clone + Drop> LocalRemote<'a, R> {
    /// A remote that is not attached yet.
    pub fn new(rt: &'a R) -> LocalRemote<'a, R>
        ensures faults { (remote_state result).faults ≡ 0 }
        ensures closed { IsClosed (remote_state result) }
    {
        LocalRemote {
            rt,
            root: Root::new(rt.alloc()),
            reader: None,
            part: None,
            faults: Faults::new(),
        }
    }

    /// The faults so far, or the greatest `u64`.
    pub fn faults(&self) -> u64
        ensures { result ≡ (remote_state self.now).faults }
    {
        self.faults.count
    }
}

impl<'a, R: Files + AllocGlobal + Processes + Clone + Drop> Remote for LocalRemote<'a, R> {
    ghost tells = { false };

    ghost state = { remote_state };

    fn window(&self) -> Window {
        Window::Ns1
    }

    fn attach(&mut self, root: &Text) -> Result<(), Failed> {
        self.reader = None;
        self.part = None;
        let outcome = self.root.attach(self.rt, root);
        self.faults.answer(outcome)
    }

    fn list(&mut self, alloc: Global, out: &mut Vec<Item>) -> Result<(), ListFault> {
        match self.root.list(self.rt, alloc) {
            Ok(mut items) => match out.append(&mut items) {
                Ok(()) => Ok(()),
                Err(_) => Err(ListFault::OutOfMemory),
            },
            Err(e) => Err(self.faults.list_fault(&e)),
        }
    }

    fn open(&mut self, path: &Path) -> Result<bool, Failed> {
        self.reader = None;
        match self.root.open(self.rt, path) {
            Ok(Some(file)) => {
                self.reader = Some(file);
                Ok(true)
            }
            Ok(None) => Ok(false),
            Err(_) => Err(self.faults.rise()),
        }
    }

    fn read(&mut self, buffer: &mut [u8]) -> Result<usize, Failed> {
        if let Some(file) = &mut self.reader {
            if let Ok(count) = file.read(buffer) {
                return Ok(count);
            }
        }
        self.reader = None;
        Err(self.faults.rise())
    }

    fn begin(&mut self) -> Result<(), Failed> {
        self.part = None;
        match self.root.begin(self.rt) {
            Ok(file) => {
                self.part = Some(file);
                Ok(())
            }
            Err(_) => Err(self.faults.rise()),
        }
    }

    fn append(&mut self, bytes: &[u8]) -> Result<(), Failed> {
        if let Some(file) = &mut self.part {
            if let Ok(()) = file.write_all(bytes) {
                return Ok(());
            }
        }
        self.part = None;
        Err(self.faults.rise())
    }

    fn commit(&mut self, path: &Path, time: i64) -> Result<(), Failed> {
        if let Some(part) = self.part.take() {
            if let Ok(()) = self.root.commit(self.rt, &part, path, time) {
                return Ok(());
            }
        }
        Err(self.faults.rise())
    }

    fn rename(&mut self, from: &Path, to: &Path) -> Result<bool, Failed> {
        let outcome = self.root.rename(self.rt, from, to);
        self.faults.answer(outcome)
    }

    fn delete(&mut self, path: &Path) -> Result<bool, Failed> {
        let outcome = self.root.delete(self.rt, path);
        self.faults.answer(outcome)
    }
}
