ghost use Rattle.std.specs.Prelude.{◌≡◌, false};
ghost use Rattle.bisync_device.specs.Work.{IsWorkClosed};
ghost use Rattle.bisync_local.specs.Devices.{work_state};

use crate::faults::Faults;
use crate::names::text_of;
use crate::work_files::{
    create_name, empty_name, make_work_folder, open_name, remove_name, rename_name,
};
use crate::work_names::Place;
use bisync_device::{Failed, Work, WorkName};
use bisync_text::Text;
use std::fs::OpenFile;
use std::io;
use std::io::{Read, Write};
use std::rt::Files;

/// A file in writing, and its name.
#[derive(Drop)]
pub struct Writing<F> {
    pub file: F,
    pub name: WorkName,
}

/// A real work folder. The files of a session are `<folder>/<session>.1.lst` and so on; the filters
/// file lies where it was named, and its digest beside it.
///
/// A link is followed where the filters file is read, and nowhere else. Where no filters file was
/// named, it and its digest are not there, and can't be written. Until `attach` answered Ok every
/// other call fails.
#[derive(Drop)]
pub struct LocalWork<'a, R: Files> {
    rt: &'a R,
    place: Place,
    reader: Option<R::File>,
    writing: Option<Writing<R::File>>,
    faults: Faults,
}

impl<'a, R: Files + AllocGlobal> LocalWork<'a, R> {
    /// A work folder that is not attached yet.
    pub fn new(rt: &'a R) -> LocalWork<'a, R>
        ensures faults { (work_state result).faults ≡ 0 }
        ensures closed { IsWorkClosed (work_state result) }
    {
        LocalWork {
            rt,
            place: Place::new(rt.alloc()),
            reader: None,
            writing: None,
            faults: Faults::new(),
        }
    }

    /// The faults so far, or the greatest `u64`.
    pub fn faults(&self) -> u64
        ensures { result ≡ (work_state self.now).faults }
    {
        self.faults.count
    }
}

fn attach_at<R: Files>(
    rt: &R,
    place: &mut Place,
    folder: &Text,
    session: &[u8; 32],
    filters: Option<&Text>,
) -> io::Result<()> {
    place.leave();
    let folder = text_of(folder.as_bytes())?;
    make_work_folder(rt, folder)?;
    place.take(folder, session, filters)
}

fn open_at<R: Files>(rt: &R, place: &Place, name: WorkName) -> io::Result<Option<R::File>> {
    match place.name_of(name)? {
        Some(text) => open_name(rt, text.as_str(), name == WorkName::Filters),
        None => Ok(None),
    }
}

fn rename_at<R: Files>(rt: &R, place: &Place, from: WorkName, to: WorkName) -> io::Result<bool> {
    match place.name_of(from)? {
        Some(from) => rename_name(rt, from.as_str(), place.written_name(to)?.as_str()),
        None => Ok(false),
    }
}

fn remove_at<R: Files>(rt: &R, place: &Place, name: WorkName) -> io::Result<bool> {
    match place.name_of(name)? {
        Some(name) => remove_name(rt, name.as_str()),
        None => Ok(false),
    }
}

fn create_at<R: Files>(rt: &R, place: &Place, name: WorkName) -> io::Result<Option<R::File>> {
    create_name(rt, place.written_name(name)?.as_str())
}

fn begin_at<R: Files>(rt: &R, place: &Place, name: WorkName) -> io::Result<R::File> {
    empty_name(rt, place.written_name(name)?.as_str())
}

impl<'a, R: Files + AllocGlobal> Work for LocalWork<'a, R> {
    ghost tells = { false };

    ghost state = { work_state };

    fn attach(
        &mut self,
        folder: &Text,
        session: &[u8; 32],
        filters: Option<&Text>,
    ) -> Result<(), Failed> {
        self.reader = None;
        self.writing = None;
        let outcome = attach_at(self.rt, &mut self.place, folder, session, filters);
        self.faults.answer(outcome)
    }

    fn open(&mut self, name: WorkName) -> Result<bool, Failed> {
        self.reader = None;
        match open_at(self.rt, &self.place, name) {
            Ok(Some(file)) => {
                self.reader = Some(file);
                Ok(true)
            }
            Ok(None) => Ok(false),
            Err(_) => Err(self.faults.rise()),
        }
    }

    fn read(&mut self, buffer: &mut [u8]) -> Result<usize, Failed> {
        if let Some(file) = &mut self.reader {
            if let Ok(count) = file.read(buffer) {
                return Ok(count);
            }
        }
        self.reader = None;
        Err(self.faults.rise())
    }

    fn create(&mut self, name: WorkName) -> Result<bool, Failed> {
        match create_at(self.rt, &self.place, name) {
            Ok(Some(file)) => {
                self.writing = Some(Writing { file, name });
                Ok(true)
            }
            Ok(None) => Ok(false),
            Err(_) => {
                self.writing = None;
                Err(self.faults.rise())
            }
        }
    }

    fn begin(&mut self, name: WorkName) -> Result<(), Failed> {
        self.writing = None;
        match begin_at(self.rt, &self.place, name) {
            Ok(file) => {
                self.writing = Some(Writing { file, name });
                Ok(())
            }
            Err(_) => Err(self.faults.rise()),
        }
    }

    fn append(&mut self, bytes: &[u8]) -> Result<(), Failed> {
        if let Some(writing) = &mut self.writing {
            if let Ok(()) = writing.file.write_all(bytes) {
                return Ok(());
            }
        }
        self.writing = None;
        Err(self.faults.rise())
    }

    fn sync(&mut self) -> Result<(), Failed> {
        if let Some(writing) = &self.writing {
            if let Ok(()) = writing.file.sync_all() {
                return Ok(());
            }
        }
        self.writing = None;
        Err(self.faults.rise())
    }

    fn rename(&mut self, from: WorkName, to: WorkName) -> Result<bool, Failed> {
        self.writing = None;
        let outcome = rename_at(self.rt, &self.place, from, to);
        self.faults.answer(outcome)
    }

    fn remove(&mut self, name: WorkName) -> Result<bool, Failed> {
        self.writing = None;
        let outcome = remove_at(self.rt, &self.place, name);
        self.faults.answer(outcome)
    }
}
