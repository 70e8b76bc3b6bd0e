use crate::LocalRemote;
use bisync_device::{Failed, Folders, ListFault};
use bisync_text::{Path, Text};
use std::alloc::Global;
use std::process::Processes;
use std::rt::Files;

impl<'a, R: Files + AllocGlobal + Processes + Clone + Drop> Folders for LocalRemote<'a, R> {
    fn list_folders(&mut self, alloc: Global, out: &mut Vec<Text>) -> Result<(), ListFault> {
        match self.root.list_folders(self.rt, alloc) {
            Ok(mut folders) => match out.append(&mut folders) {
                Ok(()) => Ok(()),
                Err(_) => Err(ListFault::OutOfMemory),
            },
            Err(e) => Err(self.faults.list_fault(&e)),
        }
    }

    fn make_folder(&mut self, path: &Path) -> Result<bool, Failed> {
        let outcome = self.root.make_folder(self.rt, path);
        self.faults.answer(outcome)
    }

    fn remove_folder(&mut self, path: &Path) -> Result<bool, Failed> {
        let outcome = self.root.remove_folder(self.rt, path);
        self.faults.answer(outcome)
    }
}
