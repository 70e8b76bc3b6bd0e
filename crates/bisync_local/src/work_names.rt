use crate::names::{joined, text_of, with_slash};
use bisync_device::WorkName;
use bisync_text::Text;
use std::alloc::Global;
use std::io;
use std::io::ErrorKind;

/// Where the names of a work folder lie, once it is attached.
#[derive(Drop)]
pub struct Place {
    alloc: Global,
    /// The folder and the session, with what stands before each name.
    prefix: Option<String>,
    filters: Option<String>,
}

impl Place {
    pub fn new(alloc: Global) -> Place {
        Place {
            alloc,
            prefix: None,
            filters: None,
        }
    }

    /// Leaves every place.
    pub fn leave(&mut self) {
        self.prefix = None;
        self.filters = None;
    }

    /// Takes the names of a session in a folder, and a filters file where one is used.
    pub fn take(
        &mut self,
        folder: &str,
        session: &[u8; 32],
        filters: Option<&Text>,
    ) -> io::Result<()> {
        let mut prefix = with_slash(self.alloc, folder)?;
        prefix.push_str(text_of(session)?)?;
        if let Some(filters) = filters {
            let name = String::from_str(self.alloc, text_of(filters.as_bytes())?)?;
            self.filters = Some(name);
        }
        self.prefix = Some(prefix);
        Ok(())
    }

    /// The system's name of a name, or None for the filters file and its digest where none is used.
    pub fn name_of(&self, name: WorkName) -> io::Result<Option<String>> {
        let Some(prefix) = &self.prefix else {
            return Err(io::Error::from(ErrorKind::NotFound));
        };
        let first = match name {
            WorkName::Filters | WorkName::FiltersMd5 => match &self.filters {
                Some(filters) => filters,
                None => return Ok(None),
            },
            _ => prefix,
        };
        Ok(Some(joined(self.alloc, first.as_str(), ending(name))?))
    }

    /// The system's name of a name that is to be written.
    pub fn written_name(&self, name: WorkName) -> io::Result<String> {
        match self.name_of(name)? {
            Some(name) => Ok(name),
            None => Err(io::Error::from(ErrorKind::InvalidFilename)),
        }
    }
}

fn ending(name: WorkName) -> &'static str {
    match name {
        WorkName::One => ".1.lst",
        WorkName::Two => ".2.lst",
        WorkName::OneOld => ".1.lst-old",
        WorkName::TwoOld => ".2.lst-old",
        WorkName::OneNew => ".1.lst-new",
        WorkName::TwoNew => ".2.lst-new",
        WorkName::OneErr => ".1.lst-err",
        WorkName::TwoErr => ".2.lst-err",
        WorkName::Lock => ".lock",
        WorkName::LockNew => ".lock-new",
        WorkName::Folders => ".folders",
        WorkName::FoldersNew => ".folders-new",
        WorkName::Filters => "",
        WorkName::FiltersMd5 => ".md5",
    }
}
