//! Devices in memory for the top call.

use crate::answers::Answer;
use crate::top::bisync_main;
use bisync_memory::{MemClock, MemRemote, MemSink, MemWork};
use bisync_text::{Path, Text};
use bisync_tree::{File, Side};
use std::alloc::Global;
use std::test::Fail;

const SECOND: i64 = 1_000_000_000;

/// The words of a line, with a space between them.
pub fn words_of(alloc: Global, line: &str) -> Result<Vec<Text>, Fail> {
    let mut words = Vec::new(alloc);
    for word in line.split(' ').filter(|word| !word.is_empty()) {
        words.push(Text::from_bytes(alloc, word.as_bytes())?)?;
    }
    Ok(words)
}

/// All that the top call is given beside the words.
#[derive(Drop)]
pub struct Devices {
    pub one: MemRemote,
    pub two: MemRemote,
    pub keep1: MemRemote,
    pub keep2: MemRemote,
    pub work: MemWork,
    pub clock: MemClock,
    pub sink: MemSink,
}

impl Devices {
    pub fn new(alloc: Global) -> Devices {
        Devices {
            one: MemRemote::new(alloc),
            two: MemRemote::new(alloc),
            keep1: MemRemote::new(alloc),
            keep2: MemRemote::new(alloc),
            work: MemWork::new(alloc),
            clock: MemClock::new(),
            sink: MemSink::new(alloc),
        }
    }

    pub fn ask(&mut self, alloc: Global, words: &[Text]) -> Answer {
        bisync_main(
            alloc,
            words,
            &mut self.one,
            &mut self.two,
            &mut self.keep1,
            &mut self.keep2,
            &mut self.work,
            &mut self.clock,
            &mut self.sink,
        )
    }

    /// Puts a file on a side.
    pub fn put(
        &mut self,
        alloc: Global,
        side: Side,
        path: &str,
        bytes: &str,
        seconds: i32,
    ) -> Result<(), Fail> {
        let path = Path::read(alloc, path.as_bytes())?;
        let bytes = Text::from_bytes(alloc, bytes.as_bytes())?;
        let file = File {
            bytes,
            time: seconds as i64 * SECOND,
        };
        match side {
            Side::One => self.one.put(&path, &file)?,
            Side::Two => self.two.put(&path, &file)?,
        }
        Ok(())
    }

    /// Whether both sides have a file of these bytes and this time.
    pub fn both_have(
        &self,
        alloc: Global,
        path: &str,
        bytes: &str,
        seconds: i32,
    ) -> Result<bool, Fail> {
        let path = Path::read(alloc, path.as_bytes())?;
        Ok(
            is_file(self.one.get(&path), bytes, seconds)
                && is_file(self.two.get(&path), bytes, seconds),
        )
    }

    /// Whether a remote or the work folder was called.
    pub fn are_called(&self) -> bool {
        let remotes = self.one.calls() > 0 || self.two.calls() > 0;
        let keepers = self.keep1.calls() > 0 || self.keep2.calls() > 0;
        remotes || keepers || self.work.calls() > 0
    }
}

fn is_file(file: Option<&File>, bytes: &str, seconds: i32) -> bool {
    match file {
        Some(file) => {
            file.bytes.as_bytes() == bytes.as_bytes() && file.time == seconds as i64 * SECOND
        }
        None => false,
    }
}
