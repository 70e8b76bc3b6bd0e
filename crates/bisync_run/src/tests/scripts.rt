//! Runs as texts. A script begins with devices that have nothing. Each of its lines is a word, a space
//! and the rest, does something or says what is to hold, and `|` stands for a newline:
//!
//! | Line | Meaning |
//! |---|---|
//! | `both FILES`, `one FILES`, `two FILES` | files are put or taken away |
//! | `hold NAME TEXT` | the work folder gets a text under a name |
//! | `base TEXT` | it gets a text under `1.lst` and under `2.lst` |
//! | `coarse` | Path2 keeps times in whole two seconds from now on |
//! | `fail DEVICE NUMBER`, `faildone DEVICE NUMBER` | that call is to fail, with its effect done or not |
//! | `stop NUMBER NUMBER NUMBER` | both sides and the work folder stop after so many calls |
//! | `wake` | all wake, and the lock is removed |
//! | `run STATUS WORDS` | a run by these words has this exit status |
//! | `early`, `late`, `tick` | the same one nanosecond before, at the greatest moment, and by a clock that goes on by 30 seconds at each reading |
//! | `told TEXT`, `starts TEXT`, `ends TEXT` | the last run's report is that, or begins or ends so |
//! | `have FILES`, `have1 FILES`, `have2 FILES` | both sides, or one, have these files and no others |
//! | `names NAMES` | these names and no others are in the work folder |
//! | `holds NAME TEXT` | what is there under a name begins so |
//! | `calls DEVICE NUMBER` | the device had so many calls |

ghost use Rattle.std.specs.Prelude.{false};

use super::devices::{Device, Devices, NOW};
use bisync_device::{Clock, WorkName};
use bisync_memory::{FixedClock, MemSink};
use bisync_report::status;
use bisync_tree::{Limits, Side, Window};
use std::alloc::{AllocError, Global};
use std::test::Fail;

const NAMES: [(&str, WorkName); 14] = [
    ("1.lst", WorkName::One),
    ("2.lst", WorkName::Two),
    ("1.lst-old", WorkName::OneOld),
    ("2.lst-old", WorkName::TwoOld),
    ("1.lst-new", WorkName::OneNew),
    ("2.lst-new", WorkName::TwoNew),
    ("1.lst-err", WorkName::OneErr),
    ("2.lst-err", WorkName::TwoErr),
    ("lock", WorkName::Lock),
    ("lock-new", WorkName::LockNew),
    ("folders", WorkName::Folders),
    ("folders-new", WorkName::FoldersNew),
    ("filters", WorkName::Filters),
    ("filters.md5", WorkName::FiltersMd5),
];

/// A clock that goes on by 30 seconds at each reading.
#[derive(Drop)]
struct Ticking {
    moment: i64,
}

impl Clock for Ticking {
    ghost tells = { false };

    ghost moment = { λ clock. clock.moment };

    fn now(&mut self) -> i64 {
        self.moment = self.moment.saturating_add(30_000_000_000);
        self.moment
    }
}

/// The bytes of a text in which `|` stands for a newline.
fn bytes_of(alloc: Global, text: &str) -> Result<Vec<u8>, AllocError> {
    let mut bytes = Vec::new(alloc);
    for byte in text.bytes() {
        bytes.push(if byte == b'|' { b'\n' } else { byte })?;
    }
    Ok(bytes)
}

fn device(name: &str) -> Device {
    match name {
        "one" => Device::One,
        "two" => Device::Two,
        "work" => Device::Work,
        _ => Device::Sink,
    }
}

fn work_name(text: &str) -> Result<WorkName, Fail> {
    match NAMES.iter().find(|name| name.0 == text) {
        Some(name) => Ok(name.1),
        None => Err(Fail::new("no name of the work folder")),
    }
}

/// The part before the first space and the part after it.
fn cut(text: &str) -> (&str, &str) {
    text.split_once(' ').unwrap_or((text, ""))
}

impl Devices {
    /// The first line of a script that isn't so.
    pub fn play<'a>(&mut self, script: &'a str) -> Result<Option<&'a str>, Fail> {
        for line in script.lines() {
            let (word, rest) = cut(line);
            if !self.does(word, rest)? {
                return Ok(Some(line));
            }
        }
        Ok(None)
    }

    /// Does what a line says, or says whether it is so.
    fn does(&mut self, word: &str, rest: &str) -> Result<bool, Fail> {
        match word {
            "both" => {
                self.set(Side::One, rest)?;
                self.set(Side::Two, rest)?;
            }
            "one" => self.set(Side::One, rest)?,
            "two" => self.set(Side::Two, rest)?,
            "hold" => self.hold(rest)?,
            "base" => self.hold_base(rest)?,
            "coarse" => self.two.set_window(Window::S2),
            "fail" => self.fail(rest, false)?,
            "faildone" => self.fail(rest, true)?,
            "stop" => self.stop(rest)?,
            "wake" => self.wake()?,
            _ => return self.holds_true(word, rest),
        }
        Ok(true)
    }

    fn holds_true(&mut self, word: &str, rest: &str) -> Result<bool, Fail> {
        match word {
            "run" => self.ends_so(rest, &mut FixedClock::new(NOW)),
            "early" => self.ends_so(rest, &mut FixedClock::new(NOW - 1)),
            "late" => self.ends_so(rest, &mut FixedClock::new(i64::MAX)),
            "tick" => self.ends_so(rest, &mut Ticking { moment: 0 }),
            "told" => Ok(self.sink.bytes() == bytes_of(self.alloc, rest)?.as_slice()),
            "starts" => Ok(self.sink.bytes().starts_with(&bytes_of(self.alloc, rest)?)),
            "ends" => Ok(self.sink.bytes().ends_with(&bytes_of(self.alloc, rest)?)),
            "have" => Ok(self.has(Side::One, rest)? && self.has(Side::Two, rest)?),
            "have1" => self.has(Side::One, rest),
            "have2" => self.has(Side::Two, rest),
            "names" => Ok(self.has_names(rest)),
            "holds" => self.holds(rest),
            "calls" => self.made_calls(rest),
            _ => Err(Fail::new("no word of a script")),
        }
    }

    fn hold(&mut self, rest: &str) -> Result<(), Fail> {
        let (name, text) = cut(rest);
        let bytes = bytes_of(self.alloc, text)?;
        self.work.put(work_name(name)?, &bytes)?;
        Ok(())
    }

    fn hold_base(&mut self, text: &str) -> Result<(), Fail> {
        let bytes = bytes_of(self.alloc, text)?;
        self.work.put(WorkName::One, &bytes)?;
        self.work.put(WorkName::Two, &bytes)?;
        Ok(())
    }

    fn holds(&self, rest: &str) -> Result<bool, Fail> {
        let (name, text) = cut(rest);
        let bytes = bytes_of(self.alloc, text)?;
        match self.work.get(work_name(name)?) {
            Some(held) => Ok(held.starts_with(&bytes)),
            None => Ok(false),
        }
    }

    /// Whether these names and no others are in the work folder.
    pub fn has_names(&self, names: &str) -> bool {
        NAMES.iter().all(|(text, name)| {
            let is_named = names.split(' ').any(|named| named == *text);
            self.work.get(*name).is_some() == is_named
        })
    }

    fn fail(&mut self, rest: &str, done: bool) -> Result<(), Fail> {
        let (name, call) = cut(rest);
        self.fail_at(device(name), call.parse::<u64>()?, done)
    }

    fn made_calls(&self, rest: &str) -> Result<bool, Fail> {
        let (name, calls) = cut(rest);
        Ok(self.calls(device(name)) == calls.parse::<u64>()?)
    }

    fn stop(&mut self, rest: &str) -> Result<(), Fail> {
        let (one, rest) = cut(rest);
        let (two, work) = cut(rest);
        self.stop_after(
            one.parse::<u64>()?,
            two.parse::<u64>()?,
            work.parse::<u64>()?,
        );
        Ok(())
    }

    /// Whether a run with a new report has this exit status.
    fn ends_so<C: Clock>(&mut self, rest: &str, clock: &mut C) -> Result<bool, Fail> {
        let (wanted, words) = cut(rest);
        self.sink = MemSink::new(self.alloc);
        let end = self.run_by(words, &Limits::REAL, clock)?;
        let is_resilient = words.contains("--resilient");
        Ok(status(&end, is_resilient) == wanted.parse::<u8>()?)
    }
}

/// The first line of scripts that isn't so, each by devices of its own.
pub fn first_wrong<'a>(alloc: Global, scripts: &[&'a str]) -> Result<Option<&'a str>, Fail> {
    for script in scripts {
        if let Some(line) = Devices::new(alloc).play(script)? {
            return Ok(Some(line));
        }
    }
    Ok(None)
}
