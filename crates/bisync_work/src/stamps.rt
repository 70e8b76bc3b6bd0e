//! What is kept of the names of a base when their listings are gone.

ghost use Rattle.std.specs.Prelude.{◌≡◌, ◌<◌, ◌≤◌, ◌^◌, ℕ, false, true};
ghost use Rattle.bisync_device.specs.WorkFolder.{WorkFolder};
ghost use Rattle.bisync_work.specs.Stamps.{IsNewStamp};
ghost use Rattle.bisync_work.specs.BadNames.{IsFirstBad, base_names};
ghost use Rattle.bisync_work.specs.Standing.{AreMarks, is_stamp as has_this_stamp, has_stamp as has_any_stamp, bad_line as own_bad_line};

use bisync_device::WorkName;

/// What is kept of a name: that nothing is there, the stamp of its listing, or its first bad line.
#[derive(Clone, Copy)]
pub enum Mark {
    Absent,
    Stamp(u64),
    Bad(u64),
}

/// The marks of the four names of a base.
#[derive(Clone, Copy)]
pub struct Marks {
    pub one: Mark,
    pub two: Mark,
    pub one_old: Mark,
    pub two_old: Mark,
}

impl Mark {
    fn bad_line(self) -> Option<u64>
        ensures { result ≡ own_bad_line self }
    {
        match self {
            Mark::Bad(line) => Some(line),
            Mark::Absent | Mark::Stamp(_) => None,
        }
    }

    fn is_stamp(self, stamp: u64) -> bool
        ensures { result ≡ has_this_stamp stamp self }
    {
        match self {
            Mark::Stamp(own) => own == stamp,
            Mark::Absent | Mark::Bad(_) => false,
        }
    }
}

impl Marks {
    fn has_stamp(&self, stamp: u64) -> bool
        ensures { result ≡ has_any_stamp stamp self.now }
    {
        self.one.is_stamp(stamp)
            || self.two.is_stamp(stamp)
            || self.one_old.is_stamp(stamp)
            || self.two_old.is_stamp(stamp)
    }

    /// The least number from 1 that is none of the stamps. It is at most 5.
    pub fn new_stamp(&self) -> u64
        ensures low { 1 ≤ result }
        ensures high { result ≤ 5 }
        ensures new { (limit : ℕ) (f : WorkFolder) → limit < 2 ^ 64 → AreMarks limit f self.now → IsNewStamp limit f result }
    {
        for stamp in 1..5 {
            if !self.has_stamp(stamp) {
                return stamp;
            }
        }
        5
    }

    /// The first name that is there and has no listing, with its first bad line.
    pub fn first_bad(&self) -> Option<(WorkName, u64)>
        ensures { (limit : ℕ) (f : WorkFolder) → AreMarks limit f self.now → IsFirstBad limit f base_names result }
    {
        if let Some(line) = self.one.bad_line() {
            return Some((WorkName::One, line));
        }
        if let Some(line) = self.two.bad_line() {
            return Some((WorkName::Two, line));
        }
        if let Some(line) = self.one_old.bad_line() {
            return Some((WorkName::OneOld, line));
        }
        if let Some(line) = self.two_old.bad_line() {
            return Some((WorkName::TwoOld, line));
        }
        None
    }
}
