ghost use Rattle.std.specs.Prelude.{◌≡◌, ◌≤◌, ◌^◌, ◌++◌, [], List, ℕ, length, false, IsTrue};
ghost use Rattle.bisync_transfer.specs.Tally.{Tallies, entry_read};

use bisync_tree::Entry;
use md5::{Digest, Md5};

/// The number of the bytes read of a listed file and, where the listed entry has a digest, their
/// digest so far.
#[derive(Drop)]
pub struct Tally {
    pub size: u64,
    pub hasher: Option<Md5>,
}

impl Tally {
    pub fn new(listed: &Entry) -> Tally
        ensures { Tallies listed.now result [] }
    {
        let hasher = if listed.hash.is_some() {
            Some(Md5::new())
        } else {
            None
        };
        Tally { size: 0, hasher }
    }

    /// Adds a piece. False where there are more bytes than the greatest `u64`.
    pub fn add(&mut self, piece: &[u8]) -> bool
        ensures added { (listed : Entry) (bytes : List ℕ) → Tallies listed self.old bytes →
            IsTrue result → Tallies listed self.new (bytes ++ piece.now) }
        ensures full { (listed : Entry) (bytes : List ℕ) → Tallies listed self.old bytes →
            result ≡ false → 2 ^ 64 ≤ length (bytes ++ piece.now) }
    {
        let Some(size) = self.size.checked_add(piece.len() as u64) else {
            return false;
        };
        self.size = size;
        if let Some(hasher) = &mut self.hasher {
            hasher.update(piece);
        }
        true
    }

    /// What was read, in the listed entry's terms.
    pub fn entry(self, listed: &Entry) -> Entry
        ensures { (bytes : List ℕ) → Tallies listed.now self bytes →
            result ≡ entry_read listed.now bytes }
    {
        let hash = match self.hasher {
            Some(hasher) => Some(hasher.finalize()),
            None => None,
        };
        Entry {
            size: self.size,
            time: listed.time,
            hash,
        }
    }
}
