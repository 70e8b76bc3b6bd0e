ghost use Rattle.std.specs.Prelude.{◌≡◌, ◌≤◌, ◌^◌, ◌++◌, [], List, ℕ, length, false, IsTrue};

use bisync_tree::Entry;
use md5::{Digest, Md5};

/// The count and the digest of the bytes read so far.
#[derive(Drop)]
pub struct Tally {
    pub size: u64,
    pub hasher: Md5,
}

impl Tally {
    ghost use Rattle.bisync_observe.specs.Tally.{Tallies, entry_of_bytes, entry_of_size};

    pub fn new() -> Tally
        ensures { Tallies result [] }
    {
        Tally {
            size: 0,
            hasher: Md5::new(),
        }
    }

    /// Adds a piece. False where there are more bytes than the greatest `u64`.
    pub fn add(&mut self, piece: &[u8]) -> bool
        ensures added { (bytes : List ℕ) → Tallies self.old bytes → IsTrue result → Tallies self.new (bytes ++ piece.now) }
        ensures full { (bytes : List ℕ) → Tallies self.old bytes → result ≡ false → 2 ^ 64 ≤ length (bytes ++ piece.now) }
    {
        let Some(size) = self.size.checked_add(piece.len() as u64) else {
            return false;
        };
        self.size = size;
        self.hasher.update(piece);
        true
    }

    /// The entry of the number of the bytes, with the listed time and no digest.
    pub fn counted(&self, listed: &Entry) -> Entry
        ensures { (bytes : List ℕ) → Tallies self.now bytes → result ≡ entry_of_size listed.now.time bytes }
    {
        Entry {
            size: self.size,
            time: listed.time,
            hash: None,
        }
    }

    /// The entry of the bytes, with the listed time.
    pub fn entry(self, listed: &Entry) -> Entry
        ensures { (bytes : List ℕ) → Tallies self bytes → result ≡ entry_of_bytes listed.now.time bytes }
    {
        Entry {
            size: self.size,
            time: listed.time,
            hash: Some(self.hasher.finalize()),
        }
    }
}
