//! Search by halves for a text among paths in byte order. The text needn't be a path, so that a
//! name that is too long can be looked for, too.

ghost use Rattle.std.specs.Prelude.{◌≡◌, ◌<◌, List, length, slice_get, Some};
ghost use Rattle.bisync_tree.specs.Rows.{PathBytes, keys, is_among, AreRising};

use bisync_text::Path;
use bisync_tree::{Listing, Names};
use std::cmp::Ordering;

/// Paths in strictly ascending byte order, by their places from 0.
pub(crate) trait SortedPaths {
    /// The paths.
    ghost paths: { Self → List PathBytes };

    /// How many there are.
    fn count(&self) -> usize
        ensures count { result ≡ length (paths self.now) }
        ensures rising { AreRising (paths self.now) };

    /// The path at a place.
    fn path(&self, place: usize) -> &Path
        requires inside { place < length (paths self.now) }
        ensures { slice_get (paths self.now) place ≡ Some result.now };
}

impl SortedPaths for Names {
    ghost paths = { λ names. names };

    fn count(&self) -> usize {
        self.len()
    }

    fn path(&self, place: usize) -> &Path {
        self.at(place)
    }
}

impl SortedPaths for Listing {
    ghost paths = { keys };

    fn count(&self) -> usize {
        self.len()
    }

    fn path(&self, place: usize) -> &Path {
        self.path_at(place)
    }
}

/// Whether a text is among the paths.
pub(crate) fn holds<S: SortedPaths>(sorted: &S, text: &[u8]) -> bool
    ensures { result ≡ is_among text.now (S.paths sorted.now) }
{
    let mut low = 0;
    let mut high = sorted.count();
    while low < high {
        let middle = low + (high - low) / 2;
        let found = sorted.path(middle).as_bytes();
        match found.cmp(text) {
            Ordering::Less => low = middle + 1,
            Ordering::Greater => high = middle,
            Ordering::Equal => return true,
        }
    }
    false
}
