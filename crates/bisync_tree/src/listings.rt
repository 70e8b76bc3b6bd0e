//! A listing: rows in strictly ascending byte order of their paths.

ghost use Rattle.std.specs.Prelude.{◌≡◌, ◌++◌, ◌∷◌, [], ◌<◌, ◌↔◌, length, slice_get, Some, IsTrue, OnOk, OnErr};
ghost use Rattle.bisync_tree.specs.Rows.{keys, values, look, IsAboveLast, AreRising};

use crate::Entry;
use bisync_text::{OutOfMemory, Path};
use std::alloc::Global;
use std::cmp::Ordering;
use std::marker::Model;

/// A path with its entry.
pub(crate) type Row = (Path, Entry);

/// Paths with their entries.
#[derive(Drop)]
pub struct Listing {
    rows: Vec<Row>,
}

impl Model for Listing {
    ghost use Rattle.bisync_tree.specs.Rows.{Rows, keys, AreRising};

    ghost Value = { Rows };

    ghost view = { λ l. l.rows.items };

    ghost invariant = { λ l. AreRising (keys l.rows.items) };
}

impl Listing {
    /// No paths. Takes no memory.
    pub fn new(alloc: Global) -> Listing
        ensures { result ≡ [] }
    {
        Listing {
            rows: Vec::new(alloc),
        }
    }

    /// Whether a path comes after the others, so that `push` takes it.
    pub fn may_push(&self, path: &Path) -> bool
        ensures { IsTrue result ↔ IsAboveLast (keys self.now) path.now }
    {
        match self.rows.last() {
            None => true,
            Some(row) => row.0.cmp(path).is_lt(),
        }
    }

    /// Adds a path that comes after the others.
    pub fn push(&mut self, path: Path, entry: Entry) -> Result<(), OutOfMemory>
        requires above { IsAboveLast (keys self.old) path }
        ensures ok { OnOk result (self.new ≡ self.old ++ (path, entry) ∷ []) }
        ensures err { OnErr result (self.new ≡ self.old) }
    {
        self.rows.push((path, entry))?;
        Ok(())
    }

    /// The number of paths. The paths rise strictly.
    pub fn len(&self) -> usize
        ensures count { result ≡ length self.now }
        ensures rising { AreRising (keys self.now) }
    {
        self.rows.len()
    }

    /// The path at a place, counted from 0.
    pub fn path_at(&self, i: usize) -> &Path
        requires inside { i < length self.now }
        ensures { slice_get (keys self.now) i ≡ Some result.now }
    {
        &self.rows[i].0
    }

    /// The entry at a place, counted from 0.
    pub fn entry_at(&self, i: usize) -> &Entry
        requires inside { i < length self.now }
        ensures { slice_get (values self.now) i ≡ Some result.now }
    {
        &self.rows[i].1
    }

    /// The entry of a path, by search by halves. None exactly where the path isn't listed.
    pub fn get(&self, path: &Path) -> Option<Entry>
        ensures { result ≡ look self.now path.now }
    {
        let rows = self.rows.as_slice();
        let mut low = 0;
        let mut high = rows.len();
        while low < high {
            let middle = low + (high - low) / 2;
            let row = &rows[middle];
            match row.0.cmp(path) {
                Ordering::Less => low = middle + 1,
                Ordering::Greater => high = middle,
                Ordering::Equal => return Some(row.1),
            }
        }
        None
    }

    /// The rows in order.
    pub(crate) fn rows(&self) -> &[Row]
        ensures items { result.now ≡ self.now }
        ensures rising { AreRising (keys self.now) }
    {
        self.rows.as_slice()
    }
}
