//! The names on a side, which may pass the filter rules or not.

ghost use Rattle.std.specs.Prelude.{◌≡◌, ◌++◌, ◌∷◌, [], ◌<◌, ◌↔◌, length, slice_get, Some, IsTrue, OnOk, OnErr};
ghost use Rattle.bisync_tree.specs.Rows.{is_among, IsAboveLast, AreRising};

use bisync_text::{OutOfMemory, Path};
use std::alloc::Global;
use std::cmp::Ordering;
use std::marker::Model;

/// Paths in strictly ascending byte order.
#[derive(Drop)]
pub struct Names {
    paths: Vec<Path>,
}

impl Model for Names {
    ghost use Rattle.std.specs.Prelude.{List};
    ghost use Rattle.bisync_tree.specs.Rows.{PathBytes, AreRising};

    ghost Value = { List PathBytes };

    ghost view = { λ n. n.paths.items };

    ghost invariant = { λ n. AreRising n.paths.items };
}

impl Names {
    /// No paths. Takes no memory.
    pub fn new(alloc: Global) -> Names
        ensures { result ≡ [] }
    {
        Names {
            paths: Vec::new(alloc),
        }
    }

    /// Whether a path comes after the others, so that `push` takes it.
    pub fn may_push(&self, path: &Path) -> bool
        ensures { IsTrue result ↔ IsAboveLast self.now path.now }
    {
        match self.paths.last() {
            None => true,
            Some(last) => last.cmp(path).is_lt(),
        }
    }

    /// Adds a path that comes after the others.
    pub fn push(&mut self, path: Path) -> Result<(), OutOfMemory>
        requires above { IsAboveLast self.old path }
        ensures ok { OnOk result (self.new ≡ self.old ++ path ∷ []) }
        ensures err { OnErr result (self.new ≡ self.old) }
    {
        self.paths.push(path)?;
        Ok(())
    }

    /// The number of paths. They rise strictly.
    pub fn len(&self) -> usize
        ensures count { result ≡ length self.now }
        ensures rising { AreRising self.now }
    {
        self.paths.len()
    }

    /// The path at a place, counted from 0.
    pub fn at(&self, i: usize) -> &Path
        requires inside { i < length self.now }
        ensures { slice_get self.now i ≡ Some result.now }
    {
        &self.paths[i]
    }

    /// Whether a path is among them, by search by halves.
    pub fn holds(&self, path: &Path) -> bool
        ensures { result ≡ is_among path.now self.now }
    {
        let paths = self.paths.as_slice();
        let mut low = 0;
        let mut high = paths.len();
        while low < high {
            let middle = low + (high - low) / 2;
            let found = &paths[middle];
            match found.cmp(path) {
                Ordering::Less => low = middle + 1,
                Ordering::Greater => high = middle,
                Ordering::Equal => return true,
            }
        }
        false
    }
}
