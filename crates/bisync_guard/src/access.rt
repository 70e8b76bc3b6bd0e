//! What is seen of check files.

ghost use Rattle.std.specs.Prelude.{◌≡◌, ◌∷◌, List, IfOk, OnErr, IsTrue};
ghost use Rattle.bisync_tree.specs.Walk.{CellValue, seen};

use crate::Guard;
use bisync_text::{OutOfMemory, Path, Text};
use bisync_tree::{Cell, Side};
use std::alloc::Global;

/// What a walk in byte order has seen of the files with the check filename.
#[derive(Clone, Copy)]
pub(crate) enum Access<'a> {
    /// None yet.
    Unseen,
    /// Some, and each on both sides.
    Whole,
    /// This side lacks the one at this path.
    Missing(Side, &'a Path),
}

impl<'a> Access<'a> {
    ghost use Rattle.bisync_guard.specs.Tally.{guard_of, guard_after};
    ghost use Rattle.bisync_guard.specs.Order.{tells_path};

    /// What is seen with a further cell.
    pub(crate) fn with(self, name: &Text, cell: &Cell<'a>) -> Access<'a>
        ensures { (rest : List CellValue) → guard_after name.now result rest
            ≡ guard_after name.now self.entry (seen cell.now ∷ rest) }
    {
        if cell.path.last_part() != name.as_bytes() {
            return self;
        }
        match (self, cell.now1, cell.now2) {
            (Access::Missing(side, path), _, _) => Access::Missing(side, path),
            (_, Some(_), Some(_)) => Access::Whole,
            (_, Some(_), None) => Access::Missing(Side::Two, cell.path),
            (_, None, Some(_)) => Access::Missing(Side::One, cell.path),
            (access, None, None) => access,
        }
    }

    /// The guard of what was seen.
    pub(crate) fn guard(self, alloc: Global) -> Result<Option<Guard>, OutOfMemory>
        ensures found { IfOk result (λ found. found ≡ guard_of self.entry) }
        ensures memory { OnErr result (IsTrue (tells_path (guard_of self.entry))) }
    {
        match self {
            Access::Unseen => Ok(Some(Guard::CheckAccess(Side::One, None))),
            Access::Whole => Ok(None),
            Access::Missing(side, path) => {
                Ok(Some(Guard::CheckAccess(side, Some(path.copy(alloc)?))))
            }
        }
    }
}
