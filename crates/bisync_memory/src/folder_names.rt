// The name of a folder, in the order of its bytes.
ghost use Rattle.std.specs.Prelude.{◌≡◌, ◌==◌, ◌<◌, length, take, slice_index, IfOk};
ghost use Rattle.std.proofs.Common.{rules};
ghost use Rattle.std.specs.Cmp.{partial_order_from_own_ties, partial_equiv_from_equiv};
ghost use Rattle.std.specs.Cmp.Rules.{comparing};
ghost use Rattle.std.specs.Cmp.Lexicographic.{slice_cmp, nat_list_eq_equiv, nat_list_cmp_total};
ghost use Rattle.std.specs.Ordering.{nat_cmp, as_partial_cmp};
ghost use Rattle.std.specs.Str.{bytes_eq};
ghost use Rattle.bisync_memory.specs.FolderName.{IsFolderName};

use bisync_text::{OutOfMemory, Path, Text};
use std::alloc::Global;
use std::cmp::Ordering;
use std::marker::Model;

/// A path, or `.bisync-partial`, which is no path but may be a folder above one.
#[derive(Drop)]
pub struct FolderName {
    text: Text,
}

impl Model for FolderName {
    ghost use Rattle.std.specs.Prelude.{List, ℕ};
    ghost use Rattle.bisync_memory.specs.FolderName.{IsFolderName};

    ghost Value = { List ℕ };

    ghost view = { λ name. name.text };

    ghost invariant = { λ name. IsFolderName name.text };
}

impl FolderName {
    /// The folder at a path.
    pub fn at(alloc: Global, path: &Path) -> Result<FolderName, OutOfMemory>
        ensures { IfOk result (λ name. name ≡ path.now) }
    {
        let bytes = path.as_bytes();
        Ok(FolderName {
            text: Text::from_bytes(alloc, bytes)?,
        })
    }

    /// The folder above a path that ends before this slash.
    pub fn above(alloc: Global, path: &Path, slash: usize) -> Result<FolderName, OutOfMemory>
        requires within { slash < length path.now }
        requires is_slash { slice_index path.now slash ≡ 47 }
        ensures { IfOk result (λ name. name ≡ take slash path.now) }
    {
        let bytes = path.as_bytes();
        Ok(FolderName {
            text: Text::from_bytes(alloc, &bytes[..slash])?,
        })
    }

    pub fn copy(&self, alloc: Global) -> Result<FolderName, OutOfMemory>
        ensures { IfOk result (λ name. name ≡ self.now) }
    {
        Ok(FolderName {
            text: self.text.copy(alloc)?,
        })
    }

    pub fn as_bytes(&self) -> &[u8]
        ensures bytes { result.now ≡ self.now }
        ensures name { IsFolderName self.now }
    {
        self.text.as_bytes()
    }
}

impl PartialEq for FolderName {
    ghost eq = { bytes_eq };

    ghost laws = { partial_equiv_from_equiv nat_list_eq_equiv };

    fn eq(&self, other: &FolderName) -> bool {
        self.as_bytes() == other.as_bytes()
    }
}

impl Eq for FolderName {
    ghost laws = { nat_list_eq_equiv };
}

impl PartialOrd for FolderName {
    ghost partial_cmp = { as_partial_cmp (slice_cmp nat_cmp) };

    ghost laws = { partial_order_from_own_ties (Prim.search (comparing, rules)) (Prim.search (comparing, rules)) };

    fn partial_cmp(&self, other: &FolderName) -> Option<Ordering> {
        Some(self.cmp(other))
    }
}

impl Ord for FolderName {
    ghost cmp = { slice_cmp nat_cmp };

    ghost total = { nat_list_cmp_total };

    ghost matches_partial_cmp = { Prim.search (comparing, rules) };

    ghost matches_eq = { Prim.search (comparing, rules) };

    fn cmp(&self, other: &FolderName) -> Ordering {
        self.as_bytes().cmp(other.as_bytes())
    }
}
