//! Nothing that changed since the last good run is lost.

ghost use Rattle.std.specs.Prelude.{◌≡◌, ◌≢◌, ℕ, List, Option, Some, None};
ghost use Rattle.bisync_tree.specs.Rows.{PathBytes};
ghost use Rattle.bisync_model.specs.Trees.{Trees, SameTrees};
ghost use Rattle.bisync_model.specs.Policy.{Policy};
ghost use Rattle.bisync_model.specs.Entries.{Entries};
ghost use Rattle.bisync_model.specs.Runs.{EachRun};
ghost use Rattle.bisync_model.specs.Between.{IsBetween};
ghost use Rattle.bisync_model.specs.Safe.{class_in, IsNameOf, IsBaseLeft, IsSafe};

use bisync_tree::{Class, File, Loser, Side};

/// A version that is safe when a run starts is safe whenever the run stops, whether it leaves the
/// base as it was, lost or made anew, unless losers are deleted.
pub fn safe_stays_safe()
    ensures { EachRun (λ known start paths names. known.policy.loser ≢ Loser.Delete →
        (trees : Trees) → IsBetween known start names trees →
        (base : Option Entries) → IsBaseLeft known.policy trees (Some known.base) base →
        (p : PathBytes) (bytes : List ℕ) →
        IsSafe known.policy (Some known.base) start p bytes → IsSafe known.policy base trees p bytes) }
{}

/// Each file that changed since the base is a safe version.
pub fn fresh_is_safe()
    ensures { (policy : Policy) (base : Entries) (trees : Trees) (side : Side) (p : PathBytes)
        (file : File) → trees side p ≡ Some file →
        class_in policy base trees side p ≡ Class.Fresh → IsSafe policy (Some base) trees p file.bytes }
{}

/// Where there is no base, each file is a safe version of each path of which its path is a name.
pub fn all_is_safe_without_base()
    ensures itself { (policy : Policy) (trees : Trees) (side : Side) (p : PathBytes) (file : File) →
        trees side p ≡ Some file → IsSafe policy None trees p file.bytes }
    ensures names { (policy : Policy) (trees : Trees) (side : Side) (p n : PathBytes) (file : File) →
        IsNameOf policy p n → trees side n ≡ Some file → IsSafe policy None trees p file.bytes }
{}

/// A version stays safe in the same trees, also where the base is lost or made anew of them.
pub fn safe_in_the_same_trees()
    ensures trees { (policy : Policy) (base : Option Entries) (trees others : Trees) →
        SameTrees trees others → (p : PathBytes) (bytes : List ℕ) →
        IsSafe policy base trees p bytes → IsSafe policy base others p bytes }
    ensures base { (policy : Policy) (before base : Option Entries) (trees : Trees) →
        IsBaseLeft policy trees before base → (p : PathBytes) (bytes : List ℕ) →
        IsSafe policy before trees p bytes → IsSafe policy base trees p bytes }
{}
