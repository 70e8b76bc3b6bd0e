//! The names that the losers of conflicts get.

ghost use Rattle.std.specs.Prelude.{◌≡◌, ℕ, List, Some, None, IsSome, true};
ghost use Rattle.bisync_tree.specs.Rows.{PathBytes};
ghost use Rattle.bisync_model.specs.Policy.{Policy};
ghost use Rattle.bisync_model.specs.Known.{Known};
ghost use Rattle.bisync_model.specs.Conflict.{is_named_loser};
ghost use Rattle.bisync_model.specs.Names.{candidate, AreNames, AreNotNames, name_for, loser_named};
ghost use Rattle.bisync_model.specs.Runs.{ArePaths, EachRun};
ghost use Rattle.bisync_model.specs.Safe.{IsNameOf};

use bisync_tree::{Given, Side};

/// A run has at most one list of given names, whichever paths it goes through besides those that
/// it has to.
pub fn names_are_determined()
    ensures { (known : Known) (paths others : List PathBytes) (names more : List Given) →
        ArePaths known paths → ArePaths known others →
        AreNames known paths names → AreNames known others more → names ≡ more }
{}

/// Where the name of some loser would be too long, the run has no list of given names.
pub fn too_long_has_no_names()
    ensures { (known : Known) (paths : List PathBytes) (side : Side) (p : PathBytes) →
        AreNotNames known paths side p → (names : List Given) → AreNames known paths names → ⊥ }
{}

/// Where the name of some loser would be too long, that loser is determined, whichever paths the run
/// goes through besides those that it has to.
pub fn a_refused_loser_is_determined()
    ensures path { (known : Known) (paths others : List PathBytes) (side t : Side) (p q : PathBytes) →
        ArePaths known paths → ArePaths known others →
        AreNotNames known paths side p → AreNotNames known others t q → p ≡ q }
    ensures side { (known : Known) (paths others : List PathBytes) (side t : Side) (p q : PathBytes) →
        ArePaths known paths → ArePaths known others →
        AreNotNames known paths side p → AreNotNames known others t q → side ≡ t }
{}

/// A given name was free: neither side had a file there, and neither base listing knew one.
pub fn given_names_were_free()
    ensures trees { EachRun (λ known start paths names. (n : PathBytes) (g : Given) →
        loser_named names n ≡ Some g → (side : Side) → start side n ≡ None) }
    ensures bases { EachRun (λ known start paths names. (n : PathBytes) (g : Given) →
        loser_named names n ≡ Some g → (side : Side) → known.base side n ≡ None) }
{}

/// Each loser that gets a name has one, and no two have the same.
pub fn each_loser_has_its_own_name()
    ensures some { EachRun (λ known start paths names. (side : Side) (p : PathBytes) →
        is_named_loser known p side ≡ true → IsSome (name_for names p side)) }
    ensures own { EachRun (λ known start paths names. (side : Side) (p n : PathBytes) →
        name_for names p side ≡ Some n →
        loser_named names n ≡ Some (record { path = p; side = side; name = n })) }
{}

/// A path is a name of itself, and a conflict name or a given name of a name of `p` is a name of `p`.
pub fn names_of_names_are_names()
    ensures itself { (policy : Policy) (p : PathBytes) → IsNameOf policy p p }
    ensures candidates { (policy : Policy) (p n : PathBytes) →
        IsNameOf policy p n → (side : Side) (k : ℕ) → IsNameOf policy p (candidate policy side n k) }
    ensures given { EachRun (λ known start paths names. (p n : PathBytes) (g : Given) →
        loser_named names n ≡ Some g →
        IsNameOf known.policy p g.path → IsNameOf known.policy p n) }
{}
