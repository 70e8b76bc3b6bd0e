//! The new listings, which are made before the first change.

ghost use Rattle.std.specs.Prelude.{◌≡◌, List, None, true, false};
ghost use Rattle.bisync_tree.specs.Rows.{PathBytes};
ghost use Rattle.bisync_model.specs.Policy.{ComparesKeptTimes};
ghost use Rattle.bisync_model.specs.Entries.{entries_of, SameWherePassing, AgreeAt, AgreeWherePassing};
ghost use Rattle.bisync_model.specs.Known.{Known};
ghost use Rattle.bisync_model.specs.Outcome.{outcome};
ghost use Rattle.bisync_model.specs.Runs.{EachRun};
ghost use Rattle.bisync_model.specs.Finals.{final_entry};

use bisync_tree::{Given, Side};

/// The final listings are those of the outcome: they have of each path that passes the entry of
/// what the outcome has there, and no other path.
pub fn final_listings_are_those_of_the_outcome()
    ensures entries { EachRun (λ known start paths names. SameWherePassing known.policy
        (final_entry known names) (entries_of known.policy.compare (outcome known start names))) }
    ensures filtered { (known : Known) (names : List Given) (side : Side) (p : PathBytes) →
        known.policy.passes p ≡ false → final_entry known names side p ≡ None }
{}

/// At a path where the base listings agree, the final listings agree. Where the base listings
/// agree at every path that passes, so do the two trees of the outcome.
pub fn final_listings_agree()
    ensures path { (known : Known) (names : List Given) → ComparesKeptTimes known.policy →
        (p : PathBytes) → (known.policy.passes p ≡ true → AgreeAt known.policy.compare known.base p) →
        AgreeAt known.policy.compare (final_entry known names) p }
    ensures trees { EachRun (λ known start paths names. ComparesKeptTimes known.policy →
        AgreeWherePassing known.policy known.base → AgreeWherePassing known.policy
        (entries_of known.policy.compare (outcome known start names))) }
{}
