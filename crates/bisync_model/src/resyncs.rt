//! What a resync leaves, at its end and at every moment before.

ghost use Rattle.std.specs.Prelude.{◌≡◌, ℕ, List, None, false, sum_by, take};
ghost use Rattle.bisync_tree.specs.Rows.{PathBytes};
ghost use Rattle.bisync_model.specs.Trees.{Trees, SameTrees};
ghost use Rattle.bisync_model.specs.Policy.{ComparesKeptTimes};
ghost use Rattle.bisync_model.specs.Entries.{entries_of, SameWherePassing, AgreeAt, AgreeWherePassing};
ghost use Rattle.bisync_model.specs.Known.{Known};
ghost use Rattle.bisync_model.specs.Effects.{after};
ghost use Rattle.bisync_model.specs.Finds.{EachFindsFile};
ghost use Rattle.bisync_model.specs.Runs.{ArePaths, EachResync};
ghost use Rattle.bisync_model.specs.Between.{IsMixOf};
ghost use Rattle.bisync_model.specs.Changes.{changes_of};
ghost use Rattle.bisync_model.specs.Resync.{resync_outcome, resync_plan, resync_changes_at, resync_entry};

use bisync_tree::Side;

/// All copies of a resync together leave its outcome.
pub fn resync_reaches_its_outcome()
    ensures { EachResync (λ known start paths. SameTrees
        (after known.policy.window (resync_plan known paths) start) (resync_outcome known start)) }
{}

/// After any number of its copies each file is the one at the start or the one of the outcome.
pub fn each_resync_prefix_is_between()
    ensures { EachResync (λ known start paths. (done : ℕ) → IsMixOf start (resync_outcome known start)
        (after known.policy.window (take done (resync_plan known paths)) start)) }
{}

/// Each copy of a resync finds its file as it was listed, once the copies before it are done.
pub fn each_copy_finds_its_file()
    ensures { EachResync (λ known start paths.
        EachFindsFile known.policy (resync_plan known paths) start) }
{}

/// A file whose path doesn't pass the filter rules stays as it is.
pub fn resync_leaves_filtered_files()
    ensures { (known : Known) (start : Trees) (p : PathBytes) →
        known.policy.passes p ≡ false → (side : Side) → resync_outcome known start side p ≡ start side p }
{}

/// The copies make one change each, on the side that gets the file.
pub fn resync_makes_the_changes()
    ensures { EachResync (λ known start paths. (side : Side) →
        sum_by (changes_of side) (resync_plan known paths) ≡ sum_by (resync_changes_at known side) paths) }
{}

/// The copies of a resync and its changes on each side are determined, whichever paths it goes through
/// besides those that it has to.
pub fn resync_copies_are_determined()
    ensures copies { (known : Known) (paths others : List PathBytes) →
        ArePaths known paths → ArePaths known others →
        resync_plan known paths ≡ resync_plan known others }
    ensures changes { (known : Known) (side : Side) (paths others : List PathBytes) →
        ArePaths known paths → ArePaths known others →
        sum_by (resync_changes_at known side) paths ≡ sum_by (resync_changes_at known side) others }
{}

/// The final listings of a resync are those of its outcome: they have of each path that passes the
/// entry of what the outcome has there, and no other path.
pub fn resync_listings_are_those_of_the_outcome()
    ensures entries { EachResync (λ known start paths. SameWherePassing known.policy
        (resync_entry known) (entries_of known.policy.compare (resync_outcome known start))) }
    ensures filtered { (known : Known) (side : Side) (p : PathBytes) →
        known.policy.passes p ≡ false → resync_entry known side p ≡ None }
{}

/// The final listings of a resync agree at every path, and so do the two trees of its outcome.
pub fn resync_listings_agree()
    ensures listings { (known : Known) → ComparesKeptTimes known.policy →
        (p : PathBytes) → AgreeAt known.policy.compare (resync_entry known) p }
    ensures trees { EachResync (λ known start paths. ComparesKeptTimes known.policy →
        AgreeWherePassing known.policy
        (entries_of known.policy.compare (resync_outcome known start))) }
{}
