//! What the steps of a run leave, at their end and at every moment before.

ghost use Rattle.std.specs.Prelude.{◌≡◌, ◌++◌, ℕ, List, None, false, sum_by, take};
ghost use Rattle.bisync_tree.specs.Rows.{PathBytes};
ghost use Rattle.bisync_model.specs.Trees.{Trees, SameTrees};
ghost use Rattle.bisync_model.specs.Known.{Known};
ghost use Rattle.bisync_model.specs.Names.{loser_named};
ghost use Rattle.bisync_model.specs.Outcome.{outcome};
ghost use Rattle.bisync_model.specs.Plan.{plan};
ghost use Rattle.bisync_model.specs.Effects.{after};
ghost use Rattle.bisync_model.specs.Finds.{EachFindsFile};
ghost use Rattle.bisync_model.specs.Runs.{ArePaths, EachRun};
ghost use Rattle.bisync_model.specs.Changes.{changes_of, changes_at};
ghost use Rattle.bisync_model.specs.Between.{IsBetween};

use bisync_tree::{Given, Side, Step, Window};

/// All steps of a plan together leave what the case table says, on both sides.
pub fn plan_reaches_outcome()
    ensures { EachRun (λ known start paths names. SameTrees
        (after known.policy.window (plan known names paths) start) (outcome known start names)) }
{}

/// A run that stops after any number of steps leaves trees between the start and the outcome.
pub fn each_prefix_is_between()
    ensures { EachRun (λ known start paths names. (done : ℕ) → IsBetween known start names
        (after known.policy.window (take done (plan known names paths)) start)) }
{}

/// The trees at the start and those of the outcome are between the two, and so are trees that are
/// the same as some between.
pub fn ends_are_between()
    ensures start { EachRun (λ known start paths names. IsBetween known start names start) }
    ensures outcome { EachRun (λ known start paths names.
        IsBetween known start names (outcome known start names)) }
    ensures same { (known : Known) (start : Trees) (names : List Given) (trees others : Trees) →
        SameTrees trees others → IsBetween known start names trees → IsBetween known start names others }
{}

/// A file whose path doesn't pass the filter rules stays as it is, in the outcome and at every
/// moment before, unless its path is a given name.
pub fn filtered_file_stays()
    ensures outcome { (known : Known) (start : Trees) (names : List Given) (p : PathBytes) →
        known.policy.passes p ≡ false → loser_named names p ≡ None →
        (side : Side) → outcome known start names side p ≡ start side p }
    ensures between { (known : Known) (start : Trees) (names : List Given) (trees : Trees) →
        IsBetween known start names trees →
        (p : PathBytes) → known.policy.passes p ≡ false → loser_named names p ≡ None →
        (side : Side) → trees side p ≡ start side p }
{}

/// Later steps begin with the trees that earlier ones left.
pub fn steps_follow_one_another()
    ensures { (window : Side → Window) (earlier later : List Step) (trees : Trees) →
        after window (earlier ++ later) trees ≡ after window later (after window earlier trees) }
{}

/// Each step of a plan finds its file as it was listed, once the steps before it are done.
pub fn each_step_finds_its_file()
    ensures { EachRun (λ known start paths names.
        EachFindsFile known.policy (plan known names paths) start) }
{}

/// The steps make the changes that the case table counts, on each side.
pub fn steps_make_the_changes()
    ensures { EachRun (λ known start paths names. (side : Side) →
        sum_by (changes_of side) (plan known names paths) ≡ sum_by (changes_at known side) paths) }
{}

/// The steps and the changes on each side are determined, whichever paths the run goes through
/// besides those that it has to.
pub fn steps_are_determined()
    ensures steps { (known : Known) (names : List Given) (paths others : List PathBytes) →
        ArePaths known paths → ArePaths known others →
        plan known names paths ≡ plan known names others }
    ensures changes { (known : Known) (side : Side) (paths others : List PathBytes) →
        ArePaths known paths → ArePaths known others →
        sum_by (changes_at known side) paths ≡ sum_by (changes_at known side) others }
{}
