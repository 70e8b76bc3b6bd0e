//! Laws of plans, and of why there is none. The functions do nothing.

ghost use Rattle.std.specs.Prelude.{◌≡◌, ◌≢◌, ◌≤◌, ℕ, List, Bool, IsTrue, length};
ghost use Rattle.bisync_tree.specs.Rows.{PathBytes, Rows, look, listing_of};
ghost use Rattle.bisync_tree.specs.Same.{Agree};
ghost use Rattle.bisync_tree.specs.Tree.{Tree, file_at};
ghost use Rattle.bisync_model.specs.Trees.{Trees, SameTrees, trees_of};
ghost use Rattle.bisync_model.specs.Policy.{ComparesKeptTimes};
ghost use Rattle.bisync_model.specs.Known.{Known, AreListed};
ghost use Rattle.bisync_model.specs.Outcome.{outcome};
ghost use Rattle.bisync_model.specs.Finals.{final_entry};
ghost use Rattle.bisync_model.specs.Resync.{resync_outcome, resync_entry};
ghost use Rattle.bisync_model.specs.Effects.{after};
ghost use Rattle.bisync_model.specs.Runs.{ArePaths, EachRun, EachResync};
ghost use Rattle.bisync_model.specs.Views.{known_of, resync_known_of};
ghost use Rattle.bisync_listing.specs.Spelling.{listing_text};
ghost use Rattle.bisync_plan.specs.Conditions.{KeepsTimes};
ghost use Rattle.bisync_plan.specs.Plans.{AreRowsOf, IsPlanOf, IsResyncOf, ListsTrees};
ghost use Rattle.bisync_plan.specs.Faults.{most, IsFaultOf, IsResyncFault};

use crate::{Plan, PlanFault};
use bisync_listing::Header;
use bisync_tree::{Compare, ConflictRule, Prefer, Side, View, Window};

/// A run has one plan: its steps and both final listings are determined.
pub fn plans_are_determined()
    ensures steps { (known : Known) (paths : List PathBytes) (made other : Plan) →
        IsPlanOf known paths made → IsPlanOf known paths other → made.steps.items ≡ other.steps.items }
    ensures final1 { (known : Known) (paths : List PathBytes) (made other : Plan) →
        IsPlanOf known paths made → IsPlanOf known paths other → made.final1 ≡ other.final1 }
    ensures final2 { (known : Known) (paths : List PathBytes) (made other : Plan) →
        IsPlanOf known paths made → IsPlanOf known paths other → made.final2 ≡ other.final2 }
{}

/// Besides want of memory a run has at most one fault: which one comes is determined.
pub fn faults_are_determined()
    ensures { (known : Known) (paths : List PathBytes) (header : Header) (limit : ℕ) (check : Bool)
        (fault other : PlanFault) →
        IsFaultOf known paths header limit check fault → IsFaultOf known paths header limit check other →
        fault ≢ PlanFault.OutOfMemory → other ≢ PlanFault.OutOfMemory → fault ≡ other }
{}

/// Where a plan is given, its run has no fault besides want of memory.
pub fn a_plan_has_no_fault()
    ensures { (known : Known) (paths : List PathBytes) (header : Header) (limit : ℕ) (check : Bool) (made : Plan) →
        IsPlanOf known paths made →
        length (listing_text header made.final1) ≤ most limit →
        length (listing_text header made.final2) ≤ most limit →
        (IsTrue check → Agree known.policy.compare (look made.final1) (look made.final2)) →
        (fault : PlanFault) → IsFaultOf known paths header limit check fault → fault ≡ PlanFault.OutOfMemory }
{}

/// The same of a resync.
pub fn resync_faults_are_determined()
    ensures plans { (known : Known) (paths : List PathBytes) (header : Header) (limit : ℕ) (made : Plan) →
        IsResyncOf known paths made →
        length (listing_text header made.final1) ≤ most limit →
        length (listing_text header made.final2) ≤ most limit →
        (fault : PlanFault) → IsResyncFault known header limit fault → fault ≡ PlanFault.OutOfMemory }
    ensures faults { (known : Known) (header : Header) (limit : ℕ) (fault other : PlanFault) →
        IsResyncFault known header limit fault → IsResyncFault known header limit other →
        fault ≢ PlanFault.OutOfMemory → other ≢ PlanFault.OutOfMemory → fault ≡ other }
{}

/// The rows of a final listing are the listing of each tree that has what the outcome has on that
/// side.
pub fn final_rows_are_the_listing_of_the_outcome()
    ensures { EachRun (λ known start paths names. (side : Side) (rows : Rows) (tree : Tree) →
        AreRowsOf (final_entry known names) side rows →
        ((p : PathBytes) → file_at tree p ≡ outcome known start names side p) →
        rows ≡ listing_of known.policy.compare known.policy.passes tree) }
{}

/// The same of a resync.
pub fn resync_rows_are_the_listing_of_the_outcome()
    ensures { EachResync (λ known start paths. (side : Side) (rows : Rows) (tree : Tree) →
        AreRowsOf (resync_entry known) side rows →
        ((p : PathBytes) → file_at tree p ≡ resync_outcome known start side p) →
        rows ≡ listing_of known.policy.compare known.policy.passes tree) }
{}

/// The new listings of a plan, which are made before the first change, are the listings of the
/// trees that its steps leave.
pub fn new_listings_are_of_the_trees_that_the_steps_leave()
    ensures run { (known : Known) (start : Trees) (paths : List PathBytes) (made : Plan) (one two : Tree) →
        AreListed known start → ArePaths known paths → IsPlanOf known paths made →
        SameTrees (trees_of one two) (after known.policy.window made.steps.items start) →
        ListsTrees known.policy one two made }
    ensures resync { EachResync (λ known start paths. (made : Plan) (one two : Tree) →
        IsResyncOf known paths made →
        SameTrees (trees_of one two) (after known.policy.window made.steps.items start) →
        ListsTrees known.policy one two made) }
{}

/// A run, and a resync, with a window as coarse as both sides' compares times that both keep.
pub fn coarse_windows_compare_kept_times()
    ensures run { (conflict : ConflictRule) (compare : Compare) (passes : PathBytes → Bool)
        (window1 window2 : Window) (view : View) → KeepsTimes compare window1 window2 →
        ComparesKeptTimes (known_of conflict compare passes window1 window2 view).policy }
    ensures resync { (mode : Prefer) (compare : Compare) (passes : PathBytes → Bool)
        (window1 window2 : Window) (now1 now2 : Rows) → KeepsTimes compare window1 window2 →
        ComparesKeptTimes (resync_known_of mode compare passes window1 window2 now1 now2).policy }
{}
