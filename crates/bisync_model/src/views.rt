//! The view of two trees, and the walk over its listings.

ghost use Rattle.std.specs.Prelude.{◌≡◌, [], Bool};
ghost use Rattle.bisync_tree.specs.Rows.{PathBytes, look, listing_of};
ghost use Rattle.bisync_tree.specs.Tree.{Tree};
ghost use Rattle.bisync_tree.specs.Walk.{Listings, listings, listings_of, paths_of};
ghost use Rattle.bisync_model.specs.Trees.{trees_of};
ghost use Rattle.bisync_model.specs.Known.{Known, AreListed};
ghost use Rattle.bisync_model.specs.Runs.{ArePaths, IsResync};
ghost use Rattle.bisync_model.specs.Views.{known_of, resync_known_of, IsViewOf};

use bisync_tree::{Compare, ConflictRule, Prefer, Side, View, Window};

/// A view of two trees tells a run what these trees have.
pub fn a_view_of_trees_lists_them()
    ensures { (conflict : ConflictRule) (compare : Compare) (passes : PathBytes → Bool)
        (window1 window2 : Window) (one two : Tree) (view : View) →
        IsViewOf compare passes one two view →
        AreListed (known_of conflict compare passes window1 window2 view) (trees_of one two) }
{}

/// The listings of two trees tell a resync what these trees have, and it goes through their paths.
pub fn listings_of_trees_list_them_to_a_resync()
    ensures { (mode : Prefer) (compare : Compare) (passes : PathBytes → Bool)
        (window1 window2 : Window) (one two : Tree) →
        IsResync
        (resync_known_of mode compare passes window1 window2
        (listing_of compare passes one) (listing_of compare passes two))
        (trees_of one two)
        (paths_of (listings [] [] (listing_of compare passes one) (listing_of compare passes two))) }
{}

/// A run goes through the paths of four listings, two of which are what is listed now.
pub fn walk_goes_through_the_paths()
    ensures { (known : Known) (l : Listings) →
        ((p : PathBytes) → known.now Side.One p ≡ look l.now1 p) →
        ((p : PathBytes) → known.now Side.Two p ≡ look l.now2 p) →
        ArePaths known (paths_of l) }
{}

/// So a run with a view goes through the paths of its walk.
pub fn walk_goes_through_the_paths_of_a_view()
    ensures { (conflict : ConflictRule) (compare : Compare) (passes : PathBytes → Bool)
        (window1 window2 : Window) (view : View) → ArePaths
        (known_of conflict compare passes window1 window2 view) (paths_of (listings_of view)) }
{}
