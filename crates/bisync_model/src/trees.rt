//! The two trees of a run as one value.

ghost use Rattle.std.specs.Prelude.{◌≡◌, Some, None};
ghost use Rattle.bisync_tree.specs.Rows.{PathBytes};
ghost use Rattle.bisync_tree.specs.Tree.{Tree, put, without};
ghost use Rattle.bisync_model.specs.Trees.{Trees, trees_of, put_at, SameTrees};

use bisync_tree::{File, Side};

/// Trees that have the same at every path are equal.
pub fn same_trees_are_equal()
    ensures { (trees others : Trees) → SameTrees trees others → trees ≡ others }
{}

/// A change of one side's tree at a path changes the two trees at that place alone.
pub fn a_change_of_a_tree_is_one_of_the_trees()
    ensures put1 { (one two : Tree) (p : PathBytes) (file : File) →
        SameTrees (trees_of (put one p file) two) (put_at (trees_of one two) Side.One p (Some file)) }
    ensures put2 { (one two : Tree) (p : PathBytes) (file : File) →
        SameTrees (trees_of one (put two p file)) (put_at (trees_of one two) Side.Two p (Some file)) }
    ensures taken1 { (one two : Tree) (p : PathBytes) →
        SameTrees (trees_of (without one p) two) (put_at (trees_of one two) Side.One p None) }
    ensures taken2 { (one two : Tree) (p : PathBytes) →
        SameTrees (trees_of one (without two p)) (put_at (trees_of one two) Side.Two p None) }
{}
