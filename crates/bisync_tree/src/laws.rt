//! Laws of listings and trees. The functions do nothing: what they ensure is for the crates above.

ghost use Rattle.std.specs.Prelude.{◌≡◌, Bool, Option, None, true, is_some, option_map, if◌then◌else◌};
ghost use Rattle.bisync_tree.specs.Rows.{PathBytes, Rows, keys, look, is_among, AreRising};
ghost use Rattle.bisync_tree.specs.Rows.{listing_of, passing, paths_in};
ghost use Rattle.bisync_tree.specs.Tree.{Tree, file_at, entry};
ghost use Rattle.bisync_tree.specs.Same.{Agree};

use crate::{Compare, Entry};

/// The listing of a tree has each passing path of the tree with the entry of its file, and no
/// other path. Its paths rise.
pub fn listing_of_is_the_listing()
    ensures rising { (c : Compare) (passes : PathBytes → Bool) (tree : Tree)
        → AreRising (keys (listing_of c passes tree)) }
    ensures entries { (c : Compare) (passes : PathBytes → Bool) (tree : Tree) (p : PathBytes)
        → look (listing_of c passes tree) p
        ≡ (if passes p then option_map (entry c) (file_at tree p) else None) }
{}

/// The paths of a tree rise, and a path is among them exactly where the tree has a file there.
pub fn paths_in_are_those_of_the_tree()
    ensures rising { (tree : Tree) → AreRising (paths_in tree) }
    ensures covering { (tree : Tree) (p : PathBytes) → is_among p (paths_in tree) ≡ is_some (file_at tree p) }
{}

/// The passing part of a listing has each passing path with its entry, and no other path. Its
/// paths rise. Of the listing of a whole tree it is the listing of what passes.
pub fn passing_part_is_a_listing()
    ensures rising { (passes : PathBytes → Bool) (rows : Rows)
        → AreRising (keys rows) → AreRising (keys (passing passes rows)) }
    ensures entries { (passes : PathBytes → Bool) (rows : Rows) (p : PathBytes)
        → look (passing passes rows) p ≡ (if passes p then look rows p else None) }
    ensures of_a_tree { (c : Compare) (passes : PathBytes → Bool) (tree : Tree)
        → passing passes (listing_of c (λ p. true) tree) ≡ listing_of c passes tree }
{}

/// Two listings that have the same entry at each path are equal.
pub fn look_ups_decide_a_listing()
    ensures { (one two : Rows) → AreRising (keys one) → AreRising (keys two)
        → ((p : PathBytes) → look one p ≡ look two p) → one ≡ two }
{}

/// To agree is an equivalence of listings, for the fields that are compared.
pub fn agreement_is_an_equivalence()
    ensures reflexive { (c : Compare) (one : PathBytes → Option Entry) → Agree c one one }
    ensures symmetric { (c : Compare) (one two : PathBytes → Option Entry) → Agree c one two → Agree c two one }
    ensures transitive { (c : Compare) (one two three : PathBytes → Option Entry)
        → Agree c one two → Agree c two three → Agree c one three }
{}
