//! Laws of conflicts at a cell, for the crates above. The functions do nothing.

ghost use Rattle.std.specs.Prelude.{◌≡◌, Bool, flat_map};
ghost use Rattle.bisync_tree.specs.Rows.{PathBytes};
ghost use Rattle.bisync_tree.specs.Walk.{listings_of, paths_of, cell_at, cells};
ghost use Rattle.bisync_model.specs.Conflict.{winner_at, is_named_loser};
ghost use Rattle.bisync_model.specs.Names.{losers_of};
ghost use Rattle.bisync_model.specs.Views.{known_of, IsNarrowed};
ghost use Rattle.bisync_conflict.specs.Cells.{winner_in, loses_in, losers_in};

use bisync_tree::{Compare, ConflictRule, Side, View, Window};

/// The winner at a cell of the walk over a view is the winner at its path.
pub fn cells_have_the_winners_of_their_paths()
    ensures { (conflict : ConflictRule) (compare : Compare) (passes : PathBytes → Bool)
        (window1 window2 : Window) (view : View) (p : PathBytes) →
        winner_in conflict compare (cell_at (listings_of view) p)
        ≡ winner_at (known_of conflict compare passes window1 window2 view) p }
{}

/// A side's file at a cell of the walk over a view is a loser that gets a name exactly where it is
/// one at its path, which no path is that doesn't pass. So the losers of the walk are those of the
/// run.
pub fn cells_have_the_losers_of_their_paths()
    ensures cell { (conflict : ConflictRule) (compare : Compare) (passes : PathBytes → Bool)
        (window1 window2 : Window) (view : View) → IsNarrowed passes view →
        (p : PathBytes) (side : Side) →
        loses_in conflict compare (cell_at (listings_of view) p) side
        ≡ is_named_loser (known_of conflict compare passes window1 window2 view) p side }
    ensures walk { (conflict : ConflictRule) (compare : Compare) (passes : PathBytes → Bool)
        (window1 window2 : Window) (view : View) → IsNarrowed passes view →
        flat_map (losers_in conflict compare) (cells (listings_of view))
        ≡ losers_of (known_of conflict compare passes window1 window2 view) (paths_of (listings_of view)) }
{}
