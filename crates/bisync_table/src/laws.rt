//! Laws of the table, for the crates above. The functions do nothing.

ghost use Rattle.std.specs.Prelude.{◌≡◌, ◌↔◌, Bool, Option, None};
ghost use Rattle.bisync_tree.specs.Rows.{PathBytes};
ghost use Rattle.bisync_tree.specs.Same.{class as class_of};
ghost use Rattle.bisync_tree.specs.Walk.{listings_of, cell_at};
ghost use Rattle.bisync_model.specs.Table.{rule_at};
ghost use Rattle.bisync_model.specs.Views.{known_of, IsNarrowed};
ghost use Rattle.bisync_table.specs.Cells.{rule_in};
ghost use Rattle.bisync_table.specs.Delta.{delta_of};

use bisync_tree::{Class, Compare, ConflictRule, Entry, View, Window};

/// The rule of a cell of the walk over a view is the rule of its path, which is nothing where the
/// path doesn't pass.
pub fn cells_have_the_rules_of_their_paths()
    ensures { (conflict : ConflictRule) (compare : Compare) (passes : PathBytes → Bool)
        (window1 window2 : Window) (view : View) → IsNarrowed passes view → (p : PathBytes) →
        rule_in compare (cell_at (listings_of view) p)
        ≡ rule_at (known_of conflict compare passes window1 window2 view) p }
{}

/// A path changed exactly where it isn't Quiet.
pub fn quiet_paths_have_no_delta()
    ensures { (c : Compare) (base now : Option Entry) →
        (delta_of c base now ≡ None) ↔ (class_of c base now ≡ Class.Quiet) }
{}
