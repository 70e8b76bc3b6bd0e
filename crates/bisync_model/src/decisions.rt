//! When the case table copies, deletes or sees a conflict.

ghost use Rattle.std.specs.Prelude.{◌≡◌, ◌≢◌, None, Some, false};
ghost use Rattle.bisync_tree.specs.Side.{other};
ghost use Rattle.bisync_tree.specs.Same.{same};
ghost use Rattle.bisync_tree.specs.Rows.{PathBytes};
ghost use Rattle.bisync_model.specs.Known.{Known};
ghost use Rattle.bisync_model.specs.Table.{rule_at, class_now};
ghost use Rattle.bisync_model.specs.Conflict.{winner, listed_at};

use bisync_tree::{Class, Prefer, Rule, Side, Window};

/// The table copies a file only where it changed on its side and the other side's didn't; in a
/// conflict the winner is copied, too.
pub fn a_copied_file_changed()
    ensures changed { (known : Known) (p : PathBytes) (from : Side) →
        rule_at known p ≡ Rule.Copy from → class_now known from p ≡ Class.Fresh }
    ensures other { (known : Known) (p : PathBytes) (from : Side) →
        rule_at known p ≡ Rule.Copy from → class_now known (other from) p ≢ Class.Fresh }
{}

/// The table deletes a file only where it is listed and unchanged, and the other side's is gone.
pub fn a_deleted_file_is_unchanged()
    ensures listed { (known : Known) (p : PathBytes) (side : Side) →
        rule_at known p ≡ Rule.Delete side → known.now side p ≢ None }
    ensures unchanged { (known : Known) (p : PathBytes) (side : Side) →
        rule_at known p ≡ Rule.Delete side → class_now known side p ≡ Class.Quiet }
    ensures other { (known : Known) (p : PathBytes) (side : Side) →
        rule_at known p ≡ Rule.Delete side → class_now known (other side) p ≡ Class.Gone }
{}

/// Files are in conflict only where both changed and they aren't the same.
pub fn files_in_conflict_changed()
    ensures changed { (known : Known) (p : PathBytes) →
        rule_at known p ≡ Rule.Conflict → (side : Side) → class_now known side p ≡ Class.Fresh }
    ensures differ { (known : Known) (p : PathBytes) →
        rule_at known p ≡ Rule.Conflict →
        same known.policy.compare (known.now Side.One p) (known.now Side.Two p) ≡ false }
{}

/// Of two times in one window neither is newer, though one is later: 10.2 s and 10.9 s tie in
/// windows of a second, and differ in windows of a nanosecond; 11.1 s is in a later second.
pub fn a_later_time_in_one_window_ties()
    ensures tie { winner Prefer.Newer Window.S1 (listed_at 10_200_000_000) (listed_at 10_900_000_000) ≡ None }
    ensures later { winner Prefer.Newer Window.S1 (listed_at 10_200_000_000) (listed_at 11_100_000_000) ≡ Some Side.Two }
    ensures finer { winner Prefer.Newer Window.Ns1 (listed_at 10_200_000_000) (listed_at 10_900_000_000) ≡ Some Side.Two }
{}
