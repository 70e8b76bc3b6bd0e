//! Laws of the order of guards, for the crates above. The functions do nothing.

ghost use Rattle.std.specs.Prelude.{◌≡◌, ◌≤◌, ◌↔◌, ℕ, List, Some, None, true};
ghost use Rattle.bisync_text.specs.Path.{IsLastPart};
ghost use Rattle.bisync_tree.specs.Rows.{PathBytes};
ghost use Rattle.bisync_guard.specs.CheckFiles.{is_check_file};
ghost use Rattle.bisync_guard.specs.Order.{first_guard};
ghost use Rattle.bisync_guard.specs.Conditions.{IsGuard, place};

use crate::Guard;
use bisync_tree::{Compare, GuardRule, View};

/// A path is a check file exactly where its last name is the check filename.
pub fn check_files_have_the_name()
    ensures { (name : List ℕ) (p : PathBytes) → (is_check_file name p ≡ true) ↔ IsLastPart p name }
{}

/// The condition of the answer holds.
pub fn the_answer_holds()
    ensures { (guards : GuardRule) (c : Compare) (view : View) (guard : Guard) →
        first_guard guards c view ≡ Some guard → IsGuard guards c view guard }
{}

/// No guard that is tested before the answer has a condition that holds.
pub fn nothing_before_the_answer_holds()
    ensures { (guards : GuardRule) (c : Compare) (view : View) (guard other : Guard) →
        first_guard guards c view ≡ Some guard → IsGuard guards c view other → place guard ≤ place other }
{}

/// A guard whose condition holds is the answer, where none before it has a condition that holds.
pub fn the_first_guard_that_holds_is_the_answer()
    ensures { (guards : GuardRule) (c : Compare) (view : View) (guard : Guard) → IsGuard guards c view guard →
        ((other : Guard) → IsGuard guards c view other → place guard ≤ place other) →
        first_guard guards c view ≡ Some guard }
{}

/// There is no answer exactly where no guard's condition holds.
pub fn no_answer_where_no_guard_holds()
    ensures { (guards : GuardRule) (c : Compare) (view : View) →
        (first_guard guards c view ≡ None) ↔ ((guard : Guard) → ¬ IsGuard guards c view guard) }
{}

/// At each place in the order at most one guard holds: its side, path and numbers are determined.
pub fn guards_at_one_place_are_equal()
    ensures { (guards : GuardRule) (c : Compare) (view : View) (guard other : Guard) →
        IsGuard guards c view guard → IsGuard guards c view other → place guard ≡ place other → guard ≡ other }
{}
