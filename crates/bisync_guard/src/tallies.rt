//! One walk that counts both sides.

ghost use Rattle.std.specs.Prelude.{◌≡◌, Some, option_copied, IfSome};
ghost use Rattle.bisync_guard.specs.Order.{check_access};
ghost use Rattle.bisync_guard.specs.Tally.{AreCounts, guard_of};

use crate::access::Access;
use crate::counts::Counts;
use bisync_text::Text;
use bisync_tree::{Compare, View, Walk};

/// What the guards ask of a view.
#[derive(Clone, Copy)]
pub(crate) struct Tally<'a> {
    /// Path1's counts.
    pub(crate) one: Counts,
    /// Path2's counts.
    pub(crate) two: Counts,
    /// What is seen of check files; nothing where access isn't checked.
    pub(crate) access: Access<'a>,
}

impl<'a> Tally<'a> {
    /// Counts a view, with the name of check files where access is checked.
    pub(crate) fn of(check: Option<&Text>, compare: &Compare, view: &'a View) -> Tally<'a>
        ensures one { AreCounts compare.now view.now.base1 view.now.now1 result.one }
        ensures two { AreCounts compare.now view.now.base2 view.now.now2 result.two }
        ensures access { IfSome (option_copied check.entry) (λ name.
            guard_of result.access ≡ check_access (Some name) view.now.now1 view.now.now2) }
    {
        let mut one = Counts::new(&view.base1);
        let mut two = Counts::new(&view.base2);
        let mut access = Access::Unseen;
        let mut walk = Walk::new(view);
        while let Some(cell) = walk.next() {
            one.add(compare, cell.base1, cell.now1);
            two.add(compare, cell.base2, cell.now2);
            if let Some(name) = check {
                access = access.with(name, &cell);
            }
        }
        Tally { one, two, access }
    }
}
