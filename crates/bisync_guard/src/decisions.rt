//! Which guard stops a run.

ghost use Rattle.std.specs.Prelude.{◌≡◌, IfOk, OnErr, IsTrue};
ghost use Rattle.bisync_tree.specs.Ranges.{HasPercent, ComparesSome};
ghost use Rattle.bisync_guard.specs.Order.{empty_current as empty_guard, first_guard, tells_path};

use crate::Guard;
use crate::tallies::Tally;
use bisync_text::OutOfMemory;
use bisync_tree::{Compare, GuardRule, Listing, Side, View};
use std::alloc::Global;

/// The first guard whose condition holds, over the paths that pass; None exactly where none holds.
/// Memory is taken for the path that `CheckAccess` carries, and for nothing else: want of it is
/// answered only where that guard is the first.
pub fn decide(
    alloc: Global,
    guards: &GuardRule,
    compare: &Compare,
    view: &View,
) -> Result<Option<Guard>, OutOfMemory>
    requires percent { HasPercent guards.now }
    requires compares { ComparesSome compare.now }
    ensures found { IfOk result (λ found. found ≡ first_guard guards.now compare.now view.now) }
    ensures memory { OnErr result (IsTrue (tells_path (first_guard guards.now compare.now view.now))) }
{
    let tally = Tally::of(guards.check.as_ref(), compare, view);
    let access = match guards.check {
        Some(_) => tally.access.guard(alloc)?,
        None => None,
    };
    Ok(
        access
            .or(empty_current(Side::One, &view.now1))
            .or(empty_current(Side::Two, &view.now2))
            .or(tally.one.too_many_deletes(guards, Side::One))
            .or(tally.two.too_many_deletes(guards, Side::Two))
            .or(tally.one.all_changed(guards, Side::One))
            .or(tally.two.all_changed(guards, Side::Two)),
    )
}

/// That nothing is on a side now.
fn empty_current(side: Side, now: &Listing) -> Option<Guard>
    ensures { result ≡ empty_guard side now.now }
{
    if now.len() == 0 {
        Some(Guard::EmptyCurrent(side))
    } else {
        None
    }
}
