//! The plan of a run, made before its first change.

ghost use Rattle.std.specs.Prelude.{◌≡◌, ◌≤◌, [], Bool, IfOk, IfErr, IsTrue, length};
ghost use Rattle.bisync_tree.specs.Ranges.{ComparesSome, HasSuffixes};
ghost use Rattle.bisync_tree.specs.Rows.{PathBytes, look};
ghost use Rattle.bisync_tree.specs.Same.{Agree};
ghost use Rattle.bisync_tree.specs.Walk.{listings, listings_of, paths_of};
ghost use Rattle.bisync_model.specs.Names.{AreNames};
ghost use Rattle.bisync_model.specs.Views.{known_of, resync_known_of, IsNarrowed, IsComplete};
ghost use Rattle.bisync_filter.specs.Passing.{rules_pass};
ghost use Rattle.bisync_listing.specs.Spelling.{listing_text};
ghost use Rattle.bisync_plan.specs.Conditions.{IsStamp, HasDigests, KeepsTimes, HasPassing};
ghost use Rattle.bisync_plan.specs.Plans.{IsPlanOf, IsResyncOf, AreWritable, header_of};
ghost use Rattle.bisync_plan.specs.Faults.{most, IsFaultOf, IsResyncFault, of_names as fault_of_names};

use crate::finals::final_listing;
use crate::resyncs::resync_listing;
use crate::steps::{resync_steps, steps};
use crate::tested::tested;
use crate::{Plan, PlanFault};
use bisync_conflict::{NameFault, give_names};
use bisync_filter::Rules;
use bisync_listing::Header;
use bisync_text::OutOfMemory;
use bisync_tree::{Compare, ConflictRule, Given, Limits, Listing, Prefer, Side, View, Window};
use std::alloc::Global;

/// The header of the new listings: the stamp, and the compared fields with times to the nanosecond.
pub fn header(stamp: u64, compare: &Compare) -> Header
    ensures { result ≡ header_of stamp compare.now }
{
    Header {
        stamp,
        fields: Some(Compare {
            window: Window::Ns1,
            ..*compare
        }),
    }
}

/// Why there is no plan where there are no names.
fn of_names(fault: NameFault) -> PlanFault
    ensures { result ≡ fault_of_names fault }
{
    match fault {
        NameFault::TooLong(side, path) => PlanFault::TooLong(side, path),
        NameFault::OutOfMemory => PlanFault::OutOfMemory,
    }
}

/// The plan of a run with these names.
fn planned(
    alloc: Global,
    conflict: &ConflictRule,
    compare: &Compare,
    rules: &Rules,
    view: &View,
    given: &[Given],
    window1: Window,
    window2: Window,
) -> Result<Plan, OutOfMemory>
    requires narrowed { IsNarrowed (rules_pass rules.now) view.now }
    requires complete { IsComplete view.now }
    requires names { AreNames (known_of conflict.now compare.now (rules_pass rules.now) window1 window2 view.now) (paths_of (listings_of view.now)) given.now }
    ensures { IfOk result (λ plan. IsPlanOf (known_of conflict.now compare.now (rules_pass rules.now) window1 window2 view.now) (paths_of (listings_of view.now)) plan) }
{
    let steps = steps(alloc, conflict, compare, view, given)?;
    let final1 = final_listing(
        alloc,
        conflict,
        compare,
        rules,
        view,
        given,
        Side::One,
        window1,
        window2,
    )?;
    let final2 = final_listing(
        alloc,
        conflict,
        compare,
        rules,
        view,
        given,
        Side::Two,
        window1,
        window2,
    )?;
    Ok(Plan {
        steps,
        final1,
        final2,
    })
}

/// The plan of a run that knows this view, on sides that keep times in these windows.
///
/// It has the steps in their order, and what each side's listing is after them: a file that is
/// brought to a side has the time that this side keeps. The header of the new listings has the stamp
/// and the compared fields. With `check` both final listings have to agree.
///
/// # Errors
///
/// The first of these that holds. `TooLong` with the first loser whose name would have more than
/// 4,096 bytes. `ListingTooLong` with the first side whose final listing's text has more bytes than
/// the limit, or 2^64 - 1 or more. `OutOfSync`, where `check` is set, with the first path in byte
/// order at which the final listings aren't the same, and their entries there. `OutOfMemory` where
/// memory was refused, at any moment.
pub fn plan(
    alloc: Global,
    conflict: &ConflictRule,
    compare: &Compare,
    check: bool,
    rules: &Rules,
    view: &View,
    stamp: u64,
    limits: &Limits,
    window1: Window,
    window2: Window,
) -> Result<Plan, PlanFault>
    requires narrowed { IsNarrowed (rules_pass rules.now) view.now }
    requires complete { IsComplete view.now }
    requires stamp { IsStamp stamp }
    requires compares { ComparesSome compare.now }
    requires digests1 { HasDigests compare.now view.now.now1 }
    requires digests2 { HasDigests compare.now view.now.now2 }
    requires windows { KeepsTimes compare.now window1 window2 }
    requires suffixes { HasSuffixes conflict.now }
    ensures plan { IfOk result (λ plan. IsPlanOf (known_of conflict.now compare.now (rules_pass rules.now) window1 window2 view.now) (paths_of (listings_of view.now)) plan) }
    ensures writable { IfOk result (λ plan. AreWritable (header_of stamp compare.now) plan) }
    ensures within1 { IfOk result (λ plan. length (listing_text (header_of stamp compare.now) plan.final1) ≤ most limits.now.listing) }
    ensures within2 { IfOk result (λ plan. length (listing_text (header_of stamp compare.now) plan.final2) ≤ most limits.now.listing) }
    ensures agree { IsTrue check → IfOk result (λ plan. Agree compare.now (look plan.final1) (look plan.final2)) }
    ensures fault { IfErr result (λ fault. IsFaultOf (known_of conflict.now compare.now (rules_pass rules.now) window1 window2 view.now) (paths_of (listings_of view.now)) (header_of stamp compare.now) limits.now.listing check fault) }
{
    let given = match give_names(alloc, conflict, compare, view) {
        Ok(given) => given,
        Err(fault) => return Err(of_names(fault)),
    };
    let made = planned(
        alloc,
        conflict,
        compare,
        rules,
        view,
        given.as_slice(),
        window1,
        window2,
    )?;
    let header = header(stamp, compare);
    tested(alloc, made, compare, check, &header, limits)
}

/// The plan of a resync with these two listings.
fn resync_planned(
    alloc: Global,
    mode: Prefer,
    compare: &Compare,
    now1: &Listing,
    now2: &Listing,
    window1: Window,
    window2: Window,
) -> Result<Plan, OutOfMemory>
    ensures { IfOk result (λ plan. (passes : PathBytes → Bool) → HasPassing passes now1.now → HasPassing passes now2.now
        → IsResyncOf (resync_known_of mode compare.now passes window1 window2 now1.now now2.now) (paths_of (listings [] [] now1.now now2.now)) plan) }
{
    let steps = resync_steps(alloc, mode, compare, now1, now2)?;
    let final1 = resync_listing(alloc, mode, compare, now1, now2, Side::One, window1)?;
    let final2 = resync_listing(alloc, mode, compare, now1, now2, Side::Two, window2)?;
    Ok(Plan {
        steps,
        final1,
        final2,
    })
}

/// The plan of a resync of two sides with these listings, by any filter rules that they pass, on
/// sides that keep times in these windows. The winner of the mode goes to the other side where both
/// have a file and the two differ, and Path1's where the mode finds no winner.
///
/// # Errors
///
/// `ListingTooLong` with the first side whose final listing's text has more bytes than the limit, or
/// 2^64 - 1 or more. `OutOfMemory` where memory was refused. Never `TooLong` or `OutOfSync`.
pub fn plan_resync(
    alloc: Global,
    mode: Prefer,
    compare: &Compare,
    now1: &Listing,
    now2: &Listing,
    stamp: u64,
    limits: &Limits,
    window1: Window,
    window2: Window,
) -> Result<Plan, PlanFault>
    requires stamp { IsStamp stamp }
    requires compares { ComparesSome compare.now }
    requires digests1 { HasDigests compare.now now1.now }
    requires digests2 { HasDigests compare.now now2.now }
    requires windows { KeepsTimes compare.now window1 window2 }
    ensures plan { IfOk result (λ plan. (passes : PathBytes → Bool) → HasPassing passes now1.now → HasPassing passes now2.now
        → IsResyncOf (resync_known_of mode compare.now passes window1 window2 now1.now now2.now) (paths_of (listings [] [] now1.now now2.now)) plan) }
    ensures writable { IfOk result (λ plan. AreWritable (header_of stamp compare.now) plan) }
    ensures within1 { IfOk result (λ plan. length (listing_text (header_of stamp compare.now) plan.final1) ≤ most limits.now.listing) }
    ensures within2 { IfOk result (λ plan. length (listing_text (header_of stamp compare.now) plan.final2) ≤ most limits.now.listing) }
    ensures fault { IfErr result (λ fault. (passes : PathBytes → Bool) → HasPassing passes now1.now → HasPassing passes now2.now
        → IsResyncFault (resync_known_of mode compare.now passes window1 window2 now1.now now2.now) (header_of stamp compare.now) limits.now.listing fault) }
{
    let made = resync_planned(alloc, mode, compare, now1, now2, window1, window2)?;
    let header = header(stamp, compare);
    tested(alloc, made, compare, false, &header, limits)
}
