//! Tests of the final listings, before a plan is given.

ghost use Rattle.std.specs.Prelude.{◌≡◌, ◌≤◌, ◌<◌, ◌-◌, ◌^◌, [], IfOk, IfErr, OnOk, IfNone, IfSome, IsTrue, length, min, option_map};
ghost use Rattle.bisync_tree.specs.Rows.{look};
ghost use Rattle.bisync_tree.specs.Walk.{seen};
ghost use Rattle.bisync_tree.specs.Same.{Agree};
ghost use Rattle.bisync_model.specs.Trees.{by_side};
ghost use Rattle.bisync_listing.specs.Spelling.{listing_text};
ghost use Rattle.bisync_listing.specs.Writing.{MayBeWritten};
ghost use Rattle.bisync_plan.specs.CellRows.{first_apart as first_apart_of};
ghost use Rattle.bisync_plan.specs.Plans.{HasFinals, AreWritable, finals_of};
ghost use Rattle.bisync_plan.specs.Faults.{most, IsFaultIn, IsApart};

use crate::{Plan, PlanFault};
use bisync_listing::{Header, text_len};
use bisync_tree::{Cell, Compare, Limits, Listing, Side, Walk, same};
use std::alloc::Global;

/// The length of a text that is too long, or the greatest `u64` where it is above that.
fn excess(header: &Header, listing: &Listing, limits: &Limits) -> Option<u64>
    requires { MayBeWritten header.now listing.now }
    ensures within { IfNone result (length (listing_text header.now listing.now) ≤ most limits.now.listing) }
    ensures over { IfSome result (λ size. most limits.now.listing < length (listing_text header.now listing.now)) }
    ensures number { IfSome result (λ size. size ≡ min (length (listing_text header.now listing.now)) (2 ^ 64 - 1)) }
{
    let size = text_len(header, listing);
    if limits.listing < size || size == u64::MAX {
        Some(size)
    } else {
        None
    }
}

/// The first cell of a walk over two listings whose entries aren't the same.
fn first_apart<'a>(mut walk: Walk<'a>, compare: &Compare) -> Option<Cell<'a>>
    ensures { option_map seen result ≡ first_apart_of compare.now walk.entry }
{
    while let Some(cell) = walk.next() {
        if !same(compare, cell.base1, cell.base2) {
            return Some(cell);
        }
    }
    None
}

/// Whether two listings are the same at every path. Ok where they are.
///
/// # Errors
///
/// `OutOfSync` with the first path in byte order at which they aren't, and their entries there.
/// `OutOfMemory` where memory was refused. Never `TooLong` or `ListingTooLong`.
pub fn compared(
    alloc: Global,
    compare: &Compare,
    one: &Listing,
    two: &Listing,
) -> Result<(), PlanFault>
    ensures agree { OnOk result (Agree compare.now (look one.now) (look two.now)) }
    ensures fault { IfErr result (λ fault. IsApart compare.now (by_side (look one.now) (look two.now)) fault) }
{
    let none = Listing::new(alloc);
    let walk = Walk::over(one, two, &none, &none);
    match first_apart(walk, compare) {
        None => Ok(()),
        Some(cell) => {
            let path = cell.path.copy(alloc)?;
            Err(PlanFault::OutOfSync(path, cell.base1.copied(), cell.base2.copied()))
        }
    }
}

/// The plan, if both final listings may be written within the limit, and agree where that is checked.
pub(crate) fn tested(
    alloc: Global,
    made: Plan,
    compare: &Compare,
    check: bool,
    header: &Header,
    limits: &Limits,
) -> Result<Plan, PlanFault>
    requires writable { AreWritable header.now made }
    requires finals { HasFinals (finals_of made) made }
    ensures same { IfOk result (λ plan. plan ≡ made) }
    ensures within1 { IfOk result (λ plan. length (listing_text header.now plan.final1) ≤ most limits.now.listing) }
    ensures within2 { IfOk result (λ plan. length (listing_text header.now plan.final2) ≤ most limits.now.listing) }
    ensures agree { IsTrue check → IfOk result (λ plan. Agree compare.now (look plan.final1) (look plan.final2)) }
    ensures fault { IfErr result (λ fault. IsFaultIn compare.now (finals_of made) header.now limits.now.listing check fault) }
{
    if let Some(size) = excess(header, &made.final1, limits) {
        return Err(PlanFault::ListingTooLong(Side::One, size));
    }
    if let Some(size) = excess(header, &made.final2, limits) {
        return Err(PlanFault::ListingTooLong(Side::Two, size));
    }
    if !check {
        return Ok(made);
    }
    match compared(alloc, compare, &made.final1, &made.final2) {
        Ok(()) => Ok(made),
        Err(fault) => Err(fault),
    }
}
