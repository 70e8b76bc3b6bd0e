//! An ordinary run before its first change, from its base on.

ghost use Rattle.std.specs.Prelude.{◌≡◌, ◌≤◌, ℕ, List, Option, IsTrue, IfOk, IfErr, OnOk, None, length};
ghost use Rattle.bisync_tree.specs.Ranges.{ComparesSome, HasPercent};
ghost use Rattle.bisync_model.specs.Trees.{by_side};
ghost use Rattle.bisync_filter.specs.Passing.{rules_pass};
ghost use Rattle.bisync_listing.specs.Spelling.{listing_text};
ghost use Rattle.bisync_device.specs.WorkFolder.{WorkFolder};
ghost use Rattle.bisync_guard.specs.Order.{first_guard};
ghost use Rattle.bisync_opts.specs.Ranges.{IsInRange};
ghost use Rattle.bisync_plan.specs.Conditions.{IsStamp};
ghost use Rattle.bisync_plan.specs.Faults.{most};
ghost use Rattle.bisync_plan.specs.Plans.{AreWritable, header_of};
ghost use Rattle.bisync_run.specs.Counts.{counts, HasCauses};
ghost use Rattle.bisync_run.specs.Courses.{IsLook, is_checked as is_checked_of};
ghost use Rattle.bisync_run.specs.Grounds.{HasGrounds, IsTold};
ghost use Rattle.bisync_run.specs.Looking.{OnlyLooks};
ghost use Rattle.bisync_run.specs.LookRuns.{IsPlannedView};
ghost use Rattle.bisync_run.specs.OrdinaryEnds.{IsUnplannedOrdinaryEnd};
ghost use Rattle.bisync_run.specs.OrdinaryLooks.{HasPrior, IsApartAnswer, IsPriorOf, IsPriorAnswer, IsPriorEnd, IsGuardEnd, ForStart, AnswersLook};
ghost use Rattle.bisync_run.specs.Planned.{IsPlannedOver};
ghost use Rattle.bisync_run.specs.Sides.{compare_in, sides_of};

use crate::looking::{BothSeen, look_at_both, run_compare};
use crate::looks::Look;
use crate::refusals::{guarded, unplanned};
use crate::starting::Started;
use bisync_device::Remote;
use bisync_filter::Rules;
use bisync_guard::decide;
use bisync_observe::{Seen, narrow};
use bisync_opts::{CheckSync, Opts};
use bisync_plan::planning::plan;
use bisync_report::End;
use bisync_tree::{Compare, Limits, Listing, Side, View};
use std::alloc::Global;

/// The passing parts of the two listings of a base.
#[derive(Drop)]
struct Prior {
    one: Listing,
    two: Listing,
}

/// Looks at both sides, tests the guards and makes the plan of a run that starts from this base.
pub fn look_ordinary<A: Remote, B: Remote>(
    alloc: Global,
    opts: &Opts,
    limits: &Limits,
    rules: &Rules,
    started: Started,
    one: &mut A,
    two: &mut B,
) -> Result<Look, End>
    requires range { IsInRange opts.now }
    requires stamp { IsStamp started.stamp }
    ensures compare { IfOk result (λ look. look.compare ≡ compare_in opts.now.compare (A.state one.old).window (B.state two.old).window) }
    ensures writable { IfOk result (λ look. AreWritable (header_of started.stamp look.compare) look.plan) }
    ensures within1 { IfOk result (λ look. length (listing_text (header_of started.stamp look.compare) look.plan.final1) ≤ most limits.now.listing) }
    ensures within2 { IfOk result (λ look. length (listing_text (header_of started.stamp look.compare) look.plan.final2) ≤ most limits.now.listing) }
    ensures planned { IfOk result (λ look. IsPlannedOver (by_side A.tells B.tells) opts.now (sides_of opts.now.compare rules.now (A.state one.old) (B.state two.old)) started look.plan) }
    ensures seen { IfOk result (IsPlannedView opts.now rules.now (A.state one.old).window (B.state two.old).window) }
    ensures look { IsTrue A.tells → IsTrue B.tells → (f : WorkFolder) (digest : Option (List ℕ)) → ForStart opts.now limits.now f digest started (IfOk result
        (IsLook opts.now limits.now f (sides_of opts.now.compare rules.now (A.state one.old) (B.state two.old)) digest started.stamp started.pair)) }
    ensures refusal { IsTrue A.tells → IsTrue B.tells → (f : WorkFolder) (digest : Option (List ℕ)) → ForStart opts.now limits.now f digest started (IfErr result
        (AnswersLook opts.now limits.now f (sides_of opts.now.compare rules.now (A.state one.old) (B.state two.old)) digest)) }
    ensures prior { IfErr result (IsPriorAnswer (rules_pass rules.now) started.one started.two) }
    ensures apart { IfErr result (IsApartAnswer (compare_in opts.now.compare (A.state one.old).window (B.state two.old).window) (rules_pass rules.now) started.one started.two) }
    ensures had_prior { OnOk result (HasPrior (rules_pass rules.now) started.one started.two) }
    ensures kind { IfErr result (IsUnplannedOrdinaryEnd opts.now (compare_in opts.now.compare (A.state one.old).window (B.state two.old).window)) }
    ensures grounds { IfErr result (HasGrounds limits.now (by_side A.tells B.tells)) }
    ensures told { IfErr result (IsTold (by_side A.tells B.tells) (by_side (A.state one.old) (B.state two.old))) }
    ensures one { OnlyLooks A.tells (A.state one.old) (A.state one.new) }
    ensures two { OnlyLooks B.tells (B.state two.old) (B.state two.new) }
    ensures causes { (work sink : ℕ) → HasCauses (counts (A.state one.old).faults (B.state two.old).faults work sink) (counts (A.state one.new).faults (B.state two.new).faults work sink) result }
{
    let prior = match narrowed(alloc, rules, &started) {
        Ok(prior) => prior,
        Err(end) => return Err(end),
    };
    let compare = run_compare(&opts.compare, one, two);
    let seen = match look_at_both(alloc, opts, rules, &compare, limits, one, two) {
        Ok(seen) => seen,
        Err(end) => return Err(end),
    };
    let stamp = started.stamp;
    let view = seen_view(started, prior, seen);
    match check_guards(alloc, opts, &compare, &view) {
        Ok(()) => {}
        Err(end) => return Err(end),
    }
    let check = is_checked(opts.check_sync);
    let made = plan(
        alloc,
        &opts.conflict,
        &compare,
        check,
        rules,
        &view,
        stamp,
        limits,
        one.window(),
        two.window(),
    );
    match made {
        Ok(plan) => Ok(Look {
            view,
            compare,
            plan,
        }),
        Err(fault) => Err(unplanned(fault)),
    }
}

/// Whether the new listings are compared.
fn is_checked(check_sync: CheckSync) -> bool
    ensures { result ≡ is_checked_of check_sync }
{
    match check_sync {
        CheckSync::Always => true,
        CheckSync::Never | CheckSync::Only => false,
    }
}

/// The passing parts of a base, which both have some.
fn narrowed(alloc: Global, rules: &Rules, started: &Started) -> Result<Prior, End>
    ensures prior { IfOk result (λ prior. IsPriorOf (rules_pass rules.now) started.now.one started.now.two prior.one prior.two) }
    ensures refusal { IfErr result (IsPriorEnd (rules_pass rules.now) started.now.one started.now.two) }
{
    let Ok(one) = narrow(alloc, &started.one, rules) else {
        return Err(End::OutOfMemory);
    };
    if one.len() == 0 {
        return Err(End::EmptyPrior(Side::One));
    }
    let Ok(two) = narrow(alloc, &started.two, rules) else {
        return Err(End::OutOfMemory);
    };
    if two.len() == 0 {
        return Err(End::EmptyPrior(Side::Two));
    }
    Ok(Prior { one, two })
}

/// What the run sees.
fn seen_view(started: Started, prior: Prior, seen: BothSeen) -> View
    ensures prior { (result.prior1 ≡ started.one) × (result.prior2 ≡ started.two) }
    ensures base { (result.base1 ≡ prior.one) × (result.base2 ≡ prior.two) }
    ensures now { (result.now1 ≡ seen.one.listing) × (result.now2 ≡ seen.two.listing) }
    ensures names { (result.names1 ≡ seen.one.names) × (result.names2 ≡ seen.two.names) }
{
    let Started {
        one: prior1,
        two: prior2,
        ..
    } = started;
    let Prior {
        one: base1,
        two: base2,
    } = prior;
    let BothSeen {
        one: seen1,
        two: seen2,
    } = seen;
    let Seen {
        listing: now1,
        names: names1,
    } = seen1;
    let Seen {
        listing: now2,
        names: names2,
    } = seen2;
    View {
        prior1,
        prior2,
        base1,
        base2,
        now1,
        now2,
        names1,
        names2,
    }
}

/// Ok where no guard stops the run.
fn check_guards(alloc: Global, opts: &Opts, compare: &Compare, view: &View) -> Result<(), End>
    requires percent { HasPercent opts.now.guard }
    requires compares { ComparesSome compare.now }
    ensures unguarded { OnOk result (first_guard opts.now.guard compare.now view.now ≡ None) }
    ensures refusal { IfErr result (IsGuardEnd (first_guard opts.now.guard compare.now view.now)) }
{
    match decide(alloc, &opts.guard, compare, view) {
        Ok(None) => Ok(()),
        Ok(Some(guard)) => Err(guarded(guard)),
        Err(_) => Err(End::OutOfMemory),
    }
}
