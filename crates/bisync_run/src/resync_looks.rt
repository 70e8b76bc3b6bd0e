//! A resync before its first change.

ghost use Rattle.std.specs.Prelude.{◌≡◌, ◌≤◌, ℕ, IsTrue, false, IfOk, IfErr, OnOk, None, length};
ghost use Rattle.bisync_tree.specs.Ranges.{ComparesSome};
ghost use Rattle.bisync_model.specs.Trees.{by_side};
ghost use Rattle.bisync_listing.specs.Spelling.{listing_text};
ghost use Rattle.bisync_device.specs.Work.{KeepsFolder};
ghost use Rattle.bisync_plan.specs.Conditions.{IsStamp};
ghost use Rattle.bisync_plan.specs.Faults.{most};
ghost use Rattle.bisync_plan.specs.Plans.{IsResyncOf, AreWritable, header_of};
ghost use Rattle.bisync_work.specs.Stamps.{IsNewStamp};
ghost use Rattle.bisync_run.specs.Counts.{counts, HasCauses};
ghost use Rattle.bisync_run.specs.EndKinds.{is_unlocked, is_sink_fault};
ghost use Rattle.bisync_run.specs.Grounds.{HasGrounds, IsTold};
ghost use Rattle.bisync_run.specs.Looking.{OnlyLooks, IsWhyNoStamp};
ghost use Rattle.bisync_run.specs.Planned.{IsResyncOver};
ghost use Rattle.bisync_run.specs.ResyncEnds.{IsUnplannedEnd};
ghost use Rattle.bisync_run.specs.ResyncRefusals.{AnswersResync, HasNoResyncRefusal};
ghost use Rattle.bisync_run.specs.Sides.{compare_in, sides_of, resync_known, resync_paths};

use crate::looking::{look_at_both, run_compare};
use crate::prepared::Prepared;
use crate::refusals::unplanned;
use bisync_device::{Remote, Work};
use bisync_filter::Rules;
use bisync_opts::Opts;
use bisync_plan::planning::plan_resync;
use bisync_report::End;
use bisync_tree::{Limits, Prefer};
use bisync_work::{WorkFault, find_base};
use std::alloc::Global;

/// Finds the new stamp, looks at both sides and makes the plan of a resync by this mode.
pub fn look_resync<A: Remote, B: Remote, W: Work>(
    alloc: Global,
    mode: Prefer,
    opts: &Opts,
    limits: &Limits,
    rules: &Rules,
    one: &mut A,
    two: &mut B,
    work: &mut W,
) -> Result<Prepared, End>
    requires compares { ComparesSome opts.now.compare }
    ensures stamp { IfOk result (λ prepared. IsStamp prepared.stamp) }
    ensures compare { IfOk result (λ prepared. prepared.compare ≡ compare_in opts.now.compare (A.state one.old).window (B.state two.old).window) }
    ensures writable { IfOk result (λ prepared. AreWritable (header_of prepared.stamp prepared.compare) prepared.plan) }
    ensures within1 { IfOk result (λ prepared. length (listing_text (header_of prepared.stamp prepared.compare) prepared.plan.final1) ≤ most limits.now.listing) }
    ensures within2 { IfOk result (λ prepared. length (listing_text (header_of prepared.stamp prepared.compare) prepared.plan.final2) ≤ most limits.now.listing) }
    ensures new_stamp { IsTrue W.tells → IfOk result (λ prepared. IsNewStamp limits.now.listing (W.state work.old).folder prepared.stamp) }
    ensures plan { IsTrue A.tells → IsTrue B.tells → IfOk result (λ prepared.
        IsResyncOf (resync_known mode (sides_of opts.now.compare rules.now (A.state one.old) (B.state two.old))) (resync_paths (sides_of opts.now.compare rules.now (A.state one.old) (B.state two.old))) prepared.plan) }
    ensures over { IfOk result (λ prepared. IsResyncOver (by_side A.tells B.tells) mode (sides_of opts.now.compare rules.now (A.state one.old) (B.state two.old)) prepared.plan) }
    ensures accepted { IsTrue A.tells → IsTrue B.tells → IsTrue W.tells → OnOk result (HasNoResyncRefusal mode limits.now (W.state work.old).folder (sides_of opts.now.compare rules.now (A.state one.old) (B.state two.old))) }
    ensures refusal { IsTrue A.tells → IsTrue B.tells → IsTrue W.tells → IfErr result (AnswersResync mode limits.now (W.state work.old).folder (sides_of opts.now.compare rules.now (A.state one.old) (B.state two.old))) }
    ensures only { IfErr result (λ end. (is_unlocked end ≡ false) × (is_sink_fault end ≡ false)) }
    ensures kind { IfErr result IsUnplannedEnd }
    ensures grounds { IfErr result (HasGrounds limits.now (by_side A.tells B.tells)) }
    ensures told { IfErr result (IsTold (by_side A.tells B.tells) (by_side (A.state one.old) (B.state two.old))) }
    ensures one { OnlyLooks A.tells (A.state one.old) (A.state one.new) }
    ensures two { OnlyLooks B.tells (B.state two.old) (B.state two.new) }
    ensures folder { KeepsFolder W.tells (W.state work.old) (W.state work.new) }
    ensures left { (W.state work.old).left ≡ None → (W.state work.new).left ≡ None }
    ensures causes { HasCauses (counts (A.state one.old).faults (B.state two.old).faults (W.state work.old).faults 0) (counts (A.state one.new).faults (B.state two.new).faults (W.state work.new).faults 0) result }
{
    let stamp = match new_stamp(alloc, limits, work) {
        Ok(stamp) => stamp,
        Err(end) => return Err(end),
    };
    let compare = run_compare(&opts.compare, one, two);
    let seen = match look_at_both(alloc, opts, rules, &compare, limits, one, two) {
        Ok(seen) => seen,
        Err(end) => return Err(end),
    };
    let made = plan_resync(
        alloc,
        mode,
        &compare,
        &seen.one.listing,
        &seen.two.listing,
        stamp,
        limits,
        one.window(),
        two.window(),
    );
    match made {
        Ok(plan) => Ok(Prepared {
            stamp,
            compare,
            plan,
        }),
        Err(fault) => Err(unplanned(fault)),
    }
}

/// The stamp of the new listings. A name that is there and no listing has none.
fn new_stamp<W: Work>(alloc: Global, limits: &Limits, work: &mut W) -> Result<u64, End>
    ensures stamp { IfOk result IsStamp }
    ensures new { IsTrue W.tells → IfOk result (IsNewStamp limits.now.listing (W.state work.old).folder) }
    ensures refusal { IfErr result IsWhyNoStamp }
    ensures folder { KeepsFolder W.tells (W.state work.old) (W.state work.new) }
    ensures left { (W.state work.old).left ≡ None → (W.state work.new).left ≡ None }
    ensures causes { (one two sink : ℕ) → HasCauses (counts one two (W.state work.old).faults sink) (counts one two (W.state work.new).faults sink) result }
{
    match find_base(alloc, work, limits) {
        Ok(found) => Ok(found.stamp),
        Err(WorkFault::Failed) => Err(End::WorkFault),
        Err(WorkFault::OutOfMemory) => Err(End::OutOfMemory),
    }
}
