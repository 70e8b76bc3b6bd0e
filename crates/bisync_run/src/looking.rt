//! What a run looks at before it changes anything.

ghost use Rattle.std.specs.Prelude.{◌≡◌, ℕ, IsTrue, IfOk, IfErr};
ghost use Rattle.bisync_device.specs.Faults.{HasCause};
ghost use Rattle.bisync_filter.specs.Passing.{rules_pass};
ghost use Rattle.bisync_model.specs.Trees.{by_side};
ghost use Rattle.bisync_observe.specs.Observing.{ArePassingNames, HaveDigestsFor, AreWithin, IsSeenOf};
ghost use Rattle.bisync_run.specs.Counts.{counts, HasCauses};
ghost use Rattle.bisync_run.specs.Looking.{OnlyLooks, IsSeen, IsSeenAs, IsWhyUnseen, IsWhyNotBoth, unseen_end, is_remote_fault};
ghost use Rattle.bisync_run.specs.Sides.{compare_in};

use bisync_device::Remote;
use bisync_filter::Rules;
use bisync_observe::{ObserveFault, Seen, observe};
use bisync_opts::Opts;
use bisync_report::End;
use bisync_text::Text;
use bisync_tree::{Compare, Limits, Side};
use std::alloc::Global;

/// What both sides have.
#[derive(Drop)]
pub struct BothSeen {
    pub one: Seen,
    pub two: Seen,
}

/// The compared fields of a run, with the coarsest of the option's window and those of both remotes.
pub fn run_compare<A: Remote, B: Remote>(compare: &Compare, one: &A, two: &B) -> Compare
    ensures { result ≡ compare_in compare.now (A.state one.now).window (B.state two.now).window }
{
    Compare {
        window: compare.window.coarser(one.window()).coarser(two.window()),
        ..*compare
    }
}

/// The end of a run that didn't see a side.
fn end_of(side: Side, fault: ObserveFault) -> End
    ensures { result ≡ unseen_end side fault }
{
    match fault {
        ObserveFault::RemoteFault => End::RemoteFault(side),
        ObserveFault::BadPath(text) => End::BadPath(side, text),
        ObserveFault::TooMany(files, bytes) => End::TooMany(side, files, bytes),
        ObserveFault::Moved(path, listed, read) => End::Moved(side, path, listed, read),
        ObserveFault::OutOfMemory => End::OutOfMemory,
    }
}

/// Attaches a side and sees what it has.
pub fn look_at<R: Remote>(
    alloc: Global,
    side: Side,
    root: &Text,
    rules: &Rules,
    compare: &Compare,
    limits: &Limits,
    remote: &mut R,
) -> Result<Seen, End>
    ensures looks { OnlyLooks R.tells (R.state remote.old) (R.state remote.new) }
    ensures cause { HasCause (is_remote_fault result) (R.state remote.old).faults (R.state remote.new).faults }
    ensures passing { IfOk result (λ seen. ArePassingNames (rules_pass rules.now) seen.names seen.listing) }
    ensures digests { IfOk result (λ seen. HaveDigestsFor compare.now seen.listing) }
    ensures within { IfOk result (λ seen. AreWithin limits.now seen.names) }
    ensures seen { IsTrue R.tells → IfOk result (λ seen. IsSeenOf compare.now (rules_pass rules.now) (R.state remote.old).tree seen.names seen.listing) }
    ensures some { IfOk result (λ seen. IsSeenAs R.tells compare.now (rules_pass rules.now) (R.state remote.old).tree seen.names seen.listing) }
    ensures refusal { IfErr result (IsWhyUnseen R.tells (R.state remote.old).tree compare.now (rules_pass rules.now) limits.now side) }
{
    if remote.attach(root).is_err() {
        return Err(End::RemoteFault(side));
    }
    match observe(alloc, remote, rules, compare, limits) {
        Ok(seen) => Ok(seen),
        Err(fault) => Err(end_of(side, fault)),
    }
}

/// Sees what both sides have, Path1 first.
pub fn look_at_both<A: Remote, B: Remote>(
    alloc: Global,
    opts: &Opts,
    rules: &Rules,
    compare: &Compare,
    limits: &Limits,
    one: &mut A,
    two: &mut B,
) -> Result<BothSeen, End>
    ensures one { OnlyLooks A.tells (A.state one.old) (A.state one.new) }
    ensures two { OnlyLooks B.tells (B.state two.old) (B.state two.new) }
    ensures causes { (work sink : ℕ) → HasCauses (counts (A.state one.old).faults (B.state two.old).faults work sink) (counts (A.state one.new).faults (B.state two.new).faults work sink) result }
    ensures is_seen1 { IfOk result (λ seen. IsSeen compare.now (rules_pass rules.now) limits.now seen.one) }
    ensures is_seen2 { IfOk result (λ seen. IsSeen compare.now (rules_pass rules.now) limits.now seen.two) }
    ensures seen1 { IsTrue A.tells → IfOk result (λ seen. IsSeenOf compare.now (rules_pass rules.now) (A.state one.old).tree seen.one.names seen.one.listing) }
    ensures seen2 { IsTrue B.tells → IfOk result (λ seen. IsSeenOf compare.now (rules_pass rules.now) (B.state two.old).tree seen.two.names seen.two.listing) }
    ensures some1 { IfOk result (λ seen. IsSeenAs A.tells compare.now (rules_pass rules.now) (A.state one.old).tree seen.one.names seen.one.listing) }
    ensures some2 { IfOk result (λ seen. IsSeenAs B.tells compare.now (rules_pass rules.now) (B.state two.old).tree seen.two.names seen.two.listing) }
    ensures refusal { IfErr result (IsWhyNotBoth (by_side A.tells B.tells) (A.state one.old).tree (B.state two.old).tree compare.now (rules_pass rules.now) limits.now) }
{
    let seen1 = match look_at(alloc, Side::One, &opts.root1, rules, compare, limits, one) {
        Ok(seen) => seen,
        Err(end) => return Err(end),
    };
    let seen2 = match look_at(alloc, Side::Two, &opts.root2, rules, compare, limits, two) {
        Ok(seen) => seen,
        Err(end) => return Err(end),
    };
    Ok(BothSeen {
        one: seen1,
        two: seen2,
    })
}
