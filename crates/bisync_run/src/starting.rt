//! From what base an ordinary run starts.

ghost use Rattle.std.specs.Prelude.{◌≡◌, ◌≢◌, ℕ, List, Option, IsTrue, IfOk, IfErr, IfNone, IfSome, OnOk, None, Some, true, false};
ghost use Rattle.bisync_filter.specs.Digests.{IsDigest};
ghost use Rattle.bisync_device.specs.Work.{KeepsFolder};
ghost use Rattle.bisync_device.specs.WorkFolder.{WorkFolder};
ghost use Rattle.bisync_plan.specs.Conditions.{IsStamp};
ghost use Rattle.bisync_work.specs.Found.{IsFound, AreFoundFields};
ghost use Rattle.bisync_run.specs.Counts.{Counts, counts, HasCauses};
ghost use Rattle.bisync_run.specs.OrdinaryEnds.{IsStartEnd};
ghost use Rattle.bisync_run.specs.Sides.{compare_in};
ghost use Rattle.bisync_run.specs.Starts.{IsStartOf, IsStored, MayStart, HasFields, fields_of};
ghost use Rattle.bisync_run.specs.Starting.{IsStartAnswer, ComparesBase};

use crate::looking::run_compare;
use bisync_device::{Remote, Work};
use bisync_opts::Opts;
use bisync_plan::{PlanFault, compared};
use bisync_report::{End, Need};
use bisync_tree::{Compare, Limits, Listing, Window};
use bisync_work::{Found, Pair, WorkFault, find_base, stored_digest};
use std::alloc::Global;

/// The base of the last good run, from which a run starts.
#[derive(Drop)]
pub struct Started {
    /// The names of its listings.
    pub pair: Pair,
    /// The stamp of the new listings, 1 to 5.
    pub stamp: u64,
    /// Path1's listing.
    pub one: Listing,
    /// Path2's.
    pub two: Listing,
}

/// Compares the digest of the filters file with the stored one, and finds the base.
pub fn start<W: Work>(
    alloc: Global,
    opts: &Opts,
    limits: &Limits,
    digest: &Option<[u8; 16]>,
    work: &mut W,
) -> Result<Started, End>
    ensures stamp { IfOk result (λ started. IsStamp started.stamp) }
    ensures starts { IsTrue W.tells → IfOk result (IsStartOf opts.now limits.now (W.state work.old).folder digest.now) }
    ensures refusal { IsTrue W.tells → IfErr result (IsStartAnswer opts.now limits.now (W.state work.old).folder digest.now) }
    ensures kind { IfErr result (IsStartEnd opts.now digest.now) }
    ensures folder { KeepsFolder W.tells (W.state work.old) (W.state work.new) }
    ensures left { (W.state work.old).left ≡ None → (W.state work.new).left ≡ None }
    ensures causes { (one two sink : ℕ) → HasCauses (counts one two (W.state work.old).faults sink) (counts one two (W.state work.new).faults sink) result }
{
    match check_digest(digest, work) {
        Ok(()) => {}
        Err(end) => return Err(end),
    }
    match find_base(alloc, work, limits) {
        Ok(found) => start_from(opts, found),
        Err(WorkFault::Failed) => Err(End::WorkFault),
        Err(WorkFault::OutOfMemory) => Err(End::OutOfMemory),
    }
}

/// Whether the digest of the filters file, where one is used, is the stored one.
fn check_digest<W: Work>(digest: &Option<[u8; 16]>, work: &mut W) -> Result<(), End>
    ensures stored { IsTrue W.tells → OnOk result (IsStored digest.now (W.state work.old).folder.filters_md5) }
    ensures refusal { IsTrue W.tells → IfErr result (λ end. (opts : Opts) (limits : Limits) → IsStartAnswer opts limits (W.state work.old).folder digest.now end) }
    ensures kind { IfErr result (λ end. (opts : Opts) → IsStartEnd opts digest.now end) }
    ensures folder { KeepsFolder W.tells (W.state work.old) (W.state work.new) }
    ensures left { (W.state work.old).left ≡ None → (W.state work.new).left ≡ None }
    ensures causes { (one two sink : ℕ) → HasCauses (counts one two (W.state work.old).faults sink) (counts one two (W.state work.new).faults sink) result }
{
    let Some(now) = digest else {
        return Ok(());
    };
    let Ok(stored) = stored_digest(work) else {
        return Err(End::WorkFault);
    };
    see_digest(now);
    see_stored(&stored);
    if stored == Some(*now) {
        Ok(())
    } else {
        Err(End::FiltersChanged { now: *now, stored })
    }
}

/// Sixteen bytes. Nothing is computed here.
fn see_digest(bytes: &[u8; 16])
    ensures { IsDigest bytes.now }
{
    let _bytes = bytes.as_slice();
}

/// The same of a digest that may be absent.
fn see_stored(stored: &Option<[u8; 16]>)
    ensures { IfSome stored.now IsDigest }
{
    if let Some(bytes) = stored {
        see_digest(bytes);
    }
}

/// What a run starts from, of what was found in its work folder.
fn start_from(opts: &Opts, found: Found) -> Result<Started, End>
    requires fields { AreFoundFields found.fields found.one found.two }
    requires stamp { IsStamp found.stamp }
    ensures stamp { IfOk result (λ started. IsStamp started.stamp) }
    ensures starts { (limits : Limits) (f : WorkFolder) (digest : Option (List ℕ)) → IsFound limits.listing f found → IsStored digest f.filters_md5 → IfOk result (IsStartOf opts.now limits f digest) }
    ensures refusal { (limits : Limits) (f : WorkFolder) (digest : Option (List ℕ)) → IsFound limits.listing f found → IsStored digest f.filters_md5 → IfErr result (IsStartAnswer opts.now limits f digest) }
    ensures kind { (digest : Option (List ℕ)) → IfErr result (IsStartEnd opts.now digest) }
    ensures causes { (old : Counts) → HasCauses old old result }
{
    if let Some((name, line)) = found.bad {
        return Err(End::BadListing(name, line));
    }
    let Some(pair) = found.pair else {
        return Err(End::NeedResync(Need::NoBase));
    };
    if !may_start(pair, opts.recover) {
        return Err(End::NeedResync(Need::NotRecovering));
    }
    if let Some(stored) = other_fields(&found.fields, &opts.compare) {
        return Err(End::NeedResync(Need::FieldsChanged(stored)));
    }
    Ok(Started {
        pair,
        stamp: found.stamp,
        one: found.one,
        two: found.two,
    })
}

/// Whether a run may start from the listings under these names.
fn may_start(pair: Pair, recover: bool) -> bool
    ensures may { result ≡ true → MayStart recover pair }
    ensures not { result ≡ false → (recover ≡ false) × (MayStart recover pair → ⊥) }
{
    match pair {
        Pair::Current => true,
        Pair::Mixed => recover,
        Pair::Old => recover,
    }
}

/// The fields of a base where they aren't the compared ones.
fn other_fields(fields: &Option<Compare>, compare: &Compare) -> Option<Compare>
    ensures none { IfNone result (HasFields compare.now fields.now) }
    ensures some { IfSome result (λ stored. (fields.now ≡ Some stored) × (stored ≢ fields_of compare.now)) }
{
    let Some(stored) = fields else {
        return None;
    };
    if *stored == listed_fields(compare) {
        None
    } else {
        Some(*stored)
    }
}

/// The compared fields as a listing has them.
fn listed_fields(compare: &Compare) -> Compare
    ensures { result ≡ fields_of compare.now }
{
    Compare {
        window: Window::Ns1,
        ..*compare
    }
}

/// Compares the two listings of the base at every path. No call is made on a side.
pub fn compare_base<A: Remote, B: Remote>(
    alloc: Global,
    opts: &Opts,
    started: &Started,
    one: &A,
    two: &B,
) -> Result<End, End>
    ensures { ComparesBase (compare_in opts.now.compare (A.state one.now).window (B.state two.now).window) started.now.one started.now.two result }
{
    let compare = run_compare(&opts.compare, one, two);
    match compared(alloc, &compare, &started.one, &started.two) {
        Ok(()) => Ok(End::InSync),
        Err(PlanFault::OutOfSync(path, first, second)) => {
            Err(End::ListingsDiffer(path, first, second))
        }
        Err(_) => Err(End::OutOfMemory),
    }
}
