ghost use Rattle.std.specs.Prelude.{◌≡◌, ◌≤◌, ◌<◌, ◌^◌, ℕ, IsTrue, IfOk, IfErr};
ghost use Rattle.bisync_device.specs.WorkFolder.{Held, WorkFolder};
ghost use Rattle.bisync_device.specs.Work.{KeepsFolder};
ghost use Rattle.bisync_work.specs.WorkCalls.{AreWorkCalls, is_device_fault};
ghost use Rattle.bisync_work.specs.Base.{ArePair, NoPair, HasBaseIn, HasNoBase};
ghost use Rattle.bisync_work.specs.Found.{IsFound, AreFoundFields, base_of, IsEmptyUnpaired};
ghost use Rattle.bisync_work.specs.Standing.{IsStanding, IsListedWell, IsMark, AreMarks};
ghost use Rattle.bisync_work.specs.declared.listing_reads.Standing.TheVariants.{Listed};

use crate::Pair;
use crate::listing_reads::{Standing, read_name};
use crate::stamps::{Mark, Marks};
use bisync_device::{Failed, Work, WorkName};
use bisync_listing::Header;
use bisync_tree::{Compare, Limits, Listing};
use std::alloc::Global;

/// What a work folder has of the last good run.
#[derive(Drop)]
pub struct Found {
    /// The names of the base. None where there is no base.
    pub pair: Option<Pair>,
    /// Path1's listing of the base, and none of its files where there is no base.
    pub one: Listing,
    /// Path2's.
    pub two: Listing,
    /// The first of `1.lst`, `2.lst`, `1.lst-old` and `2.lst-old` that is there and no listing,
    /// with its first bad line, counted from 1.
    pub bad: Option<(WorkName, u64)>,
    /// The least number from 1 that none of their listings has as its stamp: 1 to 5.
    pub stamp: u64,
    /// The fields that the base's listings were compared by. None where there is no base, and where
    /// its listings are of version 1.
    pub fields: Option<Compare>,
}

/// Why nothing can be said of a work folder.
#[derive(Clone, Copy, Debug, PartialEq, Eq)]
pub enum WorkFault {
    /// A call failed, and the count of faults rose.
    Failed,
    /// Memory was refused.
    OutOfMemory,
}

impl From<Failed> for WorkFault {
    ghost use Rattle.std.specs.Prelude.{◌≡◌};
    ghost use Rattle.bisync_work.specs.declared.found.WorkFault.TheVariants.{Failed as FailedFault};

    ghost from_gives = { λ _ fault. fault ≡ FailedFault };

    fn from(_: Failed) -> Self {
        WorkFault::Failed
    }
}

/// Two listings of one header.
#[derive(Drop)]
struct Listings {
    header: Header,
    one: Listing,
    two: Listing,
}

impl Standing {
    /// What is kept of a name when its listing is gone.
    fn mark(&self) -> Mark
        ensures { (limit : ℕ) (held : Held) → IsStanding limit held self.now → IsMark limit held result }
    {
        match self {
            Standing::Absent => Mark::Absent,
            Standing::Listed(header, _) => Mark::Stamp(header.stamp),
            Standing::Bad(line) => Mark::Bad(*line),
        }
    }
}

fn join_listed(
    header: Header,
    first: Listing,
    other: Header,
    second: Listing,
) -> Result<Listings, (Standing, Standing)>
    ensures pair { IfOk result (λ pair. (header ≡ other) × (pair ≡ record { header = header; one = first; two = second })) }
    ensures apart { IfErr result (λ again. (header ≡ other → ⊥) × (again ≡ (Listed header first, Listed other second))) }
{
    if header == other {
        return Ok(Listings {
            header,
            one: first,
            two: second,
        });
    }
    Err((
        Standing::Listed(header, first),
        Standing::Listed(other, second),
    ))
}

/// The two as a pair, where both are listings of one header, or the two again.
fn join(one: Standing, two: Standing) -> Result<Listings, (Standing, Standing)>
    ensures pair { IfOk result (λ pair. (limit : ℕ) (a b : Held) → IsStanding limit a one → IsStanding limit b two → ArePair limit a b (base_of pair)) }
    ensures apart { IfErr result (λ again. (again.0 ≡ one) × (again.1 ≡ two)
        × ((limit : ℕ) (a b : Held) → limit < 2 ^ 64 → IsStanding limit a one → IsStanding limit b two → NoPair limit a b)) }
    ensures fields { IsListedWell one → IsListedWell two → IfOk result (λ pair. AreFoundFields pair.header.fields pair.one pair.two) }
{
    match one {
        Standing::Listed(header, first) => match two {
            Standing::Listed(other, second) => join_listed(header, first, other, second),
            second => Err((Standing::Listed(header, first), second)),
        },
        first => Err((first, two)),
    }
}

fn found_in(pair: Pair, listings: Listings, marks: &Marks) -> Found
    ensures found { (limit : ℕ) (f : WorkFolder) → limit < 2 ^ 64 → AreMarks limit f marks.now → HasBaseIn limit f pair (base_of listings) → IsFound limit f result }
    ensures stamp { (1 ≤ result.stamp) × (result.stamp ≤ 5) }
    ensures fields { AreFoundFields listings.header.fields listings.one listings.two → AreFoundFields result.fields result.one result.two }
    ensures unpaired { IsEmptyUnpaired result.pair result.one result.two result.fields }
{
    Found {
        pair: Some(pair),
        one: listings.one,
        two: listings.two,
        bad: marks.first_bad(),
        stamp: marks.new_stamp(),
        fields: listings.header.fields,
    }
}

fn found_none(alloc: Global, marks: &Marks) -> Found
    ensures found { (limit : ℕ) (f : WorkFolder) → limit < 2 ^ 64 → AreMarks limit f marks.now → HasNoBase limit f → IsFound limit f result }
    ensures stamp { (1 ≤ result.stamp) × (result.stamp ≤ 5) }
    ensures fields { AreFoundFields result.fields result.one result.two }
    ensures unpaired { IsEmptyUnpaired result.pair result.one result.two result.fields }
{
    Found {
        pair: None,
        one: Listing::new(alloc),
        two: Listing::new(alloc),
        bad: marks.first_bad(),
        stamp: marks.new_stamp(),
        fields: None,
    }
}

/// Goes on where `1.lst` and `2.lst` are no pair: `two` is what stands under the latter.
fn find_older<W: Work>(
    alloc: Global,
    work: &mut W,
    limits: &Limits,
    two: Standing,
    marks: (Mark, Mark),
) -> Result<Found, WorkFault>
    requires listed { IsListedWell two }
    ensures found { IsTrue W.tells → IsStanding limits.now.listing (W.state work.old).folder.two two
        → IsMark limits.now.listing (W.state work.old).folder.one marks.0 → IsMark limits.now.listing (W.state work.old).folder.two marks.1
        → NoPair limits.now.listing (W.state work.old).folder.one (W.state work.old).folder.two
        → IfOk result (IsFound limits.now.listing (W.state work.old).folder) }
    ensures stamp { IfOk result (λ found. (1 ≤ found.stamp) × (found.stamp ≤ 5)) }
    ensures fields { IfOk result (λ found. AreFoundFields found.fields found.one found.two) }
    ensures unpaired { IfOk result (λ found. IsEmptyUnpaired found.pair found.one found.two found.fields) }
    ensures folder { KeepsFolder W.tells (W.state work.old) (W.state work.new) }
    ensures writing { (W.state work.new).writing ≡ (W.state work.old).writing }
    ensures calls { AreWorkCalls (is_device_fault result) (W.state work.old) (W.state work.new) }
{
    // Read here, so that its range is known to the proof.
    let _limit = limits.listing;
    let one_old = read_name(alloc, work, WorkName::OneOld, limits)?;
    let mut marks = Marks {
        one: marks.0,
        two: marks.1,
        one_old: one_old.mark(),
        two_old: Mark::Absent,
    };
    let one_old = match join(one_old, two) {
        Ok(listings) => {
            marks.two_old = read_name(alloc, work, WorkName::TwoOld, limits)?.mark();
            return Ok(found_in(Pair::Mixed, listings, &marks));
        }
        Err(apart) => apart.0,
    };
    let two_old = read_name(alloc, work, WorkName::TwoOld, limits)?;
    marks.two_old = two_old.mark();
    match join(one_old, two_old) {
        Ok(listings) => Ok(found_in(Pair::Old, listings, &marks)),
        Err(_) => Ok(found_none(alloc, &marks)),
    }
}

/// Finds the base, the first bad name and the new stamp. Each of the four names is read once, in
/// pieces of at most 4,096 bytes and no further than one byte past `limits.listing`. No name is
/// changed.
pub fn find_base<W: Work>(alloc: Global, work: &mut W, limits: &Limits) -> Result<Found, WorkFault>
    ensures found { IsTrue W.tells → IfOk result (IsFound limits.now.listing (W.state work.old).folder) }
    ensures stamp { IfOk result (λ found. (1 ≤ found.stamp) × (found.stamp ≤ 5)) }
    ensures fields { IfOk result (λ found. AreFoundFields found.fields found.one found.two) }
    ensures unpaired { IfOk result (λ found. IsEmptyUnpaired found.pair found.one found.two found.fields) }
    ensures folder { KeepsFolder W.tells (W.state work.old) (W.state work.new) }
    ensures writing { (W.state work.new).writing ≡ (W.state work.old).writing }
    ensures calls { AreWorkCalls (is_device_fault result) (W.state work.old) (W.state work.new) }
{
    // Read here, so that its range is known to the proof.
    let _limit = limits.listing;
    let one = read_name(alloc, work, WorkName::One, limits)?;
    let two = read_name(alloc, work, WorkName::Two, limits)?;
    let marks = (one.mark(), two.mark());
    let two = match join(one, two) {
        Ok(listings) => {
            let one_old = read_name(alloc, work, WorkName::OneOld, limits)?.mark();
            let two_old = read_name(alloc, work, WorkName::TwoOld, limits)?.mark();
            let marks = Marks {
                one: marks.0,
                two: marks.1,
                one_old,
                two_old,
            };
            return Ok(found_in(Pair::Current, listings, &marks));
        }
        Err(apart) => apart.1,
    };
    find_older(alloc, work, limits, two, marks)
}
