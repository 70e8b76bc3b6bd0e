//! What tests make plans of.

ghost use Rattle.std.specs.Prelude.{◌≡◌, false, IfOk};
ghost use Rattle.std.specs.List.{list_all};
ghost use Rattle.bisync_tree.specs.Ranges.{is_suffix, is_suffix_byte, IsSuffix, HasSuffixes};
ghost use Rattle.bisync_tree.specs.Rows.{keys, passing};
ghost use Rattle.bisync_model.specs.Views.{IsNarrowed, IsComplete};
ghost use Rattle.bisync_filter.specs.Passing.{rules_pass};
ghost use Rattle.bisync_plan.specs.Conditions.{HasDigests};

use bisync_filter::Rules;
use bisync_text::{Path, Text};
use bisync_tree::{Compare, ConflictRule, Entry, Listing, Loser, Names, Prefer, View};
use std::alloc::Global;
use std::test::Fail;

/// A path, a size, and a time in tenths of a second.
pub(crate) type Row<'a> = (&'a str, u64, i64);

/// The listing of rows in byte order of their paths, without digests.
pub(crate) fn listing(alloc: Global, rows: &[Row<'_>]) -> Result<Listing, Fail>
    ensures { IfOk result (λ listing. (compare : Compare) → compare.hash ≡ false → HasDigests compare listing) }
{
    let mut listing = Listing::new(alloc);
    for (text, size, tenths) in rows {
        let path = Path::read(alloc, text.as_bytes())?;
        if !listing.may_push(&path) {
            return Err(Fail::new("the paths don't rise"));
        }
        let entry = Entry {
            size: *size,
            time: tenths.wrapping_mul(100_000_000),
            hash: None,
        };
        listing.push(path, entry)?;
    }
    Ok(listing)
}

/// The rows whose paths pass.
fn part(alloc: Global, rules: &Rules, listing: &Listing) -> Result<Listing, Fail>
    ensures { IfOk result (λ part. part ≡ passing (rules_pass rules.now) listing.now) }
{
    let mut part = Listing::new(alloc);
    for i in 0..listing.len() {
        let path = listing.path_at(i);
        let entry = listing.entry_at(i);
        if rules.passes(path) {
            if !part.may_push(path) {
                return Err(Fail::new("the paths don't rise"));
            }
            part.push(path.copy(alloc)?, *entry)?;
        }
    }
    Ok(part)
}

/// The paths of a listing.
fn names(alloc: Global, listing: &Listing) -> Result<Names, Fail>
    ensures { IfOk result (λ names. names ≡ keys listing.now) }
{
    let mut names = Names::new(alloc);
    for i in 0..listing.len() {
        let path = listing.path_at(i);
        if !names.may_push(path) {
            return Err(Fail::new("the paths don't rise"));
        }
        names.push(path.copy(alloc)?)?;
    }
    Ok(names)
}

/// The view of these base listings and all that is on both sides now.
pub(crate) fn view(
    alloc: Global,
    rules: &Rules,
    base1: &[Row<'_>],
    base2: &[Row<'_>],
    one: &[Row<'_>],
    two: &[Row<'_>],
) -> Result<View, Fail>
    ensures narrowed { IfOk result (λ view. IsNarrowed (rules_pass rules.now) view) }
    ensures complete { IfOk result (λ view. IsComplete view) }
    ensures digests1 { IfOk result (λ view. (compare : Compare) → compare.hash ≡ false → HasDigests compare view.now1) }
    ensures digests2 { IfOk result (λ view. (compare : Compare) → compare.hash ≡ false → HasDigests compare view.now2) }
{
    let prior1 = listing(alloc, base1)?;
    let prior2 = listing(alloc, base2)?;
    let all1 = listing(alloc, one)?;
    let all2 = listing(alloc, two)?;
    let base1 = part(alloc, rules, &prior1)?;
    let base2 = part(alloc, rules, &prior2)?;
    let now1 = part(alloc, rules, &all1)?;
    let now2 = part(alloc, rules, &all2)?;
    let names1 = names(alloc, &all1)?;
    let names2 = names(alloc, &all2)?;
    Ok(View {
        prior1,
        prior2,
        base1,
        base2,
        now1,
        now2,
        names1,
        names2,
    })
}

/// Whether a byte may stand in a suffix.
fn is_suffix_byte(b: u8) -> bool
    ensures { result ≡ is_suffix_byte b }
{
    b != b'/' && b != b',' && b != 0
}

/// Whether all bytes may.
fn has_suffix_bytes(text: &str) -> bool
    ensures { result ≡ list_all is_suffix_byte text.now }
{
    text.as_bytes().iter().all(|b| is_suffix_byte(*b))
}

/// Whether the text may be a suffix.
fn is_suffix(text: &str) -> bool
    ensures { result ≡ is_suffix text.now }
{
    if text.is_empty() || text.len() > 64 {
        return false;
    }
    has_suffix_bytes(text)
}

/// The suffix of this text.
fn suffix(alloc: Global, text: &str) -> Result<Text, Fail>
    ensures { IfOk result IsSuffix }
{
    if !is_suffix(text) {
        return Err(Fail::new("the text is no suffix"));
    }
    Ok(Text::from_bytes(alloc, text.as_bytes())?)
}

/// A rule with the same suffix on both sides.
pub(crate) fn conflict_rule(
    alloc: Global,
    prefer: Prefer,
    loser: Loser,
    text: &str,
) -> Result<ConflictRule, Fail>
    ensures { IfOk result (λ rule. HasSuffixes rule) }
{
    Ok(ConflictRule {
        prefer,
        loser,
        suffix1: suffix(alloc, text)?,
        suffix2: suffix(alloc, text)?,
    })
}
