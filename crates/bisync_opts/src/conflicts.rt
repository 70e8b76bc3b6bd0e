//! How conflicts are settled.

ghost use Rattle.std.specs.Prelude.{◌≡◌, IfOk, codes};
ghost use Rattle.bisync_opts.specs.Conversions.{suffixes};
ghost use Rattle.bisync_opts.specs.Choices.{preference, loser};
ghost use Rattle.bisync_opts.specs.Options.{conflict_of};
ghost use Rattle.bisync_tree.specs.Ranges.{HasSuffixes, IsSuffix};
ghost use Rattle.bisync_opts.specs.Reading.{IsReadAs, rows_in, text_of, value};

use crate::choices::{loser, preference};
use crate::conversions::suffixes;
use crate::matches::{text_of, value};
use crate::{OptFault, OptName};
use bisync_text::Text;
use bisync_tree::{ConflictRule, Loser, Prefer};
use clap::ArgMatches;
use std::alloc::Global;

/// How conflicts are settled.
pub fn conflict_rule(alloc: Global, matches: &ArgMatches<'_>) -> Result<ConflictRule, OptFault>
    ensures read { IsReadAs (conflict_of (rows_in matches.now)) result }
    ensures range { IfOk result HasSuffixes }
{
    let prefer = preferred(matches, OptName::ConflictResolve, "conflict-resolve")?;
    let loser = chosen_loser(matches)?;
    let (suffix1, suffix2) = chosen_suffixes(alloc, matches)?;
    Ok(ConflictRule {
        prefer,
        loser,
        suffix1,
        suffix2,
    })
}

/// Which of two files wins, by the option of that name.
pub fn preferred(matches: &ArgMatches<'_>, option: OptName, name: &str) -> Result<Prefer, OptFault>
    ensures { IsReadAs (value option
        (preference (text_of (rows_in matches.now) name.now (codes "none")))) result }
{
    value(option, preference(text_of(matches, name, "none")))
}

fn chosen_loser(matches: &ArgMatches<'_>) -> Result<Loser, OptFault>
    ensures { IsReadAs (value OptName.ConflictLoser
        (loser (text_of (rows_in matches.now) (codes "conflict-loser") (codes "num")))) result }
{
    value(
        OptName::ConflictLoser,
        loser(text_of(matches, "conflict-loser", "num")),
    )
}

fn chosen_suffixes(alloc: Global, matches: &ArgMatches<'_>) -> Result<(Text, Text), OptFault>
    ensures read { IsReadAs (value OptName.ConflictSuffix (suffixes
        (text_of (rows_in matches.now) (codes "conflict-suffix") (codes "conflict")))) result }
    ensures range { IfOk result (λ pair. IsSuffix pair.0 × IsSuffix pair.1) }
{
    suffix_texts(alloc, text_of(matches, "conflict-suffix", "conflict"))
}

fn suffix_texts(alloc: Global, text: &str) -> Result<(Text, Text), OptFault>
    ensures read { IsReadAs (value OptName.ConflictSuffix (suffixes text.now)) result }
    ensures range { IfOk result (λ pair. IsSuffix pair.0 × IsSuffix pair.1) }
{
    let (one, two) = value(OptName::ConflictSuffix, suffixes(text))?;
    let one = Text::from_bytes(alloc, one.as_bytes())?;
    let two = Text::from_bytes(alloc, two.as_bytes())?;
    Ok((one, two))
}
