//! The roots, and the other places on a disk that options name.

ghost use Rattle.std.specs.Prelude.{◌≡◌, [], codes, option_map};
ghost use Rattle.clap.specs.Walk.{first_of};
ghost use Rattle.bisync_opts.specs.Conversions.{filled};
ghost use Rattle.bisync_opts.specs.Options.{roots_of, places_of};
ghost use Rattle.bisync_opts.specs.Reading.{IsReadAs, if_given, rows_in, text_of, value};

use crate::conversions::filled;
use crate::matches::{given, text_of, value};
use crate::{OptFault, OptName};
use bisync_text::Text;
use clap::ArgMatches;
use std::alloc::Global;

/// Path1 and Path2.
#[derive(Drop)]
pub struct Roots {
    pub root1: Text,
    pub root2: Text,
}

/// The places beside the roots.
#[derive(Drop)]
pub struct Places {
    pub filters: Option<Text>,
    pub workdir: Text,
    pub backup1: Option<Text>,
    pub backup2: Option<Text>,
}

/// Path1 and Path2.
pub fn given_roots(alloc: Global, matches: &ArgMatches<'_>) -> Result<Roots, OptFault>
    ensures { IsReadAs (roots_of (rows_in matches.now)) result }
{
    let root1 = place(alloc, matches, OptName::Path1, "PATH1", "")?;
    let root2 = place(alloc, matches, OptName::Path2, "PATH2", "")?;
    Ok(Roots { root1, root2 })
}

/// The places beside the roots.
pub fn given_places(alloc: Global, matches: &ArgMatches<'_>) -> Result<Places, OptFault>
    ensures { IsReadAs (places_of (rows_in matches.now)) result }
{
    let filters = place_if_given(alloc, matches, OptName::FiltersFile, "filters-file")?;
    let workdir = place(alloc, matches, OptName::Workdir, "workdir", "bisync-work")?;
    let backup1 = place_if_given(alloc, matches, OptName::BackupDir1, "backup-dir1")?;
    let backup2 = place_if_given(alloc, matches, OptName::BackupDir2, "backup-dir2")?;
    Ok(Places {
        filters,
        workdir,
        backup1,
        backup2,
    })
}

fn place<'a>(
    alloc: Global,
    matches: &ArgMatches<'a>,
    option: OptName,
    name: &str,
    default: &'a str,
) -> Result<Text, OptFault>
    ensures { IsReadAs (value option
        (filled (text_of (rows_in matches.now) name.now default.now))) result }
{
    filled_text(alloc, option, text_of(matches, name, default))
}

fn place_if_given(
    alloc: Global,
    matches: &ArgMatches<'_>,
    option: OptName,
    name: &str,
) -> Result<Option<Text>, OptFault>
    ensures { IsReadAs (if_given option (first_of name.now (rows_in matches.now))) result }
{
    filled_if_given(alloc, option, given(matches, name))
}

fn filled_text(alloc: Global, option: OptName, text: &str) -> Result<Text, OptFault>
    ensures { IsReadAs (value option (filled text.now)) result }
{
    let text = value(option, filled(text))?;
    Ok(Text::from_bytes(alloc, text.as_bytes())?)
}

fn filled_if_given(
    alloc: Global,
    option: OptName,
    text: Option<&str>,
) -> Result<Option<Text>, OptFault>
    ensures { IsReadAs (if_given option (option_map (λ t. t.now) text.entry)) result }
{
    let Some(text) = text else {
        return Ok(None);
    };
    let text = filled_text(alloc, option, text)?;
    Ok(Some(text))
}
