//! What stops a run before its first change.

ghost use Rattle.std.specs.Prelude.{◌≡◌, ◌≤◌, IfOk, codes};
ghost use Rattle.bisync_opts.specs.Conversions.{one_name, percent};
ghost use Rattle.bisync_opts.specs.Options.{guard_of};
ghost use Rattle.bisync_tree.specs.Ranges.{HasPercent};
ghost use Rattle.bisync_opts.specs.Reading.{IsReadAs, rows_in, text_of, value};

use crate::conversions::{one_name, percent};
use crate::matches::{is_set, text_of, value};
use crate::{OptFault, OptName};
use bisync_text::Text;
use bisync_tree::GuardRule;
use clap::ArgMatches;
use std::alloc::Global;

/// What stops a run before its first change.
pub fn guard_rule(alloc: Global, matches: &ArgMatches<'_>) -> Result<GuardRule, OptFault>
    ensures read { IsReadAs (guard_of (rows_in matches.now)) result }
    ensures range { IfOk result HasPercent }
{
    let max_delete = delete_limit(matches)?;
    let name = check_filename(alloc, matches)?;
    let check = is_set(matches, "check-access").then_some(name);
    let force = is_set(matches, "force");
    Ok(GuardRule {
        check,
        max_delete,
        force,
    })
}

fn delete_limit(matches: &ArgMatches<'_>) -> Result<u8, OptFault>
    ensures read { IsReadAs (value OptName.MaxDelete
        (percent (text_of (rows_in matches.now) (codes "max-delete") (codes "50")))) result }
    ensures range { IfOk result (λ n. n ≤ 100) }
{
    value(
        OptName::MaxDelete,
        percent(text_of(matches, "max-delete", "50")),
    )
}

fn check_filename(alloc: Global, matches: &ArgMatches<'_>) -> Result<Text, OptFault>
    ensures { IsReadAs (value OptName.CheckFilename (one_name
        (text_of (rows_in matches.now) (codes "check-filename") (codes "RCLONE_TEST")))) result }
{
    let name = one_name(alloc, text_of(matches, "check-filename", "RCLONE_TEST"))?;
    value(OptName::CheckFilename, name)
}
