//! What is compared.

ghost use Rattle.std.specs.Prelude.{◌≡◌, IfOk, codes};
ghost use Rattle.bisync_opts.specs.Choices.{window};
ghost use Rattle.bisync_opts.specs.Conversions.{fields};
ghost use Rattle.bisync_opts.specs.Options.{compare_of};
ghost use Rattle.bisync_tree.specs.Ranges.{ComparesSome};
ghost use Rattle.bisync_opts.specs.Reading.{IsReadAs, rows_in, text_of, value};

use crate::choices::window;
use crate::conversions::fields;
use crate::matches::{text_of, value};
use crate::{OptFault, OptName};
use bisync_tree::{Compare, Window};
use clap::ArgMatches;

/// What is compared, where the fields have that default.
pub fn comparing<'a>(matches: &ArgMatches<'a>, default: &'a str) -> Result<Compare, OptFault>
    ensures read { IsReadAs (compare_of default.now (rows_in matches.now)) result }
    ensures range { IfOk result ComparesSome }
{
    let fields = compared_fields(matches, default)?;
    let window = chosen_window(matches)?;
    Ok(Compare { window, ..fields })
}

fn compared_fields<'a>(matches: &ArgMatches<'a>, default: &'a str) -> Result<Compare, OptFault>
    ensures read { IsReadAs (value OptName.Compare
        (fields (text_of (rows_in matches.now) (codes "compare") default.now))) result }
    ensures range { IfOk result ComparesSome }
{
    value(
        OptName::Compare,
        fields(text_of(matches, "compare", default)),
    )
}

fn chosen_window(matches: &ArgMatches<'_>) -> Result<Window, OptFault>
    ensures { IsReadAs (value OptName.TimeWindow
        (window (text_of (rows_in matches.now) (codes "time-window") (codes "1ns")))) result }
{
    value(
        OptName::TimeWindow,
        window(text_of(matches, "time-window", "1ns")),
    )
}
