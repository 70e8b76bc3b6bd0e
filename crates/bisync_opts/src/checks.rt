//! The words after `check`.

ghost use Rattle.std.specs.Prelude.{◌≡◌, IfOk, codes};
ghost use Rattle.bisync_opts.specs.Options.{check_options_from, check_options_of};
ghost use Rattle.bisync_opts.specs.Ranges.{IsCheckInRange};
ghost use Rattle.bisync_opts.specs.Reading.{IsReadAs, rows_in};

use crate::OptFault;
use crate::commands::check_command;
use crate::comparing::comparing;
use crate::places::given_roots;
use crate::words::{parse, texts};
use bisync_text::Text;
use bisync_tree::Compare;
use clap::ArgMatches;
use std::alloc::Global;

/// The options of the command `check`.
#[derive(Drop)]
pub struct CheckOpts {
    /// The root of Path1, which isn't empty.
    pub root1: Text,
    /// The root of Path2, which isn't empty.
    pub root2: Text,
    /// At least one field is compared.
    pub compare: Compare,
}

/// The options that the words after `check` give, which are judged as those of `read_options`. The
/// default of `--compare` is `size,checksum`. It is this project's own.
pub fn read_check(alloc: Global, words: &[Text]) -> Result<CheckOpts, OptFault>
    ensures read { IsReadAs (check_options_of words.now) result }
    ensures range { IfOk result IsCheckInRange }
{
    let words = texts(alloc, words)?;
    let command = check_command(alloc)?;
    let matches = parse(command, &words)?;
    check_options(alloc, &matches)
}

fn check_options(alloc: Global, matches: &ArgMatches<'_>) -> Result<CheckOpts, OptFault>
    ensures read { IsReadAs (check_options_from (rows_in matches.now)) result }
    ensures range { IfOk result IsCheckInRange }
{
    let roots = given_roots(alloc, matches)?;
    let compare = comparing(matches, "size,checksum")?;
    Ok(CheckOpts {
        root1: roots.root1,
        root2: roots.root2,
        compare,
    })
}
