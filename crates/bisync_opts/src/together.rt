//! Options that don't go together.

ghost use Rattle.std.specs.Prelude.{◌≡◌, codes};
ghost use Rattle.bisync_opts.specs.Together.{clashes, has_both_modes, renames_with_backup, renames_without_hash, resync_checks_only};
ghost use Rattle.bisync_opts.specs.Reading.{rows_in};

use crate::matches::is_set;
use crate::{CheckSync, Opts};
use clap::ArgMatches;

/// Whether options are given that don't go together.
pub fn clash(matches: &ArgMatches<'_>, opts: &Opts) -> bool
    ensures { result ≡ clashes (rows_in matches.now) opts.now }
{
    if resync_checks_only(opts) || has_both_modes(matches) {
        return true;
    }
    if renames_without_hash(opts) {
        return true;
    }
    renames_with_backup(opts)
}

fn resync_checks_only(opts: &Opts) -> bool
    ensures { result ≡ resync_checks_only opts.now }
{
    opts.resync.is_some() && matches!(opts.check_sync, CheckSync::Only)
}

fn has_both_modes(matches: &ArgMatches<'_>) -> bool
    ensures { result ≡ has_both_modes (rows_in matches.now) }
{
    is_set(matches, "create-empty-src-dirs") && is_set(matches, "remove-empty-dirs")
}

fn renames_without_hash(opts: &Opts) -> bool
    ensures { result ≡ renames_without_hash opts.now }
{
    opts.track_renames && !opts.compare.hash
}

fn renames_with_backup(opts: &Opts) -> bool
    ensures { result ≡ renames_with_backup opts.now }
{
    opts.track_renames && (opts.backup1.is_some() || opts.backup2.is_some())
}
