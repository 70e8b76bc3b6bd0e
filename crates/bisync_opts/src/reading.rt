//! The words after `bisync`.

ghost use Rattle.std.specs.Prelude.{◌≡◌, IfOk, codes};
ghost use Rattle.bisync_opts.specs.Choices.{check_sync};
ghost use Rattle.bisync_opts.specs.Conversions.{max_lock};
ghost use Rattle.bisync_opts.specs.Options.{converted, folders_of, options_from, options_of, resync_of};
ghost use Rattle.bisync_tree.specs.Ranges.{IsLongEnough};
ghost use Rattle.bisync_opts.specs.Ranges.{IsInRange};
ghost use Rattle.bisync_opts.specs.Reading.{IsReadAs, is_set, rows_in, text_of, value};

use crate::choices::check_sync;
use crate::commands::bisync_command;
use crate::comparing::comparing;
use crate::conflicts::{conflict_rule, preferred};
use crate::conversions::max_lock;
use crate::guards::guard_rule;
use crate::matches::{is_set, text_of, value};
use crate::places::{given_places, given_roots};
use crate::together::clash;
use crate::words::{parse, texts};
use crate::{CheckSync, FolderMode, OptFault, OptName, Opts, UsageKind};
use bisync_text::Text;
use bisync_tree::Prefer;
use clap::ArgMatches;
use std::alloc::Global;

/// The options that the words after `bisync` give. They are refused as `Words` where one isn't UTF-8
/// or they aren't two paths and options of the command with their values, as `Value` where an option's
/// text means nothing, and as `Together` where options are given that don't go together. The first of
/// these is told. The options are after rclone's manual page "bisync"; the rest is this project's own.
pub fn read_options(alloc: Global, words: &[Text]) -> Result<Opts, OptFault>
    ensures read { IsReadAs (options_of words.now) result }
    ensures range { IfOk result IsInRange }
{
    let words = texts(alloc, words)?;
    let command = bisync_command(alloc)?;
    let matches = parse(command, &words)?;
    options(alloc, &matches)
}

fn options(alloc: Global, matches: &ArgMatches<'_>) -> Result<Opts, OptFault>
    ensures read { IsReadAs (options_from (rows_in matches.now)) result }
    ensures range { IfOk result IsInRange }
{
    let opts = convert(alloc, matches)?;
    if clash(matches, &opts) {
        return Err(OptFault::Usage(UsageKind::Together));
    }
    Ok(opts)
}

fn convert(alloc: Global, matches: &ArgMatches<'_>) -> Result<Opts, OptFault>
    ensures read { IsReadAs (converted (rows_in matches.now)) result }
    ensures range { IfOk result IsInRange }
{
    let roots = given_roots(alloc, matches)?;
    let mode = preferred(matches, OptName::ResyncMode, "resync-mode")?;
    let compare = comparing(matches, "size,modtime")?;
    let conflict = conflict_rule(alloc, matches)?;
    let guard = guard_rule(alloc, matches)?;
    let sync = chosen_check_sync(matches)?;
    let places = given_places(alloc, matches)?;
    let lock = lock_time(matches)?;
    Ok(Opts {
        root1: roots.root1,
        root2: roots.root2,
        workdir: places.workdir,
        filters: places.filters,
        resync: resync(is_set(matches, "resync"), mode),
        compare,
        conflict,
        guard,
        check_sync: sync,
        resilient: is_set(matches, "resilient"),
        recover: is_set(matches, "recover"),
        max_lock: lock,
        dry_run: is_set(matches, "dry-run"),
        folders: folder_mode(matches),
        backup1: places.backup1,
        backup2: places.backup2,
        track_renames: is_set(matches, "track-renames"),
    })
}

fn chosen_check_sync(matches: &ArgMatches<'_>) -> Result<CheckSync, OptFault>
    ensures { IsReadAs (value OptName.CheckSync
        (check_sync (text_of (rows_in matches.now) (codes "check-sync") (codes "true")))) result }
{
    value(
        OptName::CheckSync,
        check_sync(text_of(matches, "check-sync", "true")),
    )
}

fn lock_time(matches: &ArgMatches<'_>) -> Result<Option<i64>, OptFault>
    ensures read { IsReadAs (value OptName.MaxLock
        (max_lock (text_of (rows_in matches.now) (codes "max-lock") (codes "0")))) result }
    ensures range { IfOk result IsLongEnough }
{
    value(
        OptName::MaxLock,
        max_lock(text_of(matches, "max-lock", "0")),
    )
}

/// How a resync settles a path that differs, where the run is one: by the mode, or without one by
/// taking Path1's file.
fn resync(given: bool, mode: Prefer) -> Option<Prefer>
    ensures { result ≡ resync_of given mode }
{
    match mode {
        Prefer::Nobody => { if given { Some(Prefer::Path1) } else { None } }
        mode => Some(mode),
    }
}

fn folder_mode(matches: &ArgMatches<'_>) -> Option<FolderMode>
    ensures { let m = rows_in matches.now in
        result ≡ folders_of (is_set m (codes "create-empty-src-dirs")) (is_set m (codes "remove-empty-dirs")) }
{
    if is_set(matches, "create-empty-src-dirs") {
        return Some(FolderMode::Create);
    }
    if is_set(matches, "remove-empty-dirs") {
        Some(FolderMode::Remove)
    } else {
        None
    }
}
