//! What the words ask for.

ghost use Rattle.std.specs.Prelude.{◌≡◌, IfOk};
ghost use Rattle.bisync_cli.specs.Tasks.{IsTaskInRange, command_of, is_built, keeps_or_tracks as keeps_or_tracks_of, only_looks as only_looks_of, run_in, task_in, task_of};
ghost use Rattle.bisync_opts.specs.Ranges.{IsInRange};
ghost use Rattle.bisync_opts.specs.Reading.{IsReadAs};

use bisync_opts::{CheckSync, OptFault, Opts, UsageKind, read_options};
use bisync_text::Text;
use std::alloc::Global;

/// The commands, by the first word.
#[derive(Clone, Copy, Debug, PartialEq, Eq)]
pub enum Command {
    /// `bisync`.
    Bisync,
    /// `demo`.
    Demo,
    /// `check`.
    Check,
}

/// What the words ask for.
#[derive(Drop)]
pub enum Task {
    /// A run with these options.
    Run(Opts),
    /// What this version doesn't do yet.
    NotBuilt,
}

/// What the words ask for. They are refused where the first one names no command, and where those
/// after `bisync` give no options.
pub fn read_task(alloc: Global, words: &[Text]) -> Result<Task, OptFault>
    ensures read { IsReadAs (task_in words.now) result }
    ensures range { IfOk result IsTaskInRange }
{
    let Some((first, rest)) = words.split_first() else {
        return Err(OptFault::Usage(UsageKind::Command));
    };
    match named_command(first) {
        Some(Command::Bisync) => read_run(alloc, rest),
        Some(Command::Demo | Command::Check) => Ok(Task::NotBuilt),
        None => Err(OptFault::Usage(UsageKind::Command)),
    }
}

/// The command that a word names.
fn named_command(word: &Text) -> Option<Command>
    ensures { result ≡ command_of word.now }
{
    let name = word.as_bytes();
    if name == b"bisync".as_slice() {
        Some(Command::Bisync)
    } else if name == b"demo".as_slice() {
        Some(Command::Demo)
    } else if name == b"check".as_slice() {
        Some(Command::Check)
    } else {
        None
    }
}

/// What the words after `bisync` ask for.
fn read_run(alloc: Global, words: &[Text]) -> Result<Task, OptFault>
    ensures read { IsReadAs (run_in words.now) result }
    ensures range { IfOk result IsTaskInRange }
{
    match read_options(alloc, words) {
        Ok(opts) => Ok(task_for(opts)),
        Err(fault) => Err(fault),
    }
}

/// The run of these options, where this version makes it.
fn task_for(opts: Opts) -> Task
    requires { IsInRange opts }
    ensures task { result ≡ task_of opts }
    ensures range { IsTaskInRange result }
{
    if is_built(&opts) {
        Task::Run(opts)
    } else {
        Task::NotBuilt
    }
}

/// Whether this version makes such a run. One that only looks makes nothing of options on folders,
/// backups and renames; and a resync nothing of those on backups and renames.
fn is_built(opts: &Opts) -> bool
    ensures { result ≡ is_built opts.now }
{
    only_looks(opts)
        || (opts.folders.is_none() && (opts.resync.is_some() || !keeps_or_tracks(opts)))
}

/// Whether a run only tells what it would do, or only compares its base.
fn only_looks(opts: &Opts) -> bool
    ensures { result ≡ only_looks_of opts.now }
{
    match opts.check_sync {
        CheckSync::Only => true,
        CheckSync::Always | CheckSync::Never => opts.dry_run,
    }
}

/// Whether a run keeps backups or tracks renames.
fn keeps_or_tracks(opts: &Opts) -> bool
    ensures { result ≡ keeps_or_tracks_of opts.now }
{
    opts.backup1.is_some() || opts.backup2.is_some() || opts.track_renames
}

/// Lets the options go, in a call of its own, so that the proof of the top call has no cases on them.
pub fn let_go(_opts: Opts) {}
