//! The commands with their options.

ghost use Rattle.std.specs.Prelude.{◌≡◌, IfOk, codes};
ghost use Rattle.clap.specs.Simple.{app_of};
ghost use Rattle.bisync_opts.specs.Command.{with_rules, path_rules, resync_rules, compare_rules, conflict_rules, guard_rules, place_rules, course_rules, bisync_app, check_app};

use crate::arguments::{plain_command, with_flag, with_option, with_path, with_short_flag};
use clap::Command;
use std::alloc::{AllocError, Global};

fn with_paths<'a>(alloc: Global, command: Command<'a>) -> Result<Command<'a>, AllocError>
    ensures { IfOk result (λ c. app_of c ≡ with_rules (app_of command.entry) path_rules) }
{
    let command = with_path(alloc, command, "PATH1")?;
    with_path(alloc, command, "PATH2")
}

fn with_resync<'a>(alloc: Global, command: Command<'a>) -> Result<Command<'a>, AllocError>
    ensures { IfOk result (λ c. app_of c ≡ with_rules (app_of command.entry) resync_rules) }
{
    let command = with_short_flag(alloc, command, "resync", '1')?;
    with_option(alloc, command, "resync-mode")
}

fn with_compare<'a>(alloc: Global, command: Command<'a>) -> Result<Command<'a>, AllocError>
    ensures { IfOk result (λ c. app_of c ≡ with_rules (app_of command.entry) compare_rules) }
{
    let command = with_option(alloc, command, "compare")?;
    with_option(alloc, command, "time-window")
}

fn with_conflict<'a>(alloc: Global, command: Command<'a>) -> Result<Command<'a>, AllocError>
    ensures { IfOk result (λ c. app_of c ≡ with_rules (app_of command.entry) conflict_rules) }
{
    let command = with_option(alloc, command, "conflict-resolve")?;
    let command = with_option(alloc, command, "conflict-loser")?;
    with_option(alloc, command, "conflict-suffix")
}

fn with_guards<'a>(alloc: Global, command: Command<'a>) -> Result<Command<'a>, AllocError>
    ensures { IfOk result (λ c. app_of c ≡ with_rules (app_of command.entry) guard_rules) }
{
    let command = with_option(alloc, command, "max-delete")?;
    let command = with_flag(alloc, command, "force")?;
    let command = with_flag(alloc, command, "check-access")?;
    let command = with_option(alloc, command, "check-filename")?;
    with_option(alloc, command, "check-sync")
}

fn with_places<'a>(alloc: Global, command: Command<'a>) -> Result<Command<'a>, AllocError>
    ensures { IfOk result (λ c. app_of c ≡ with_rules (app_of command.entry) place_rules) }
{
    let command = with_option(alloc, command, "filters-file")?;
    let command = with_option(alloc, command, "workdir")?;
    let command = with_option(alloc, command, "backup-dir1")?;
    with_option(alloc, command, "backup-dir2")
}

fn with_course<'a>(alloc: Global, command: Command<'a>) -> Result<Command<'a>, AllocError>
    ensures { IfOk result (λ c. app_of c ≡ with_rules (app_of command.entry) course_rules) }
{
    let command = with_flag(alloc, command, "resilient")?;
    let command = with_flag(alloc, command, "recover")?;
    let command = with_option(alloc, command, "max-lock")?;
    let command = with_short_flag(alloc, command, "dry-run", 'n')?;
    let command = with_flag(alloc, command, "create-empty-src-dirs")?;
    let command = with_flag(alloc, command, "remove-empty-dirs")?;
    with_flag(alloc, command, "track-renames")
}

/// `bisync PATH1 PATH2` with its options.
pub fn bisync_command<'a>(alloc: Global) -> Result<Command<'a>, AllocError>
    ensures { IfOk result (λ c. app_of c ≡ bisync_app) }
{
    let command = with_paths(alloc, plain_command(alloc, "bisync"))?;
    let command = with_resync(alloc, command)?;
    let command = with_compare(alloc, command)?;
    let command = with_conflict(alloc, command)?;
    let command = with_guards(alloc, command)?;
    let command = with_places(alloc, command)?;
    with_course(alloc, command)
}

/// `check PATH1 PATH2` with its options.
pub fn check_command<'a>(alloc: Global) -> Result<Command<'a>, AllocError>
    ensures { IfOk result (λ c. app_of c ≡ check_app) }
{
    let command = with_paths(alloc, plain_command(alloc, "check"))?;
    with_compare(alloc, command)
}
