//! What a last line says, as parts.

ghost use Rattle.std.specs.Prelude.{◌≡◌, ◌++◌, codes, decimal};
ghost use Rattle.hex.specs.Hex.{encode_lower};
ghost use Rattle.bisync_text.specs.Quote.{quoted};
ghost use Rattle.bisync_report.specs.Names.{side_text};
ghost use Rattle.bisync_report.specs.Parts.{part_text, parts_text};
ghost use Rattle.bisync_report.specs.LastLine.{end_text, usage_text, lock_text, need_text, check_text, stored_text, changes_of};

use crate::parts::Part;
use crate::{End, Need};
use bisync_opts::UsageKind;
use bisync_text::Path;
use bisync_tree::{Side, Until};

/// As many parts as a line has at most. Shorter lines end with empty words.
type Parts<'a> = [Part<'a>; 6];

/// What the last line says behind the name of the program.
pub fn parts_of<'a>(end: &'a End) -> Parts<'a>
    ensures { parts_text result ≡ end_text end.now }
{
    match end {
        End::Done { one, two } => changes(b"done", *one, *two),
        End::Resynced { one, two } => changes(b"resync done", *one, *two),
        End::DryRun => words(b"dry run, nothing was changed"),
        End::InSync => words(b"listings agree"),
        End::Demo => words(b""),
        End::Usage(kind) => usage(*kind),
        End::WorkFault => words(b"work folder failed"),
        End::NoFilters => words(b"filters file is not there"),
        End::BadRule(n) => around(b"filters file: line ", Part::Number(*n), b" is no rule"),
        End::Locked(until) => lock(*until),
        End::FiltersChanged { now, stored } => filters(now, stored),
        End::BadListing(name, n) => counted(Part::Work(*name), b": line ", *n, b" is bad"),
        End::NeedResync(need) => need_of(need),
        End::ListingsDiffer(path, _, _) => at_path(b"listings differ at ", path),
        End::EmptyPrior(side) => of_side(*side, b": prior listing is empty"),
        End::RemoteFault(side) => of_side(*side, b": remote failed"),
        End::BadPath(side, text) => naming(*side, b": bad path ", text.as_bytes()),
        End::TooMany(side, files, bytes) => too_many(*side, *files, *bytes),
        End::CheckAccess(side, path) => check_file(*side, path),
        End::EmptyCurrent(side) => of_side(*side, b": no files"),
        End::TooManyDeletes(side, gone, all) => too_many_deletes(*side, *gone, *all),
        End::AllChanged(side, n) => counted(Part::Of(*side), b": all ", *n, b" files changed"),
        End::NameTooLong(side, path) => no_room(*side, path),
        End::ListingTooLong(side, bytes) => too_long(*side, *bytes),
        End::OutOfSync(path, _, _) => at_path(b"out of sync at ", path),
        End::Moved(side, path, _, _) => with_path(*side, b": ", path, b" changed during the run"),
        End::SinkFault { .. } => words(b"output failed"),
        End::LockLeft => words(b"lock could not be removed"),
        End::FoldersLeft(_) => words(b"folders were left"),
        End::KeepFault(side) => of_side(*side, b": backup folder failed"),
        End::Checked { differ } => around(b"check done, ", Part::Number(*differ), b" differ"),
        End::NotBuilt => words(b"not built"),
        End::OutOfMemory => words(b"out of memory"),
    }
}

fn usage<'a>(kind: UsageKind) -> Parts<'a>
    ensures { parts_text result ≡ usage_text kind }
{
    match kind {
        UsageKind::Command => words(b"usage: no such command"),
        UsageKind::Words => words(b"usage: words refused"),
        UsageKind::Value(name) => up_to(b"usage: bad value of ", Part::Named(name)),
        UsageKind::Together => words(b"usage: these options do not go together"),
    }
}

fn lock<'a>(until: Until) -> Parts<'a>
    ensures { parts_text result ≡ lock_text until }
{
    match until {
        Until::Unreadable => words(b"locked, lock is unreadable"),
        Until::Never => words(b"locked without end"),
        Until::At(moment) => up_to(b"locked until ", Part::Time(moment)),
    }
}

fn need_of<'a>(need: &'a Need) -> Parts<'a>
    ensures { parts_text result ≡ need_text need.entry.now }
{
    match need {
        Need::NoBase => words(b"no listings, run with --resync"),
        Need::NotRecovering => words(b"last run did not end, run with --recover or --resync"),
        Need::FieldsChanged(stored) => around(
            b"listings were made with ",
            Part::Fields(stored),
            b", run with --resync",
        ),
    }
}

fn filters<'a>(now: &'a [u8; 16], stored: &'a Option<[u8; 16]>) -> Parts<'a>
    ensures { parts_text result
        ≡ codes "filters file changed: " ++ (encode_lower now.now ++ (codes ", stored " ++ stored_text stored.now)) }
{
    let stored = match stored {
        Some(digest) => Part::Digest(digest),
        None => Part::Words(b"-"),
    };
    [
        Part::Words(b"filters file changed: "),
        Part::Digest(now),
        Part::Words(b", stored "),
        stored,
        Part::Words(b""),
        Part::Words(b""),
    ]
}

fn check_file<'a>(side: Side, path: &'a Option<Path>) -> Parts<'a>
    ensures { parts_text result ≡ check_text side path.now }
{
    match path {
        None => words(b"no check file found"),
        Some(path) => with_path(side, b": check file ", path, b" is missing"),
    }
}

fn changes<'a>(word: &'a [u8], one: u64, two: u64) -> Parts<'a>
    ensures { parts_text result ≡ changes_of word.entry.now one two }
{
    [
        Part::Words(word),
        Part::Words(b", "),
        Part::Number(one),
        Part::Words(b" changes on path1, "),
        Part::Number(two),
        Part::Words(b" changes on path2"),
    ]
}

fn too_many<'a>(side: Side, files: u64, bytes: u64) -> Parts<'a>
    ensures { parts_text result ≡ side_text side ++ (codes ": too many files, "
        ++ (decimal files ++ (codes " with " ++ (decimal bytes ++ codes " bytes of names")))) }
{
    [
        Part::Of(side),
        Part::Words(b": too many files, "),
        Part::Number(files),
        Part::Words(b" with "),
        Part::Number(bytes),
        Part::Words(b" bytes of names"),
    ]
}

fn too_many_deletes<'a>(side: Side, gone: u64, all: u64) -> Parts<'a>
    ensures { parts_text result ≡ side_text side ++ (codes ": too many deletes, "
        ++ (decimal gone ++ (codes " of " ++ decimal all))) }
{
    [
        Part::Of(side),
        Part::Words(b": too many deletes, "),
        Part::Number(gone),
        Part::Words(b" of "),
        Part::Number(all),
        Part::Words(b""),
    ]
}

fn no_room<'a>(side: Side, path: &'a Path) -> Parts<'a>
    ensures { parts_text result
        ≡ side_text side ++ (codes ": no room for a conflict name of " ++ quoted path.entry.now) }
{
    naming(side, b": no room for a conflict name of ", path.as_bytes())
}

fn too_long<'a>(side: Side, bytes: u64) -> Parts<'a>
    ensures { parts_text result
        ≡ side_text side ++ (codes ": listing of " ++ (decimal bytes ++ codes " bytes is too long")) }
{
    counted(
        Part::Of(side),
        b": listing of ",
        bytes,
        b" bytes is too long",
    )
}

fn words<'a>(words: &'a [u8]) -> Parts<'a>
    ensures { parts_text result ≡ words.entry.now }
{
    four(Part::Words(words), b"", Part::Words(b""), b"")
}

fn of_side<'a>(side: Side, after: &'a [u8]) -> Parts<'a>
    ensures { parts_text result ≡ side_text side ++ after.entry.now }
{
    four(Part::Of(side), after, Part::Words(b""), b"")
}

fn up_to<'a>(before: &'a [u8], part: Part<'a>) -> Parts<'a>
    ensures { parts_text result ≡ before.entry.now ++ part_text part.entry }
{
    four(Part::Words(b""), before, part, b"")
}

fn around<'a>(before: &'a [u8], part: Part<'a>, after: &'a [u8]) -> Parts<'a>
    ensures { parts_text result ≡ before.entry.now ++ (part_text part.entry ++ after.entry.now) }
{
    four(Part::Words(b""), before, part, after)
}

fn at_path<'a>(before: &'a [u8], path: &'a Path) -> Parts<'a>
    ensures { parts_text result ≡ before.entry.now ++ quoted path.entry.now }
{
    up_to(before, Part::Quoted(path.as_bytes()))
}

fn naming<'a>(side: Side, before: &'a [u8], text: &'a [u8]) -> Parts<'a>
    ensures { parts_text result ≡ side_text side ++ (before.entry.now ++ quoted text.entry.now) }
{
    four(Part::Of(side), before, Part::Quoted(text), b"")
}

fn with_path<'a>(side: Side, before: &'a [u8], path: &'a Path, after: &'a [u8]) -> Parts<'a>
    ensures { parts_text result
        ≡ side_text side ++ (before.entry.now ++ (quoted path.entry.now ++ after.entry.now)) }
{
    four(Part::Of(side), before, Part::Quoted(path.as_bytes()), after)
}

fn counted<'a>(name: Part<'a>, before: &'a [u8], n: u64, after: &'a [u8]) -> Parts<'a>
    ensures { parts_text result
        ≡ part_text name.entry ++ (before.entry.now ++ (decimal n ++ after.entry.now)) }
{
    four(name, before, Part::Number(n), after)
}

/// Four parts, of which the second and the last are words.
fn four<'a>(first: Part<'a>, before: &'a [u8], part: Part<'a>, after: &'a [u8]) -> Parts<'a>
    ensures { parts_text result
        ≡ part_text first.entry ++ (before.entry.now ++ (part_text part.entry ++ after.entry.now)) }
{
    [
        first,
        Part::Words(before),
        part,
        Part::Words(after),
        Part::Words(b""),
        Part::Words(b""),
    ]
}
