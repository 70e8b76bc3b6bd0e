//! The words for sides, changes, options and the names of a work folder.

ghost use Rattle.std.specs.Prelude.{◌≡◌};
ghost use Rattle.bisync_listing.specs.Spelling.{fields_text};
ghost use Rattle.bisync_report.specs.Names.{side_text, delta_text, option_text, work_text};

use bisync_device::WorkName;
use bisync_opts::OptName;
use bisync_table::Delta;
use bisync_tree::{Compare, Side};

pub fn side_name(side: Side) -> &'static [u8]
    ensures { result.now ≡ side_text side }
{
    match side {
        Side::One => b"path1".as_slice(),
        Side::Two => b"path2".as_slice(),
    }
}

pub fn delta_name(delta: Delta) -> &'static [u8]
    ensures { result.now ≡ delta_text delta }
{
    match delta {
        Delta::New => b"new".as_slice(),
        Delta::Newer => b"newer".as_slice(),
        Delta::Older => b"older".as_slice(),
        Delta::Size => b"size".as_slice(),
        Delta::Hash => b"hash".as_slice(),
        Delta::Deleted => b"deleted".as_slice(),
    }
}

pub fn option_name(name: OptName) -> &'static [u8]
    ensures { result.now ≡ option_text name }
{
    match name {
        OptName::Path1 => b"PATH1".as_slice(),
        OptName::Path2 => b"PATH2".as_slice(),
        OptName::ResyncMode => b"--resync-mode".as_slice(),
        OptName::Compare => b"--compare".as_slice(),
        OptName::TimeWindow => b"--time-window".as_slice(),
        OptName::ConflictResolve => b"--conflict-resolve".as_slice(),
        OptName::ConflictLoser => b"--conflict-loser".as_slice(),
        OptName::ConflictSuffix => b"--conflict-suffix".as_slice(),
        OptName::MaxDelete => b"--max-delete".as_slice(),
        OptName::CheckFilename => b"--check-filename".as_slice(),
        OptName::CheckSync => b"--check-sync".as_slice(),
        OptName::FiltersFile => b"--filters-file".as_slice(),
        OptName::Workdir => b"--workdir".as_slice(),
        OptName::BackupDir1 => b"--backup-dir1".as_slice(),
        OptName::BackupDir2 => b"--backup-dir2".as_slice(),
        OptName::MaxLock => b"--max-lock".as_slice(),
        OptName::Number => b"number".as_slice(),
    }
}

pub fn work_name(name: WorkName) -> &'static [u8]
    ensures { result.now ≡ work_text name }
{
    match name {
        WorkName::One => b"1.lst".as_slice(),
        WorkName::Two => b"2.lst".as_slice(),
        WorkName::OneOld => b"1.lst-old".as_slice(),
        WorkName::TwoOld => b"2.lst-old".as_slice(),
        WorkName::OneNew => b"1.lst-new".as_slice(),
        WorkName::TwoNew => b"2.lst-new".as_slice(),
        WorkName::OneErr => b"1.lst-err".as_slice(),
        WorkName::TwoErr => b"2.lst-err".as_slice(),
        WorkName::Lock => b"lock".as_slice(),
        WorkName::LockNew => b"lock-new".as_slice(),
        WorkName::Folders => b"folders".as_slice(),
        WorkName::FoldersNew => b"folders-new".as_slice(),
        WorkName::Filters => b"filters".as_slice(),
        WorkName::FiltersMd5 => b"filters.md5".as_slice(),
    }
}

/// The names of the compared fields, joined by commas, as in the header of a listing.
pub fn field_names(fields: &Compare) -> &'static [u8]
    ensures { result.now ≡ fields_text fields.now }
{
    match (fields.size, fields.time, fields.hash) {
        (true, false, false) => b"size".as_slice(),
        (false, true, false) => b"modtime".as_slice(),
        (false, false, true) => b"checksum".as_slice(),
        (true, true, false) => b"size,modtime".as_slice(),
        (true, false, true) => b"size,checksum".as_slice(),
        (false, true, true) => b"modtime,checksum".as_slice(),
        (true, true, true) => b"size,modtime,checksum".as_slice(),
        (false, false, false) => b"".as_slice(),
    }
}
