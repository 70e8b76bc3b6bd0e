//! The line of one file.

ghost use Rattle.std.specs.Prelude.{◌≡◌, IfOk, MatchOption};
ghost use Rattle.bisync_tree.specs.Rows.{PathBytes};
ghost use Rattle.bisync_tree.specs.declared.entries.Entry.{Entry};
ghost use Rattle.bisync_listing.specs.Spelling.{file_line};
ghost use Rattle.bisync_listing.specs.ListingText.{IsListed};

use crate::file_words::{FileWords, file_words};
use crate::paths::read_path;
use bisync_text::{OutOfMemory, Path};
use bisync_tree::Entry;
use std::alloc::Global;

/// The file that the line names.
pub(crate) fn read_row(alloc: Global, line: &[u8]) -> Result<Option<(Path, Entry)>, OutOfMemory>
    ensures { IfOk result (λ found. MatchOption found
        ((row : PathBytes × Entry) → IsListed row → line.now ≡ file_line row → ⊥)
        (λ row. IsListed row × (line.now ≡ file_line row))) }
{
    let Some(
        FileWords {
            size,
            hash,
            time,
            quoted,
        },
    ) = file_words(line)
    else {
        return Ok(None);
    };
    let Some(path) = read_path(alloc, quoted)? else {
        return Ok(None);
    };
    Ok(Some((path, Entry { size, time, hash })))
}
