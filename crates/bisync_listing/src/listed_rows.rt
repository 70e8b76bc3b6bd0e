//! The rows of a listing are those that a listing text may have. Nothing is computed here.

ghost use Rattle.std.specs.Prelude.{◌≡◌, IfSome};
ghost use Rattle.std.specs.List.{AllByRecursion};
ghost use Rattle.bisync_tree.specs.Rows.{keys, AreRising};
ghost use Rattle.bisync_listing.specs.ListingText.{IsDigest, IsListed};

use bisync_text::Path;
use bisync_tree::{Entry, Listing};

fn see_digest(bytes: &[u8; 16])
    ensures { IsDigest bytes.now }
{
    let _bytes = bytes.as_slice();
}

fn see_hash(hash: &Option<[u8; 16]>)
    ensures { IfSome hash.now IsDigest }
{
    if let Some(bytes) = hash {
        see_digest(bytes);
    }
}

fn see_row(path: &Path, entry: &Entry)
    ensures { IsListed (path.now, entry.now) }
{
    let _path = path.as_bytes();
    let _size = entry.size;
    let _time = entry.time;
    see_hash(&entry.hash);
}

/// Each row has a path, and values that a line can show.
pub(crate) fn see_rows(listing: &Listing)
    ensures rising { AreRising (keys listing.now) }
    ensures each { AllByRecursion IsListed listing.now }
{
    for i in 0..listing.len() {
        see_row(listing.path_at(i), listing.entry_at(i));
    }
}
