//! How a path changed on a side.

ghost use Rattle.std.specs.Prelude.{◌≡◌, option_copied};
ghost use Rattle.bisync_table.specs.Delta.{delta_of, difference as difference_of};

use crate::Delta;
use bisync_tree::{Compare, Entry, same};

/// How a path changed on a side, from its base entry and its entry now. None exactly where it is
/// Quiet.
pub fn delta(compare: &Compare, base: Option<&Entry>, now: Option<&Entry>) -> Option<Delta>
    ensures { result ≡ delta_of compare.now (option_copied base.entry) (option_copied now.entry) }
{
    if same(compare, base, now) {
        return None;
    }
    match (base, now) {
        (_, None) => Some(Delta::Deleted),
        (None, Some(_)) => Some(Delta::New),
        (Some(base), Some(now)) => Some(difference(compare, base, now)),
    }
}

/// The first difference of two entries.
fn difference(compare: &Compare, base: &Entry, now: &Entry) -> Delta
    ensures { result ≡ difference_of compare.now base.now now.now }
{
    let before = compare.window.number(base.time);
    let after = compare.window.number(now.time);
    if compare.time && before < after {
        Delta::Newer
    } else if compare.time && after < before {
        Delta::Older
    } else if compare.size && base.size != now.size {
        Delta::Size
    } else {
        Delta::Hash
    }
}
