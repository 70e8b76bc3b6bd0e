//! The text of a lock.

ghost use Rattle.std.specs.Prelude.{◌≡◌, ℕ, List, None, Some, IfSome, IfNone};
ghost use Rattle.bisync_tree.specs.Ranges.{IsLongEnough};
ghost use Rattle.bisync_work.specs.LockBytes.{lock_bytes};
ghost use Rattle.bisync_work.specs.LockTexts.{SaysUntil, expiry_of, lock_text, lock_with};

use bisync_text::{read_time, time_text};
use bisync_tree::Until;

/// The first line, and the second up to its last word.
const FRONT: &[u8; 23] = b"bisync lock v1\nexpires ";

/// The text of a lock without an expiry.
const NEVER: &[u8; 29] = b"bisync lock v1\nexpires never\n";

/// The text of a lock.
#[derive(Drop)]
pub enum LockText {
    Never,
    At([u8; 58]),
}

impl LockText {
    /// The text of a lock that is written at the moment `now` and holds as long as `max_lock` says.
    pub fn new(now: i64, max_lock: Option<i64>) -> LockText
        requires { IsLongEnough max_lock }
        ensures { lock_bytes result ≡ lock_text (expiry_of now max_lock) }
    {
        match max_lock {
            None => LockText::Never,
            Some(time) => LockText::At(expiring_text(now.saturating_add(time))),
        }
    }

    pub fn as_bytes(&self) -> &[u8]
        ensures { result.now ≡ lock_bytes self.now }
    {
        match self {
            LockText::Never => NEVER,
            LockText::At(text) => text,
        }
    }
}

/// The text of a lock that expires at that moment.
fn expiring_text(moment: i64) -> [u8; 58]
    ensures { result ≡ lock_text (Some moment) }
{
    let mut text = [b'\n'; 58];
    text[..23].copy_from_slice(FRONT);
    text[23..57].copy_from_slice(&time_text(moment));
    text
}

/// Until when a lock with this text holds.
pub fn read_until(text: &[u8]) -> Until
    ensures { SaysUntil result text.now }
{
    match word_in(text) {
        Some(b"never") => Until::Never,
        Some(word) => match read_time(word) {
            Some(moment) => Until::At(moment),
            None => Until::Unreadable,
        },
        None => Until::Unreadable,
    }
}

/// The last word of a lock's text.
fn word_in(text: &[u8]) -> Option<&[u8]>
    ensures found { IfSome result (λ word. text.now ≡ lock_with word.now) }
    ensures none { IfNone result ((word : List ℕ) → text.now ≡ lock_with word → ⊥) }
{
    let rest = text.strip_prefix(FRONT)?;
    rest.strip_suffix(b"\n")
}
