//! The options whose text is one of a few words.

ghost use Rattle.std.specs.Prelude.{◌≡◌};
ghost use Rattle.bisync_opts.specs.Choices.{preference, window, loser, check_sync};

use crate::CheckSync;
use bisync_tree::{Loser, Prefer, Window};

/// Which of two files wins.
pub fn preference(text: &str) -> Option<Prefer>
    ensures { result ≡ preference text.now }
{
    match text {
        "none" => Some(Prefer::Nobody),
        "path1" => Some(Prefer::Path1),
        "path2" => Some(Prefer::Path2),
        "newer" => Some(Prefer::Newer),
        "older" => Some(Prefer::Older),
        "larger" => Some(Prefer::Larger),
        "smaller" => Some(Prefer::Smaller),
        _ => None,
    }
}

/// What becomes of the loser of a conflict.
pub fn loser(text: &str) -> Option<Loser>
    ensures { result ≡ loser text.now }
{
    match text {
        "num" => Some(Loser::Num),
        "pathname" => Some(Loser::Pathname),
        "delete" => Some(Loser::Delete),
        _ => None,
    }
}

/// How exactly times are compared.
pub fn window(text: &str) -> Option<Window>
    ensures { result ≡ window text.now }
{
    match text {
        "1ns" => Some(Window::Ns1),
        "100ns" => Some(Window::Ns100),
        "1us" => Some(Window::Us1),
        "1ms" => Some(Window::Ms1),
        "1s" => Some(Window::S1),
        "2s" => Some(Window::S2),
        _ => None,
    }
}

/// When the two listings are compared.
pub fn check_sync(text: &str) -> Option<CheckSync>
    ensures { result ≡ check_sync text.now }
{
    match text {
        "true" => Some(CheckSync::Always),
        "false" => Some(CheckSync::Never),
        "only" => Some(CheckSync::Only),
        _ => None,
    }
}
