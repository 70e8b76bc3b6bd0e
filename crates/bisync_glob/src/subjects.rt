ghost use Rattle.std.specs.Prelude.{◌≡◌, ◌≤◌, [], chars, length};

use crate::decoding::decode;
use bisync_text::Path;
use std::marker::Model;

/// The most characters of a path.
pub const MAX_CHARS: usize = 4096;

/// The characters of a path, read once for all the patterns that are tried on it.
///
/// One subject serves any number of paths, one after the other, and takes no memory from an allocator.
#[derive(Drop)]
pub struct Subject {
    chars: [char; MAX_CHARS],
    len: usize,
}

impl Model for Subject {
    ghost use Rattle.std.specs.Prelude.{◌≤◌, List, ℕ, take};

    ghost Value = { List ℕ };

    ghost view = { λ subject. take subject.len subject.chars };

    ghost invariant = { λ subject. subject.len ≤ 4096 };
}

impl Subject {
    /// No characters.
    pub fn new() -> Subject
        ensures { result ≡ [] }
    {
        Subject {
            chars: ['\0'; MAX_CHARS],
            len: 0,
        }
    }

    /// The characters of a path, in place of those before.
    pub fn set(&mut self, path: &Path)
        ensures { self.new ≡ chars path.now }
    {
        if let Ok(text) = std::str::from_utf8(path.as_bytes()) {
            self.len = decode(text, &mut self.chars);
        }
    }

    pub(crate) fn chars(&self) -> &[char]
        ensures chars { result.now ≡ self.now }
        ensures few { length self.now ≤ 4096 }
    {
        &self.chars[..self.len]
    }
}
