ghost use Rattle.std.specs.Prelude.{◌≡◌, ◌==◌, List, ℕ, IfOk, IfErr};
ghost use Rattle.std.specs.List.{list_all, list_any};
ghost use Rattle.bisync_text.specs.Path.{IsLastPart, IsPath, is_name, names};
ghost use Rattle.bisync_text.specs.PathFault.{IsFirstFault};

use crate::{OutOfMemory, Text};
use std::alloc::Global;
use std::marker::Model;
use thiserror::Error;

const MAX_LEN: usize = 4096;

/// The name under which a commit is written before it is renamed. No path has it.
const PARTIAL_NAME: &[u8] = b".bisync-partial";

/// Why a text is no path: the first of these that holds. The faults and their order are this
/// project's own.
#[derive(Clone, Copy, Debug, PartialEq, Eq, Error)]
pub enum PathFault {
    /// The text has no bytes.
    #[error("Empty")]
    Empty,
    /// The text has more than 4,096 bytes.
    #[error("TooLong")]
    TooLong,
    /// The text is no UTF-8.
    #[error("NotUtf8")]
    NotUtf8,
    /// A name is empty, `.` or `..` or has a NUL, or the text is `.bisync-partial`.
    #[error("BadPart")]
    BadPart,
    /// The text is a path, and memory was refused.
    #[error("OutOfMemory")]
    OutOfMemory,
}

/// Names joined by `/`. No name is empty, `.` or `..`. The text is UTF-8, has no NUL and from 1 to
/// 4,096 bytes, and is not `.bisync-partial`.
#[derive(Drop)]
pub struct Path {
    text: Text,
}

impl Model for Path {
    ghost use Rattle.std.specs.Prelude.{List, ℕ};
    ghost use Rattle.bisync_text.specs.Path.{IsPath};

    ghost Value = { List ℕ };

    ghost view = { λ path. path.text };

    ghost invariant = { λ path. IsPath path.text };
}

fn has_nul(text: &[u8]) -> bool
    ensures { result ≡ list_any (λ b. b == 0) text.now }
{
    text.iter().any(|b| *b == 0)
}

/// Whether a text may stand as a name of a path.
fn is_name(name: &[u8]) -> bool
    ensures { result ≡ is_name name.now }
{
    if name.is_empty() || name == b".".as_slice() || name == b"..".as_slice() {
        return false;
    }
    !has_nul(name)
}

fn has_names(text: &[u8]) -> bool
    ensures { result ≡ list_all is_name (names text.now) }
{
    text.split(|b| *b == b'/').all(|name| is_name(name))
}

// What follows the last slash, or the whole text where there is none.
fn after_last_slash(text: &[u8]) -> &[u8]
    ensures { IsLastPart text.now result.now }
{
    let mut start = text.len();
    while start > 0 && text[start - 1] != b'/' {
        start -= 1;
    }
    &text[start..]
}

impl Path {
    /// The path of the text, or the first fault of it.
    pub fn read(alloc: Global, text: &[u8]) -> Result<Path, PathFault>
        ensures ok { IfOk result (λ path. (path ≡ text.now) × IsPath text.now) }
        ensures err { IfErr result (λ fault. IsFirstFault fault text.now) }
    {
        if text.is_empty() {
            return Err(PathFault::Empty);
        }
        if text.len() > MAX_LEN {
            return Err(PathFault::TooLong);
        }
        if std::str::from_utf8(text).is_err() {
            return Err(PathFault::NotUtf8);
        }
        if text == PARTIAL_NAME || !has_names(text) {
            return Err(PathFault::BadPart);
        }
        match Text::from_bytes(alloc, text) {
            Ok(text) => Ok(Path { text }),
            Err(OutOfMemory) => Err(PathFault::OutOfMemory),
        }
    }

    /// The text of the path.
    pub fn as_bytes(&self) -> &[u8]
        ensures bytes { result.now ≡ self.now }
        ensures path { IsPath self.now }
    {
        self.text.as_bytes()
    }

    /// The last of the names.
    pub fn last_part(&self) -> &[u8]
        ensures { IsLastPart self.now result.now }
    {
        after_last_slash(self.as_bytes())
    }

    /// A path of the same text.
    pub fn copy(&self, alloc: Global) -> Result<Path, OutOfMemory>
        ensures { IfOk result (λ path. path ≡ self.now) }
    {
        Ok(Path {
            text: self.text.copy(alloc)?,
        })
    }
}

/// A law: a text has one last part.
pub fn last_parts_are_unique()
    ensures { (text part other : List ℕ) → IsLastPart text part → IsLastPart text other → part ≡ other }
{}

#[cfg(test)]
mod tests {
    use super::*;
    use std::test::Fail;

    #[test]
    fn reads_and_copies_paths(rt: HostRuntime) -> Result<(), Fail> {
        let letters = vec![in rt.alloc(); b'a'; 4096]?;
        let cases = [
            (b"a/b.txt".as_slice(), b"b.txt".as_slice()),
            (
                b"sub/.bisync-partial".as_slice(),
                b".bisync-partial".as_slice(),
            ),
            (b"k.txt".as_slice(), b"k.txt".as_slice()),
            (b"a/b/...".as_slice(), b"...".as_slice()),
            (letters.as_slice(), letters.as_slice()),
        ];
        for (text, last) in cases {
            let path = Path::read(rt.alloc(), text)?;
            assert_eq!(rt; path.as_bytes(), text);
            assert_eq!(rt; path.copy(rt.alloc())?.as_bytes(), text);
            assert_eq!(rt; path.last_part(), last);
        }
        Ok(())
    }

    #[test]
    fn tells_the_first_fault(rt: HostRuntime) -> Result<(), Fail> {
        let letters = vec![in rt.alloc(); b'a'; 4097]?;
        let cases = [
            (b"".as_slice(), PathFault::Empty),
            (letters.as_slice(), PathFault::TooLong),
            (b"\xff".as_slice(), PathFault::NotUtf8),
            (b"../\xff".as_slice(), PathFault::NotUtf8),
            (b"a//b".as_slice(), PathFault::BadPart),
            (b"../x".as_slice(), PathFault::BadPart),
            (b"a/.".as_slice(), PathFault::BadPart),
            (b"/a".as_slice(), PathFault::BadPart),
            (b"a/".as_slice(), PathFault::BadPart),
            (b"a\0b".as_slice(), PathFault::BadPart),
            (b".bisync-partial".as_slice(), PathFault::BadPart),
        ];
        for (text, fault) in cases {
            assert_eq!(rt; Path::read(rt.alloc(), text).err(), Some(fault));
        }
        Ok(())
    }
}
