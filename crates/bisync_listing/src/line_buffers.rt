ghost use Rattle.std.specs.Prelude.{◌≡◌, ◌+◌, ◌<◌, ◌≤◌, [], ◌∷◌, ◌++◌, length, decimal};

use itoa::Buffer;
use std::marker::Model;

/// The most bytes that a line has, with its newline.
pub(crate) const MAX_ENDED: usize = 16_484;

/// The bytes of one line. It takes no memory.
#[derive(Drop)]
pub(crate) struct LineBuffer {
    bytes: [u8; 16_484],
    len: usize,
}

impl Model for LineBuffer {
    ghost use Rattle.std.specs.Prelude.{◌≤◌, List, ℕ, take};

    ghost Value = { List ℕ };

    ghost view = { λ line. take line.len line.bytes };

    ghost invariant = { λ line. line.len ≤ 16484 };
}

impl LineBuffer {
    pub fn new() -> LineBuffer
        ensures { result ≡ [] }
    {
        LineBuffer {
            bytes: [0; 16_484],
            len: 0,
        }
    }

    pub fn len(&self) -> usize
        ensures { result ≡ length self.now }
    {
        self.len
    }

    pub fn as_bytes(&self) -> &[u8]
        ensures value { result.now ≡ self.now }
        ensures len { length result.now ≤ 16484 }
    {
        &self.bytes[..self.len]
    }

    pub fn clear(&mut self)
        ensures { self.new ≡ [] }
    {
        self.len = 0;
    }

    pub fn push(&mut self, byte: u8)
        requires { length self.old < 16484 }
        ensures bytes { self.new ≡ self.old ++ byte ∷ [] }
        ensures len { length self.new ≡ length self.old + 1 }
    {
        self.bytes[self.len] = byte;
        self.len += 1;
    }

    pub fn push_all(&mut self, bytes: &[u8])
        requires { length self.old + length bytes.now ≤ 16484 }
        ensures bytes { self.new ≡ self.old ++ bytes.now }
        ensures len { length self.new ≡ length self.old + length bytes.now }
    {
        let end = self.len + bytes.len();
        self.bytes[self.len..end].copy_from_slice(bytes);
        self.len = end;
    }

    /// Adds a number of at most 20 digits.
    pub fn push_decimal(&mut self, n: u64)
        requires { length self.old + 20 ≤ 16484 }
        ensures bytes { self.new ≡ self.old ++ decimal n }
        ensures len { length self.new ≤ length self.old + 20 }
    {
        let mut buffer = Buffer::new();
        self.push_all(buffer.format(n).as_bytes());
    }
}
