ghost use Rattle.std.specs.Prelude.{◌≡◌, ◌<◌, ◌≤◌, length};
ghost use Rattle.bisync_text.specs.Quote.{hex_digit, is_escaped, quoted_byte};

use std::marker::Model;

/// What stands for one byte in a quoted text: the byte itself, or `\x` and two lower-case
/// hexadecimal digits for `"`, `\`, the bytes below 32 and the byte 127.
#[derive(Drop)]
pub struct QuotedByte {
    bytes: [u8; 4],
    len: usize,
}

impl Model for QuotedByte {
    ghost use Rattle.std.specs.Prelude.{◌≤◌, List, ℕ, take};

    ghost Value = { List ℕ };

    ghost view = { λ quoted. take quoted.len quoted.bytes };

    ghost invariant = { λ quoted. quoted.len ≤ 4 };
}

impl QuotedByte {
    /// What stands for the byte. It takes no memory.
    #[tactic(auto, unfolding(crate::specs::Quote::quoted_byte))]
    pub fn new(byte: u8) -> QuotedByte
        ensures { result ≡ quoted_byte byte }
    {
        if is_escaped(byte) {
            QuotedByte {
                bytes: [b'\\', b'x', hex_digit(byte / 16), hex_digit(byte % 16)],
                len: 4,
            }
        } else {
            QuotedByte {
                bytes: [byte, 0, 0, 0],
                len: 1,
            }
        }
    }

    /// Its bytes, of which there are at most 4.
    pub fn as_bytes(&self) -> &[u8]
        ensures bytes { result.now ≡ self.now }
        ensures at_most { length result.now ≤ 4 }
    {
        &self.bytes[..self.len]
    }
}

/// Whether the byte is written as an escape.
pub(crate) fn is_escaped(byte: u8) -> bool
    ensures { result ≡ is_escaped byte }
{
    byte == b'"' || byte == b'\\' || byte < 32 || byte == 127
}

fn hex_digit(digit: u8) -> u8
    requires { digit < 16 }
    ensures { result ≡ hex_digit digit }
{
    if digit < 10 {
        b'0' + digit
    } else {
        b'a' - 10 + digit
    }
}
