ghost use Rattle.std.specs.Prelude.{◌≡◌, ◌<◌, ◌∷◌, ℕ, IfOk, IfErr, IfSome, IfNone};
ghost use Rattle.bisync_text.specs.Quote.{hex_digit, quoted, IsEscape};
ghost use Rattle.bisync_text.specs.QuoteFault.{IsQuoteFault};
ghost use Rattle.bisync_text.specs.Unquote.{is_first_digit, IsPiece};
ghost use Rattle.bisync_text.specs.declared.unquotes.QuoteFault.TheVariants.{OutOfMemory};

use crate::Text;
use crate::quoted_bytes::is_escaped;
use std::alloc::{AllocError, AllocFailed, Global};
use thiserror::Error;

/// Why a text could not be unquoted.
#[derive(Clone, Copy, Debug, PartialEq, Eq, Error)]
pub enum QuoteFault {
    /// It is no quoted text. The number counts the bytes of its longest beginning with which some
    /// quoted text begins, from 0 to the length of the text.
    #[error("Bad")]
    Bad(u64),
    /// Memory was refused.
    #[error("OutOfMemory")]
    OutOfMemory,
}

/// What the rest of a quoted text begins with, after its opening `"`.
enum Piece {
    /// A byte, and how many bytes stand for it.
    Byte(u8, usize),
    /// The closing `"`, and nothing more.
    End,
    /// Neither. So many bytes of it may stand there in some quoted text.
    Bad(usize),
}

fn digit_of(byte: u8) -> Option<u8>
    ensures found { IfSome result (λ digit. (digit < 16) × (byte ≡ hex_digit digit)) }
    ensures none { IfNone result ((digit : ℕ) → digit < 16 → byte ≡ hex_digit digit → ⊥) }
{
    match byte {
        b'0'..=b'9' => Some(byte - b'0'),
        b'a'..=b'f' => Some(byte - b'a' + 10),
        _ => None,
    }
}

// The byte that these digits stand for after `\x`.
fn escaped_byte(high: u8, low: u8) -> Option<u8>
    ensures found { IfSome result (λ byte. IsEscape byte high low) }
    ensures none { IfNone result ((byte : ℕ) → IsEscape byte high low → ⊥) }
{
    let high = digit_of(high)?;
    let low = digit_of(low)?;
    let byte = 16 * high + low;
    if is_escaped(byte) { Some(byte) } else { None }
}

// Whether an escape may have this first digit.
fn is_first_digit(digit: u8) -> bool
    ensures { result ≡ is_first_digit digit }
{
    digit == b'0' || digit == b'1' || digit == b'2' || digit == b'5' || digit == b'7'
}

// What stands after a `\`.
fn escape_of(escape: &[u8]) -> Piece
    ensures { IsPiece result (92 ∷ escape.now) }
{
    if escape.is_empty() || escape[0] != b'x' {
        return Piece::Bad(1);
    }
    if escape.len() < 2 || !is_first_digit(escape[1]) {
        return Piece::Bad(2);
    }
    if escape.len() < 3 {
        return Piece::Bad(3);
    }
    match escaped_byte(escape[1], escape[2]) {
        Some(byte) => Piece::Byte(byte, 4),
        None => Piece::Bad(3),
    }
}

fn piece_of(rest: &[u8]) -> Piece
    ensures { IsPiece result rest.now }
{
    if rest.is_empty() {
        return Piece::Bad(0);
    }
    match rest[0] {
        b'"' if rest.len() == 1 => Piece::End,
        b'"' => Piece::Bad(1),
        b'\\' => escape_of(&rest[1..]),
        byte if is_escaped(byte) => Piece::Bad(0),
        byte => Piece::Byte(byte, 1),
    }
}

/// The bytes that the text quotes. Only texts as [`quote`](crate::quote) writes them are read: no
/// escape in upper case, none of a byte that stands for itself, and nothing after the closing `"`.
pub fn unquote(alloc: Global, text: &[u8]) -> Result<Text, QuoteFault>
    ensures ok { IfOk result (λ bytes. text.now ≡ quoted bytes) }
    ensures err { IfErr result (λ fault. IsQuoteFault fault text.now) }
{
    let [b'"', rest @ ..] = text else {
        return Err(QuoteFault::Bad(0));
    };
    let mut rest = rest;
    let mut bytes = Vec::with_capacity(alloc, rest.len())?;
    loop {
        match piece_of(rest) {
            Piece::Byte(byte, len) => {
                bytes.push(byte)?;
                rest = &rest[len..];
            }
            Piece::End => return Ok(Text::from_vec(bytes)),
            Piece::Bad(len) => return Err(QuoteFault::Bad((text.len() - rest.len() + len) as u64)),
        }
    }
}

impl From<AllocError> for QuoteFault {
    ghost from_gives = { λ _ e. e ≡ OutOfMemory };

    fn from(_: AllocError) -> Self {
        QuoteFault::OutOfMemory
    }
}

impl<T: Drop> From<AllocFailed<T>> for QuoteFault {
    ghost from_gives = { λ _ e. e ≡ OutOfMemory };

    fn from(_: AllocFailed<T>) -> Self {
        QuoteFault::OutOfMemory
    }
}

#[cfg(test)]
mod tests {
    use super::*;
    use std::test::Fail;

    #[test]
    fn reads_quoted_texts(rt: HostRuntime) -> Result<(), Fail> {
        let cases = [
            (b"\"a\\x22\"".as_slice(), b"a\"".as_slice()),
            (b"\"\"".as_slice(), b"".as_slice()),
            (
                b"\"\\x0f\\x5c\\x7f z\xff\"".as_slice(),
                b"\x0f\\\x7f z\xff".as_slice(),
            ),
        ];
        for (text, bytes) in cases {
            assert_eq!(rt; unquote(rt.alloc(), text)?.as_bytes(), bytes);
        }
        Ok(())
    }

    #[test]
    fn counts_the_right_beginning(rt: HostRuntime) -> Result<(), Fail> {
        let cases = [
            (b"".as_slice(), 0),
            (b"a".as_slice(), 0),
            (b"\"".as_slice(), 1),
            (b"\"ab".as_slice(), 3),
            // `A` stands for itself, so no escape of it is read: after `\x4` nothing can follow.
            (b"\"a\\x41\"".as_slice(), 4),
            (b"\"a\\x4".as_slice(), 4),
            (b"\"\\x5C\"".as_slice(), 4),
            (b"\"\\x0F\"".as_slice(), 4),
            (b"\"\\n\"".as_slice(), 2),
            (b"\"\\x".as_slice(), 3),
            (b"\"\\x1".as_slice(), 4),
            (b"\"a\nb\"".as_slice(), 2),
            (b"\"ab\"c".as_slice(), 4),
            (b"\"ab\"\"".as_slice(), 4),
        ];
        for (text, right) in cases {
            assert_eq!(rt;
                unquote(rt.alloc(), text).err(),
                Some(QuoteFault::Bad(right))
            );
        }
        Ok(())
    }
}
