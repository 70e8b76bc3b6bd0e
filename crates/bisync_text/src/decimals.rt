//! Decimals. They are written by `itoa`, whose `Buffer` takes no memory: `Buffer::new().format(n).as_bytes()`.

ghost use Rattle.std.specs.Prelude.{◌≡◌, ◌<◌, ◌≤◌, ◌^◌, ℕ, length, decimal, Some, IfSome};
ghost use Rattle.std.specs.List.{All};
ghost use Rattle.bisync_text.specs.Digits.{IsDigit};
ghost use Rattle.bisync_text.specs.Decimal.{HasOneDecimal, HasItsOwnDecimal, HasNoLeadingZero};

use itoa::Buffer;

/// The number of a decimal: `0`, or one to twenty digits of which the first isn't `0`, with a value below 2^64. None where
/// the text has another form.
pub fn read_decimal(text: &[u8]) -> Option<u64>
    ensures found { IfSome result (λ n. text.now ≡ decimal n) }
    ensures exact { (n : ℕ) → n < 2 ^ 64 → text.now ≡ decimal n → result ≡ Some n }
{
    let n = number_of(text)?;
    let mut buffer = Buffer::new();
    if buffer.format(n).as_bytes() != text {
        return None;
    }
    Some(n)
}

/// The laws of decimals: a text is the decimal of a number below 2^64 exactly where it is `0`, or one to twenty digits of
/// which the first isn't `0`, and the number is their value. No text is that of two numbers, and a decimal has one to
/// twenty digits and no other byte, and begins with `0` only where it is `0`.
pub fn decimals_have_one_text()
    ensures one_text { (n : ℕ) → n < 2 ^ 64 → HasOneDecimal n }
    ensures own_text { (n : ℕ) → n < 2 ^ 64 → HasItsOwnDecimal n }
    ensures some { (n : ℕ) → n < 2 ^ 64 → 0 < length (decimal n) }
    ensures short { (n : ℕ) → n < 2 ^ 64 → length (decimal n) ≤ 20 }
    ensures digits { (n : ℕ) → n < 2 ^ 64 → All IsDigit (decimal n) }
    ensures first { (n : ℕ) → n < 2 ^ 64 → HasNoLeadingZero n }
{}

// The number of a text that std reads, also with a sign or zeros in front.
fn number_of(text: &[u8]) -> Option<u64>
    ensures { (n : ℕ) → n < 2 ^ 64 → text.now ≡ decimal n → result ≡ Some n }
{
    match std::str::from_utf8(text) {
        Ok(text) => text.parse().ok(),
        Err(_) => None,
    }
}

#[cfg(test)]
mod tests {
    use super::*;

    #[test]
    fn decimals_are_read_as_they_are_written(rt: HostRuntime) {
        let known: [(&[u8], u64); 5] = [
            (b"0", 0),
            (b"7", 7),
            (b"10", 10),
            (b"9999999999999999999", 9_999_999_999_999_999_999),
            (b"18446744073709551615", u64::MAX),
        ];
        for (text, n) in known {
            assert_eq!(rt; read_decimal(text), Some(n));
        }
    }

    #[test]
    fn other_texts_are_no_decimals(rt: HostRuntime) {
        let refused: [&[u8]; 13] = [
            b"",
            b"007",
            b"00",
            b"18446744073709551616",
            b"99999999999999999999",
            b"100000000000000000000",
            b"000000000000000000001",
            b"+1",
            b"-1",
            b"1 ",
            b" 1",
            b"1a",
            b"\xff",
        ];
        for text in refused {
            assert_eq!(rt; read_decimal(text), None);
        }
    }
}
