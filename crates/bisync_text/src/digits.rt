//! Decimal digits: numbers with a fixed count of digits, read from the front of a text and written.

ghost use Rattle.std.specs.Prelude.{◌≡◌, ◌≤◌, ◌+◌, ◌%◌, length, option_map};
ghost use Rattle.bisync_text.specs.Digits.{value_after, number_at, byte_at, padded};

/// The number that the first digits spell, and the bytes after them.
#[tactic(auto, unfolding(crate::specs::Digits::number_at))]
pub(crate) fn number(count: usize, bytes: &[u8]) -> Option<(u64, &[u8])>
    requires { count ≤ 19 }
    ensures { option_map (λ x. (x.0, x.1.now)) result ≡ number_at count bytes.now }
{
    if bytes.len() < count {
        return None;
    }
    let (front, rest) = bytes.split_at(count);
    let n = number_of(front)?;
    Some((n, rest))
}

/// The bytes after that first byte.
#[tactic(auto, unfolding(crate::specs::Digits::byte_at))]
pub(crate) fn byte(wanted: u8, bytes: &[u8]) -> Option<&[u8]>
    ensures { option_map (λ x. x.now) result ≡ byte_at wanted bytes.now }
{
    match bytes {
        [first, rest @ ..] if *first == wanted => Some(rest),
        _ => None,
    }
}

/// The last two digits.
#[tactic(auto, unfolding(crate::specs::Digits::padded))]
pub(crate) fn two_digits(n: u64) -> [u8; 2]
    ensures { result ≡ padded 2 n }
{
    [last_digit(n / 10), last_digit(n)]
}

/// The last four digits.
#[tactic(auto, unfolding(crate::specs::Digits::padded))]
pub(crate) fn four_digits(n: u64) -> [u8; 4]
    ensures { result ≡ padded 4 n }
{
    let tens = n / 10;
    let hundreds = tens / 10;
    [
        last_digit(hundreds / 10),
        last_digit(hundreds),
        last_digit(tens),
        last_digit(n),
    ]
}

/// The last nine digits.
#[tactic(auto, unfolding(crate::specs::Digits::padded))]
pub(crate) fn nine_digits(n: u64) -> [u8; 9]
    ensures { result ≡ padded 9 n }
{
    let n1 = n / 10;
    let n2 = n1 / 10;
    let n3 = n2 / 10;
    let n4 = n3 / 10;
    let n5 = n4 / 10;
    let n6 = n5 / 10;
    let n7 = n6 / 10;
    [
        last_digit(n7 / 10),
        last_digit(n7),
        last_digit(n6),
        last_digit(n5),
        last_digit(n4),
        last_digit(n3),
        last_digit(n2),
        last_digit(n1),
        last_digit(n),
    ]
}

fn last_digit(n: u64) -> u8
    ensures { result ≡ 48 + n % 10 }
{
    b'0' + (n % 10) as u8
}

// The number that these digits spell. None where a byte is no digit.
fn number_of(digits: &[u8]) -> Option<u64>
    requires { length digits.now ≤ 19 }
    ensures { result ≡ value_after 0 digits.now }
{
    let mut n: u64 = 0;
    for c in digits {
        if *c < b'0' || *c > b'9' {
            return None;
        }
        n = 10 * n + (*c - b'0') as u64;
    }
    Some(n)
}
