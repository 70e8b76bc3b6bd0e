//! Durations, as in rclone's options: hours, minutes and seconds.

ghost use Rattle.std.specs.Prelude.{◌≡◌, ◌<◌, ◌+◌, ◌*◌, ◌^◌, ℤ, Some, IfSome, option_map};
ghost use Rattle.bisync_text.specs.Duration.{IsDuration, nanos_of};
ghost use Rattle.bisync_text.specs.DurationParts.{count_at, part_at};
ghost use Rattle.bisync_text.specs.Digits.{is_digit};
ghost use Rattle.std.specs.List.{prefix_len};

use crate::digits::{byte, number};

const ZERO: &[u8] = b"0";

const MAX_DIGITS: usize = 6;

/// The nanoseconds of a duration: `0`, or one or more of the parts `<n>h`, `<n>m` and `<n>s` in this order, each at most
/// once, where n has one to six digits. None where the text has another form. No duration is past 64 bits.
pub fn read_duration(text: &[u8]) -> Option<i64>
    ensures found { IfSome result (λ t. IsDuration text.now t) }
    ensures exact { (t : ℤ) → IsDuration text.now t → result ≡ Some t }
{
    if text == ZERO {
        return Some(0);
    }
    if text.is_empty() {
        return None;
    }
    let (hours, rest) = part(b'h', text);
    let (minutes, rest) = part(b'm', rest);
    let (seconds, rest) = part(b's', rest);
    if !rest.is_empty() {
        return None;
    }
    Some(nanoseconds(hours, minutes, seconds) as i64)
}

fn nanoseconds(hours: u64, minutes: u64, seconds: u64) -> u64
    requires hours { hours < 10 ^ 6 }
    requires minutes { minutes < 10 ^ 6 }
    requires seconds { seconds < 10 ^ 6 }
    ensures value { result ≡ nanos_of hours minutes seconds }
    ensures bound { result < 2 ^ 63 }
{
    (hours * 3600 + minutes * 60 + seconds) * 1_000_000_000
}

// The number of that unit, and the bytes after it: 0, and all bytes, where the text begins otherwise.
#[tactic(auto, unfolding(crate::specs::DurationParts::part_at))]
fn part(unit: u8, bytes: &[u8]) -> (u64, &[u8])
    ensures part { (result.0, result.1.now) ≡ part_at unit bytes.now }
    ensures small { result.0 < 10 ^ 6 }
{
    match count(unit, bytes) {
        Some(found) => found,
        None => (0, bytes),
    }
}

#[tactic(auto, unfolding(crate::specs::DurationParts::count_at))]
fn count(unit: u8, bytes: &[u8]) -> Option<(u64, &[u8])>
    ensures { option_map (λ x. (x.0, x.1.now)) result ≡ count_at unit bytes.now }
{
    let digits = front_digits(bytes);
    if digits == 0 || digits > MAX_DIGITS {
        return None;
    }
    let (n, rest) = number(digits, bytes)?;
    let rest = byte(unit, rest)?;
    Some((n, rest))
}

fn front_digits(bytes: &[u8]) -> usize
    ensures { result ≡ prefix_len is_digit bytes.now }
{
    bytes
        .iter()
        .take_while(|b| **b >= b'0' && **b <= b'9')
        .count()
}

#[cfg(test)]
mod tests {
    use super::*;

    #[test]
    fn durations_have_the_sum_of_their_parts(rt: HostRuntime) {
        let known: [(&[u8], i64); 11] = [
            (b"1h30m", 5_400_000_000_000),
            (b"2m", 120_000_000_000),
            (b"90s", 90_000_000_000),
            (b"1h2m3s", 3_723_000_000_000),
            (b"1h3s", 3_603_000_000_000),
            (b"0", 0),
            (b"0s", 0),
            (b"0h0m0s", 0),
            (b"000001s", 1_000_000_000),
            (b"999999s", 999_999_000_000_000),
            (b"999999h999999m999999s", 3_660_996_339_000_000_000),
        ];
        for (text, ns) in known {
            assert_eq!(rt; read_duration(text), Some(ns));
        }
    }

    #[test]
    fn other_texts_are_no_durations(rt: HostRuntime) {
        let refused: [&[u8]; 17] = [
            b"",
            b"m",
            b"30m1h",
            b"00",
            b"1",
            b"1h30",
            b"1h1h",
            b"1s1s",
            b"1s1m",
            b"1000000s",
            b"0000001s",
            b"1h 30m",
            b"1h30m ",
            b"+1s",
            b"-1s",
            b"1.5h",
            b"1H",
        ];
        for text in refused {
            assert_eq!(rt; read_duration(text), None);
        }
    }
}
