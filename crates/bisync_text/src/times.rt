//! Time texts: the civil time in UTC of the proleptic Gregorian calendar (ISO 8601), to the nanosecond.

ghost use Rattle.std.specs.Prelude.{◌≡◌, ◌≤◌, ℤ, List, length, FitsSigned, IfSome, Some, option_map};
ghost use Rattle.std.specs.Int.{w64};
ghost use Rattle.std.specs.List.{All};
ghost use Rattle.bisync_text.specs.Time.{time_spelling, IsPlainTime, HasOneTimeText, HasItsOwnTimeText};
ghost use Rattle.bisync_text.specs.TimeFields.{fields_at};

use crate::civil_times::{CivilTime, civil_of, moment};
use crate::digits::{byte, four_digits, nine_digits, number, two_digits};

/// The time text of a moment, `YYYY-MM-DDTHH:MM:SS.nnnnnnnnn+0000`, with all digits of each field. The moment is in
/// nanoseconds since 1970-01-01T00:00:00 in UTC, negative before it. Each has a text, and takes no memory.
pub fn time_text(ns: i64) -> [u8; 34]
    ensures { result ≡ time_spelling ns }
{
    let civil = civil_of(ns);
    let [y0, y1, y2, y3] = four_digits(civil.year);
    let [m0, m1] = two_digits(civil.month);
    let [d0, d1] = two_digits(civil.day);
    let [h0, h1] = two_digits(civil.hour);
    let [i0, i1] = two_digits(civil.minute);
    let [s0, s1] = two_digits(civil.second);
    let [n0, n1, n2, n3, n4, n5, n6, n7, n8] = nine_digits(civil.nanosecond);
    [
        y0, y1, y2, y3, b'-', m0, m1, b'-', d0, d1, b'T', h0, h1, b':', i0, i1, b':', s0, s1, b'.',
        n0, n1, n2, n3, n4, n5, n6, n7, n8, b'+', b'0', b'0', b'0', b'0',
    ]
}

/// The moment of a time text, in nanoseconds since 1970-01-01T00:00:00 in UTC. None where the text is the time text of no
/// moment in 64 bits: another form, length or offset, a day that the calendar doesn't have, hour 24, second 60, or a
/// moment past either end.
pub fn read_time(text: &[u8]) -> Option<i64>
    ensures found { IfSome result (λ t. text.now ≡ time_spelling t) }
    ensures exact { (t : ℤ) → FitsSigned w64 t → text.now ≡ time_spelling t → result ≡ Some t }
{
    let (civil, rest) = fields(text)?;
    if !rest.is_empty() {
        return None;
    }
    moment(civil)
}

/// The laws of time texts: each moment has one, no text is that of two moments, and a text has 34 bytes, each of them a
/// byte from `+` to `T`, so no newline, space, quote or backslash.
pub fn times_have_one_text()
    ensures one_text { (t : ℤ) → FitsSigned w64 t → HasOneTimeText t }
    ensures own_text { (t : ℤ) → FitsSigned w64 t → HasItsOwnTimeText t }
    ensures long { (t : ℤ) → length (time_spelling t) ≡ 34 }
    ensures plain { (t : ℤ) → All IsPlainTime (time_spelling t) }
{}

#[tactic(auto, unfolding(crate::specs::TimeFields::fields_at))]
fn fields(bytes: &[u8]) -> Option<(CivilTime, &[u8])>
    ensures { option_map (λ x. (x.0, x.1.now)) result ≡ fields_at bytes.now }
{
    let (year, rest) = number(4, bytes)?;
    let rest = byte(b'-', rest)?;
    let (month, rest) = number(2, rest)?;
    let rest = byte(b'-', rest)?;
    let (day, rest) = number(2, rest)?;
    let rest = byte(b'T', rest)?;
    let (hour, rest) = number(2, rest)?;
    let rest = byte(b':', rest)?;
    let (minute, rest) = number(2, rest)?;
    let rest = byte(b':', rest)?;
    let (second, rest) = number(2, rest)?;
    let rest = byte(b'.', rest)?;
    let (nanosecond, rest) = number(9, rest)?;
    let rest = byte(b'+', rest)?;
    let rest = byte(b'0', rest)?;
    let rest = byte(b'0', rest)?;
    let rest = byte(b'0', rest)?;
    let rest = byte(b'0', rest)?;
    Some((
        CivilTime {
            year,
            month,
            day,
            hour,
            minute,
            second,
            nanosecond,
        },
        rest,
    ))
}

#[cfg(test)]
mod tests {
    use super::*;

    /// The epoch, the nanosecond before it, both ends of 64 bits, and leap days as GNU date has them.
    #[test]
    fn moments_and_texts_lead_to_each_other(rt: HostRuntime) {
        let known: [(i64, &[u8; 34]); 7] = [
            (0, b"1970-01-01T00:00:00.000000000+0000"),
            (-1, b"1969-12-31T23:59:59.999999999+0000"),
            (i64::MIN, b"1677-09-21T00:12:43.145224192+0000"),
            (i64::MAX, b"2262-04-11T23:47:16.854775807+0000"),
            (
                951_782_400_000_000_000,
                b"2000-02-29T00:00:00.000000000+0000",
            ),
            (
                -2_203_891_201_000_000_000,
                b"1900-02-28T23:59:59.000000000+0000",
            ),
            (
                1_796_128_496_000_000_007,
                b"2026-12-01T12:34:56.000000007+0000",
            ),
        ];
        for (ns, text) in known {
            assert_eq!(rt; time_text(ns).as_slice(), text.as_slice());
            assert_eq!(rt; read_time(text), Some(ns));
        }
    }

    #[test]
    fn other_texts_have_no_moment(rt: HostRuntime) {
        let refused: [&[u8]; 20] = [
            b"",
            b"1677-09-21T00:12:43.145224191+0000",
            b"2262-04-11T23:47:16.854775808+0000",
            b"0000-01-01T00:00:00.000000000+0000",
            b"9999-12-31T23:59:59.999999999+0000",
            b"1970-02-30T00:00:00.000000000+0000",
            b"1900-02-29T00:00:00.000000000+0000",
            b"1970-04-31T00:00:00.000000000+0000",
            b"1970-00-01T00:00:00.000000000+0000",
            b"1970-13-01T00:00:00.000000000+0000",
            b"1970-01-00T00:00:00.000000000+0000",
            b"1970-01-01T24:00:00.000000000+0000",
            b"1970-01-01T00:60:00.000000000+0000",
            b"1970-01-01T00:00:60.000000000+0000",
            b"1970-01-01T00:00:00.000000000+000",
            b"1970-01-01T00:00:00.000000000+00000",
            b"1970-01-01T00:00:00.000000000+0100",
            b"1970-01-01T00:00:00.000000000-0000",
            b"1970-01-01 00:00:00.000000000+0000",
            b"1970-01-01T00:00:00.00000000x+0000",
        ];
        for text in refused {
            assert_eq!(rt; read_time(text), None);
        }
    }
}
