//! Durations, as in `1h30m`.

ghost use Rattle.std.specs.Prelude.{◌≡◌, ◌<◌, ◌^◌, IfSome};
ghost use Rattle.bisync_opts.specs.Duration.{duration};

use bisync_text::read_duration;

/// The nanoseconds of `0`, or of one or more of the parts `<n>h`, `<n>m` and `<n>s` in this order, each
/// at most once, where n has one to six digits.
pub fn duration(text: &str) -> Option<u64>
    ensures value { result ≡ duration text.now }
    ensures bound { IfSome result (λ n. n < 2 ^ 63) }
{
    let n = read_duration(text.as_bytes())?;
    Some(n as u64)
}
