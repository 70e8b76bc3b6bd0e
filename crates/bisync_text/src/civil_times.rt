//! Civil times in UTC, by the calendar of `jiff`.

ghost use Rattle.std.specs.Prelude.{◌≡◌, pos, ◌≤ℤ◌, FitsSigned, IfSome, IfNone};
ghost use Rattle.std.specs.Int.{w64};
ghost use Rattle.jiff.specs.Words.{civil_nanos};
ghost use Rattle.bisync_text.specs.Time.{IsCivil, moment_of};
ghost use Rattle.bisync_text.specs.TimeFields.{FitsDigits};

use jiff::Timestamp;
use jiff::civil::{Date, DateTime, Time};
use jiff::tz::Offset;

/// What a calendar and a clock show, in UTC.
#[derive(Clone, Copy)]
pub(crate) struct CivilTime {
    pub(crate) year: u64,
    pub(crate) month: u64,
    pub(crate) day: u64,
    pub(crate) hour: u64,
    pub(crate) minute: u64,
    pub(crate) second: u64,
    pub(crate) nanosecond: u64,
}

/// The moment of a civil time, in nanoseconds since 1970. None where the calendar has no such day, a clock shows no such
/// time, or 64 bits don't hold the moment.
pub(crate) fn moment(civil: CivilTime) -> Option<i64>
    requires { FitsDigits civil }
    ensures found { IfSome result (λ t. FitsSigned w64 t × IsCivil civil × (moment_of civil ≡ t)) }
    ensures none { IfNone result (IsCivil civil → FitsSigned w64 (moment_of civil) → ⊥) }
{
    let date = date_of(civil)?;
    let time = clock_of(civil)?;
    nanos_at(DateTime::from_parts(date, time))
}

/// The civil time of a moment, in nanoseconds since 1970.
pub(crate) fn civil_of(ns: i64) -> CivilTime
    ensures civil { IsCivil result }
    ensures moment { moment_of result ≡ ns }
{
    let at = datetime_of(ns);
    civil_from(at.date(), at.time())
}

fn date_of(civil: CivilTime) -> Option<Date>
    requires { FitsDigits civil }
    ensures found { IfSome result
        (λ d. (d.year ≡ pos civil.year) × (d.month ≡ civil.month) × (d.day ≡ civil.day)) }
    ensures none { IfNone result (IsCivil civil → ⊥) }
{
    Date::new(civil.year as i16, civil.month as i8, civil.day as i8).ok()
}

fn clock_of(civil: CivilTime) -> Option<Time>
    requires { FitsDigits civil }
    ensures found { IfSome result (λ t. (t.hour ≡ civil.hour) × (t.minute ≡ civil.minute)
        × (t.second ≡ civil.second) × (t.subsec_nanosecond ≡ civil.nanosecond)) }
    ensures none { IfNone result (IsCivil civil → ⊥) }
{
    let (hour, minute, second) = (civil.hour as i8, civil.minute as i8, civil.second as i8);
    Time::new(hour, minute, second, civil.nanosecond as i32).ok()
}

fn nanos_at(at: DateTime) -> Option<i64>
    ensures found { IfSome result (λ t. FitsSigned w64 t × (t ≡ civil_nanos at)) }
    ensures none { IfNone result (FitsSigned w64 (civil_nanos at) → ⊥) }
{
    match Offset::UTC.to_timestamp(at) {
        Ok(timestamp) => i64::try_from(timestamp.as_nanosecond()).ok(),
        Err(_) => None,
    }
}

fn datetime_of(ns: i64) -> DateTime
    ensures { civil_nanos result ≡ ns }
{
    let timestamp = Timestamp::from_nanosecond(ns as i128).unwrap();
    Offset::UTC.to_datetime(timestamp)
}

fn civil_from(date: Date, time: Time) -> CivilTime
    requires { pos 0 ≤ℤ date.year }
    ensures year { pos result.year ≡ date.year }
    ensures month { result.month ≡ date.month }
    ensures day { result.day ≡ date.day }
    ensures hour { result.hour ≡ time.hour }
    ensures minute { result.minute ≡ time.minute }
    ensures second { result.second ≡ time.second }
    ensures nanosecond { result.nanosecond ≡ time.subsec_nanosecond }
{
    CivilTime {
        year: date.year() as u64,
        month: date.month() as u64,
        day: date.day() as u64,
        hour: time.hour() as u64,
        minute: time.minute() as u64,
        second: time.second() as u64,
        nanosecond: time.subsec_nanosecond() as u64,
    }
}
