//! The times of lines.
ghost use Rattle.std.specs.Prelude.{◌≡◌};
ghost use Rattle.osc_log.specs.Time.{IsTime, instant};

use arrayvec::ArrayString;
use jiff::Timestamp;
use jiff::fmt::temporal::DateTimePrinter;
use osc_model::Moment;

/// The moment as RFC 3339 writes it (section 5.6), in UTC and with milliseconds: `2026-11-28T09:00:00.123Z`. Takes no memory. A moment
/// after the last instant that the calendar has, in the year 9999, is written as that instant.
pub(crate) fn time_text(now: Moment) -> ArrayString<33>
    ensures { IsTime now result.bytes }
{
    DateTimePrinter::new()
        .precision(Some(3))
        .timestamp_text(instant_of(now).to_plain())
}

fn instant_of(now: Moment) -> Timestamp
    ensures { result.nanosecond ≡ instant now }
{
    match Timestamp::from_millisecond(now.ms as i64) {
        Ok(instant) => instant,
        Err(_) => Timestamp::MAX,
    }
}
