//! The reading of a start.

ghost use Rattle.std.specs.Prelude.{◌≡◌, ◌/◌, ◌%◌, ◌<◌, nat_eq, length, position, IfSome};
ghost use Rattle.std.specs.Result.{result_ok};
ghost use Rattle.jiff.specs.Words.{epoch_day, time_nanos};
ghost use Rattle.epoch_text.specs.Ranges.{IsStartDay};
ghost use Rattle.epoch_text.specs.Starts.{micros_at, instant_of, start_of};

mod clocks;
mod dates;

use crate::bad_start::BadStart;
use crate::start::Start;
use clocks::time_of;
use dates::date_of;
use jiff::civil::{Date, DateTime, Time};
use jiff::tz::Offset;

/// Reads a start: `YYYY-MM-DDThh:mm:ss` or `YYYY-DDDThh:mm:ss`, each field with exactly so many digits, then perhaps
/// `.` and 1 to 6 digits of the second's fraction, then perhaps `Z`. The year is 1900 to 9000, and the calendar, which
/// is the Gregorian one, has the date; the day of the year counts from 001. Hours are 00 to 23, minutes and seconds 00
/// to 59. It is an instant in UTC. Any other text is `BadStart`. It takes no memory.
pub fn read_start(text: &str) -> Result<Start, BadStart>
    ensures { result_ok result ≡ start_of text.now }
{
    start_of(text.as_bytes()).ok_or(BadStart)
}

/// The start that a text is.
fn start_of(text: &[u8]) -> Option<Start>
    ensures { result ≡ start_of text.now }
{
    let t_at = position_of_t(text)?;
    start_of_parts(&text[..t_at], &text[t_at + 1..])
}

/// Where the first `T` stands, which is between the date and the time of day.
fn position_of_t(text: &[u8]) -> Option<usize>
    ensures value { result ≡ position (λ byte. nat_eq byte 84) text.now }
    ensures bound { IfSome result (λ t_at. t_at < length text.now) }
{
    text.iter().position(|byte| *byte == b'T')
}

/// The start of the texts of a date and of a time of day.
fn start_of_parts(date: &[u8], clock: &[u8]) -> Option<Start>
    ensures { result ≡ instant_of date.now clock.now }
{
    let date = date_of(date)?;
    let time = time_of(clock)?;
    Some(start_at(date, time))
}

/// The start at a time of a day, which is one of whole microseconds.
fn start_at(date: Date, time: Time) -> Start
    requires day { IsStartDay (epoch_day date) }
    requires whole { time_nanos time % 1_000 ≡ 0 }
    ensures { result ≡ micros_at (epoch_day date) (time_nanos time / 1_000) }
{
    match Offset::UTC.to_timestamp(DateTime::from_parts(date, time)) {
        Ok(instant) => Start::at(instant.as_microsecond()),
        Err(_) => unreachable!(),
    }
}
