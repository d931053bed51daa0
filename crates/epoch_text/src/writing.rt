//! The text of a time.

ghost use Rattle.std.specs.Prelude.{◌≡◌, ◌+◌, ◌%◌, ◌++◌, IfOk, OnOk, string_bytes, pos, ◌*ℤ◌, ◌≤ℤ◌};
ghost use Rattle.jiff.specs.Words.{civil_nanos};
ghost use Rattle.epoch_text.specs.DayTexts.{HaveFewDigits, day_text_of, shown_text, stamp};
ghost use Rattle.epoch_text.specs.Ranges.{IsShown};

use crate::start::Start;
use aerie_base::{OutOfMemory, Time};
use jiff::Timestamp;
use jiff::civil::DateTime;
use jiff::tz::Offset;
use std::alloc::Global;

/// The text of a time after a start, `YYYY-DDDThh:mm:ss.ffffff` in UTC: the day of the year from 001, six digits of the
/// second's fraction, and no `Z`. The year may pass 9000, to 9032.
pub fn day_text(alloc: Global, start: &Start, time: Time) -> Result<String, OutOfMemory>
    ensures { IfOk result (λ text. string_bytes text ≡ day_text_of start.now time) }
{
    let mut text = String::new(alloc);
    push_day_text(&mut text, start, time)?;
    Ok(text)
}

/// Appends the same text. It takes memory only where the text has no room for it.
pub fn push_day_text(text: &mut String, start: &Start, time: Time) -> Result<(), OutOfMemory>
    ensures { OnOk result (string_bytes text.new ≡ string_bytes text.old ++ day_text_of start.now time) }
{
    push_shown(text, shown_at(start.micros() + time.get()))
}

/// What a clock in UTC shows so many microseconds from 1970-01-01T00:00:00Z.
fn shown_at(micros: i64) -> DateTime
    requires { IsShown micros }
    ensures { civil_nanos result ≡ micros *ℤ pos 1_000 }
{
    match Timestamp::from_microsecond(micros) {
        Ok(instant) => Offset::UTC.to_datetime(instant),
        Err(_) => unreachable!(),
    }
}

/// Appends the text of what a clock shows.
fn push_shown(text: &mut String, at: DateTime) -> Result<(), OutOfMemory>
    requires { pos 0 ≤ℤ at.date.year }
    ensures { OnOk result (string_bytes text.new ≡ string_bytes text.old ++ shown_text at) }
{
    push_stamp(
        text,
        at.year() as u16,
        at.day_of_year() as u16,
        at.hour() as u8,
        at.minute() as u8,
        at.second() as u8,
        at.subsec_nanosecond() as u32 / 1_000,
    )
}

/// Appends the text of a date by year and day of the year and a time of day: all its bytes at once.
fn push_stamp(
    text: &mut String,
    year: u16,
    year_day: u16,
    hour: u8,
    minute: u8,
    second: u8,
    micros: u32,
) -> Result<(), OutOfMemory>
    requires few { HaveFewDigits year year_day hour minute second micros }
    ensures { OnOk result (string_bytes text.new ≡ string_bytes text.old ++ stamp year year_day hour minute second micros) }
{
    let bytes = stamp_bytes(year, year_day, hour, minute, second, micros);
    Ok(text.push_str(unsafe { std::str::from_utf8_unchecked(&bytes) })?)
}

/// The same text, of numbers that have no more digits than their places.
fn stamp_bytes(year: u16, year_day: u16, hour: u8, minute: u8, second: u8, micros: u32) -> [u8; 24]
    requires few { HaveFewDigits year year_day hour minute second micros }
    ensures { result ≡ stamp year year_day hour minute second micros }
{
    let (year, year_day) = (u32::from(year), u32::from(year_day));
    let (hour, minute, second) = (u32::from(hour), u32::from(minute), u32::from(second));
    [
        last_digit(year / 1_000),
        last_digit(year / 100),
        last_digit(year / 10),
        last_digit(year),
        b'-',
        last_digit(year_day / 100),
        last_digit(year_day / 10),
        last_digit(year_day),
        b'T',
        last_digit(hour / 10),
        last_digit(hour),
        b':',
        last_digit(minute / 10),
        last_digit(minute),
        b':',
        last_digit(second / 10),
        last_digit(second),
        b'.',
        last_digit(micros / 100_000),
        last_digit(micros / 10_000),
        last_digit(micros / 1_000),
        last_digit(micros / 100),
        last_digit(micros / 10),
        last_digit(micros),
    ]
}

/// The byte of a number's last decimal digit.
fn last_digit(number: u32) -> u8
    ensures { result ≡ 48 + number % 10 }
{
    b'0' + (number % 10) as u8
}
